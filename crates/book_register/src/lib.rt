//! Registers loaded into a book and written from it.
#![tactic(auto)]

mod load;
mod write;

pub use load::{LoadFault, Loaded, Slip, load_register};
pub use write::write_book;
