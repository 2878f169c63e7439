//! The order register, both ways: its layout, its reader and its writer.
#![tactic(auto)]

mod begun;
mod fault;
mod field;
mod place;
mod reader;
mod writer;

pub use fault::{Fault, Report};
pub use reader::{Listed, Part, Reader};
pub use writer::{NoRoom, Writer};
