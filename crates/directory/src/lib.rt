//! Whole identifier to entry number.
#![tactic(auto)]

mod directory;
mod entry;
mod hashed_directory;
mod probing;
mod row_directory;

pub use directory::{CAPACITY, Directory, PutRefusal};
pub use entry::Entry;
pub use hashed_directory::HashedDirectory;
pub use probing::home_place;
pub use row_directory::RowDirectory;
pub use terms::{HIGHEST, LONGEST, LOWEST};
