//! Day files: lines of text, what they ask of a book, and what is answered.
#![tactic(auto)]

mod command;
mod desk;
mod frame;
mod line;
mod makes;
mod output;

pub use command::{BadLine, Command, Expected, read_command};
pub use desk::{Desk, SLIP_PLACES};
pub use frame::{Frame, Opening};
pub use makes::{DirectoryMake, Makes, NoMemory, Serve, TapeMake, byte_room, record_room};
pub use output::Output;

/// Of the programs.
pub const VERSION: &str = "1.0";
