//! What was traded: a tape keeps the lines of the trades, oldest first.
#![tactic(auto)]

mod byte_tape;
mod layout;
mod line;
mod record_tape;
mod tape;

pub use byte_tape::{ByteTape, write_lines};
pub use layout::{LINE_BYTES, line_bytes, line_in, read_line};
pub use line::{Line, Mark};
pub use record_tape::RecordTape;
pub use tape::{Full, Tape};
