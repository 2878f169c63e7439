//! The book that runs, and whole days: a list of calls on one book, and one list against another.
#![tactic(auto)]

mod book;
mod both_runs;
mod call;
mod engine;
mod played;
mod prepared;
mod refusal;

pub use book::{Book, Explanation};
pub use both_runs::{NotRerun, rerun};
pub use call::{Answer, Call};
pub use played::{Played, carry_out, play, replay};
pub use refusal::{NotOpened, OpenRefusal, Rejected};
