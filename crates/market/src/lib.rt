//! The order table with a tape: who trades next, sweeps, protection periods, and what is told of them.
#![tactic(auto)]

mod explanation;
mod figures;
mod market;
mod priority;
mod ranking;
mod reaches;
mod table;
mod trade;

pub use explanation::{Why, explain};
pub use figures::{Figures, Tally, figures_of};
pub use market::Market;
pub use ranking::{Standing, ask};
pub use table::{Row, Table};
