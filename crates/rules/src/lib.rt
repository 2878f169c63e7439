//! The rule book: what a book does with each call, as definitions in specs/, and the laws that hold of them.
//! Each law stands in the contract of a function, mostly one that tells a number of the rule.
#![tactic(auto)]

mod laws;
mod limits;
mod priority;
mod refusal;

pub use laws::{
    entries_are_numbered, lines_tell_trades, lines_within_orders, never_crossed, nothing_is_due,
    orders_within_places, settles_at_once, shares_remain, tape_explains_discretion,
    ticks_change_only_the_clock,
};
pub use limits::{
    FEWEST_LEFT, LAST_MOMENT, MOST_ENTRIES, MOST_RESTING, PROTECTION_PERIOD, ROUND_LOT,
};
pub use priority::{Class, Keys, class_of, no_partner_goes_ahead, one_ranking};
pub use refusal::Refusal;
