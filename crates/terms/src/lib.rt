//! Tickets and quotes that cannot be unlawful, and what follows from them: ranked price and reach.
#![tactic(auto)]

mod identifier;
mod kind;
mod per_side;
mod price;
mod quote;
mod refusal;
mod side;
mod ticket;
mod time_in_force;

pub use identifier::{HIGHEST, Identifier, LONGEST, LOWEST};
pub use kind::Kind;
pub use per_side::PerSide;
pub use price::{HalfCents, TOP_PRICE, ranked_price, reach};
pub use quote::Quote;
pub use refusal::Refusal;
pub use side::Side;
pub use ticket::{Draft, FARTHEST_OFFSET, MOST_SHARES, Terms, Ticket};
pub use time_in_force::TimeInForce;
