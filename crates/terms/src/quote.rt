//! The best bid and offer of the market, lawful by its type.
ghost use Rattle.std.specs.Prelude.{◌<◌, ◌≤◌};
ghost use Rattle.terms.specs.Limits.{top_price};

use crate::price::TOP_PRICE;
use crate::refusal::Refusal;

/// The best bid and offer of the market, in whole cents.
#[derive(Clone, Copy, Drop)]
pub struct Quote {
    pub bid: u32,
    pub offer: u32,
    ghost lawful: { (1 ≤ bid) × (bid < offer) × (offer ≤ top_price) },
}

impl Quote {
    ghost use Rattle.std.specs.Prelude.{◌≡◌};
    ghost use Rattle.terms.specs.Made.{as_prices};
    ghost use Rattle.terms.specs.Judging.{quote_from};

    /// In whole cents: the bid at least 1 and below the offer, the offer at most 2,000,000; else Refusal::Quote.
    pub fn new(bid: u32, offer: u32) -> Result<Quote, Refusal>
        ensures { as_prices result ≡ quote_from bid offer }
    {
        if bid < 1 || bid >= offer || offer > TOP_PRICE {
            return Err(Refusal::Quote);
        }
        Ok(Quote { bid, offer })
    }
}
