//! The two prices of an order, and how a price is told.
ghost use Rattle.std.specs.Prelude.{Some, true, ◌≡◌};
ghost use Rattle.terms.specs.Made.{terms_of};
ghost use Rattle.terms.specs.Prices.{limit_or_midpoint as limit_or_midpoint_of, peg as peg_of, ranked, reach as reach_of};
ghost use Rattle.terms.specs.Shown.{in_dollars};
ghost use Rattle.terms.specs.Sides.{tamer as tamer_of};
ghost use Rattle.terms.specs.Judging.{offset_in_range};

use crate::kind::Kind;
use crate::quote::Quote;
use crate::side::Side;
use crate::ticket::Terms;
use std::fmt;

/// In whole cents: no limit and no quote stands above it.
pub const TOP_PRICE: u32 = 2_000_000;

/// A price in half-cents, shown in dollars with three decimals.
#[derive(Clone, Copy, Drop)]
pub struct HalfCents(pub u32);

fn tamer(side: Side, p: u32, q: u32) -> u32
    ensures { result ≡ tamer_of side p q }
{
    match side {
        Side::Buy => p.min(q),
        Side::Sell => p.max(q),
    }
}

fn peg(side: Side, quote: Quote, offset: i32) -> u32
    requires { offset_in_range offset ≡ true }
    ensures { result ≡ peg_of side quote.bid quote.offer offset }
{
    match side {
        Side::Buy => (2 * quote.bid.saturating_add_signed(offset)).max(2),
        Side::Sell => (2 * quote.offer.saturating_add_signed(offset)).min(2 * TOP_PRICE),
    }
}

fn limit_or_midpoint(terms: Terms, quote: Quote) -> u32
    ensures { result ≡ limit_or_midpoint_of (terms_of terms) quote.bid quote.offer }
{
    tamer(terms.side, 2 * terms.limit, quote.bid + quote.offer)
}

/// Where the order stands in the book, in half-cents.
pub fn ranked_price(terms: Terms, quote: Quote) -> u32
    ensures { result ≡ ranked (terms_of terms) quote.bid quote.offer }
{
    match terms.kind {
        Kind::DisplayedLimit | Kind::HiddenLimit => 2 * terms.limit,
        Kind::DisplayedMdo | Kind::HiddenMdo => tamer(
            terms.side,
            peg(terms.side, quote, terms.offset),
            limit_or_midpoint(terms, quote),
        ),
        Kind::MidpointPeg => limit_or_midpoint(terms, quote),
    }
}

/// The price up to which the order trades, in half-cents; `period_runs` tells whether its side is protected now.
pub fn reach(terms: Terms, period_runs: bool, quote: Quote) -> u32
    ensures { result ≡ reach_of (terms_of terms) period_runs quote.bid quote.offer }
{
    if terms.qdp && period_runs {
        return ranked_price(terms, quote);
    }
    match terms.kind {
        Kind::DisplayedMdo | Kind::HiddenMdo => limit_or_midpoint(terms, quote),
        Kind::DisplayedLimit | Kind::HiddenLimit | Kind::MidpointPeg => ranked_price(terms, quote),
    }
}

impl fmt::Display for HalfCents {
    ghost output = { λ p. Some (in_dollars p.0) };

    #[tactic(auto, using(crate::proofs::Dollars::dollars))]
    fn fmt<W: fmt::Write>(&self, f: &mut fmt::Formatter<W>) -> fmt::Result {
        let mills = u64::from(self.0) * 5;
        write!(f, "{}.{:03}", mills / 1000, mills % 1000)
    }
}
