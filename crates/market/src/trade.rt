//! One line: what is displayed before and after it, and what it leaves.
ghost use Rattle.market.specs.Changes.{SameButShares};
ghost use Rattle.market.specs.Displays.{shares_there as shares_there_of};
ghost use Rattle.market.specs.Rows.{row_order};
ghost use Rattle.market.specs.Seen.{Becomes, market_with, orders_of, rows_of, seen};
ghost use Rattle.market.specs.Trading.{mark_if, protected_if};
ghost use Rattle.rules.specs.Limits.{last_moment};
ghost use Rattle.rules.specs.Market.{lower, with_orders};
ghost use Rattle.rules.specs.Sweep.{best_displayed, depletes as depletes_of, displayed_shares as displayed_shares_of, side_mark, trade as trade_of};
ghost use Rattle.std.specs.Prelude.{List, [], ◌&&◌, ◌++◌, ◌^◌, ◌∷◌, ◌≡◌, ◌≤◌};
ghost use Rattle.tape.specs.declared.line.Line.{Line as TradeLine};

use crate::priority::outranks;
use crate::table::{Row, Table};
use rules::{PROTECTION_PERIOD, ROUND_LOT};
use tape::{Line, Mark};
use terms::Side;

/// The mark of a line that depletes the side. A function, since neither type is of this crate.
pub(crate) fn mark_of(side: Side) -> Mark
    ensures { result ≡ side_mark side }
{
    match side {
        Side::Buy => Mark::BidDepleted,
        Side::Sell => Mark::OfferDepleted,
    }
}

impl Table {
    // Lowers the partner of a line, and tells whether that depletes its side's best display.
    fn lower_partner(&mut self, partner: &Row, shares: u32) -> bool
        ensures depletes { result ≡ depletes_of (seen self.old) (row_order partner.now) (lower partner.now.number shares (seen self.old).orders) }
        ensures market { Becomes self.old self.new (λ market. with_orders (lower partner.now.number shares market.orders) market) }
        ensures rows { SameButShares (rows_of self.old) (rows_of self.new) }
    {
        let side = partner.terms.side;
        let ranked = self.ranked(partner);
        let stood_best = partner.is_displayed() && self.is_best_displayed(side, ranked);
        self.lower(partner.number, shares);
        stood_best && self.displayed_shares(side, ranked) < u64::from(ROUND_LOT)
    }

    // Where the line depletes, it is marked, and the partner's side is protected from its time on.
    fn protect_if(&mut self, depletes: bool, time: u64, side: Side) -> Mark
        requires { time ≤ last_moment }
        ensures mark { result ≡ mark_if depletes side }
        ensures market { Becomes self.old self.new (protected_if depletes time side) }
        ensures rows { SameButShares (rows_of self.old) (rows_of self.new) }
    {
        if !depletes {
            return Mark::Nothing;
        }
        self.set_end(side, Some(time.saturating_add(PROTECTION_PERIOD)));
        mark_of(side)
    }

    /// One line at the time, for a taker at the price; the line is handed back for the tape.
    pub(crate) fn trade(&mut self, time: u64, price: u32, taker: &Row, partner: &Row) -> Line
        requires { time ≤ last_moment }
        ensures market { (lines : List TradeLine) → market_with (lines ++ (result ∷ [])) self.new ≡ trade_of time price (row_order taker.now) (row_order partner.now) (market_with lines self.old) }
        ensures rows { SameButShares (rows_of self.old) (rows_of self.new) }
    {
        let shares = partner.left.min(taker.left);
        let line_price = self.line_price(price, partner);
        let depletes = self.lower_partner(partner, shares);
        self.lower(taker.number, shares);
        let mark = self.protect_if(depletes, time, partner.terms.side);
        Line {
            time,
            partner: partner.number,
            taker: taker.number,
            shares,
            price: line_price,
            mark,
        }
    }
}

impl Table {
    /// No displayed order of the side ranks better than the price.
    pub(crate) fn is_best_displayed(&self, side: Side, price: u32) -> bool
        ensures { result ≡ best_displayed (seen self.now) side price (orders_of self.now) }
    {
        self.rows.iter().filter(|row| row.rests()).all(|row| !(row.shows(side)
            && outranks(side, self.ranked(row), price)))
    }

    // The shares of the row that are displayed there.
    fn shares_there(&self, side: Side, price: u32, row: &Row) -> u32
        ensures there { result ≡ shares_there_of (seen self.now) side price (row_order row.now) }
        ensures few { result ≤ 2 ^ 32 }
    {
        if row.shows(side) && self.ranked(row) == price {
            row.left
        } else {
            0
        }
    }

    /// The displayed shares of the side at the price.
    pub(crate) fn displayed_shares(&self, side: Side, price: u32) -> u64
        ensures { result ≡ displayed_shares_of (seen self.now) side price (orders_of self.now) }
    {
        self.rows
            .iter()
            .map(|row| u64::from(self.shares_there(side, price, row)))
            .sum()
    }
}
