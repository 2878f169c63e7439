//! The order table, with what the prices of its orders depend on.
ghost use Rattle.market.specs.Changes.{AllRest};
ghost use Rattle.market.specs.Reaches.{AllWithin};
ghost use Rattle.market.specs.Rows.{most_rows, rests, rests as rests_of, rising, row_order};
ghost use Rattle.rules.specs.Sweep.{displayed as displayed_of, shows as shows_of};
ghost use Rattle.std.specs.Prelude.{false, if◌then◌else◌, true, vec_capacity, vec_len, ◌&&◌, ◌≡◌, ◌≤◌};
ghost use Rattle.terms.specs.Sides.{same_side};

use crate::reaches::{NOWHERE, farthest_of, widen};
use rules::MOST_RESTING;
use std::alloc::{AllocError, Global};
use terms::{Identifier, Kind, PerSide, Quote, Side, Terms, ranked_price, reach};

/// An order in the book; one that has no shares left rests no more.
#[derive(Clone, Copy, Drop)]
pub struct Row {
    pub identifier: Identifier,
    pub number: u32,
    pub terms: Terms,
    pub left: u32,
}

/// The shares of the row that rest on the side.
pub(crate) fn shares_on(row: &Row, side: Side) -> u32
    ensures { result ≡ (if same_side row.now.terms.side side then row.now.left else 0) }
{
    if row.terms.side == side { row.left } else { 0 }
}

/// The row rests, on the side.
pub(crate) fn rests_on(row: &Row, side: Side) -> bool
    ensures { result ≡ (rests row.now && same_side row.now.terms.side side) }
{
    shares_on(row, side) > 0
}

impl Row {
    pub(crate) fn is_displayed(&self) -> bool
        ensures { result ≡ displayed_of self.now.terms.kind }
    {
        matches!(self.terms.kind, Kind::DisplayedLimit | Kind::DisplayedMdo)
    }

    /// The order is displayed, and of the side.
    pub(crate) fn shows(&self, side: Side) -> bool
        ensures { result ≡ shows_of side (row_order self.now) }
    {
        self.is_displayed() && self.terms.side == side
    }

    pub(crate) fn rests(&self) -> bool
        ensures { result ≡ rests_of self.now }
    {
        self.left > 0
    }
}

/// Rows stand by ascending entry number: 64 may rest, and one more may stand while it is being entered. The ends are those of
/// the sides' protection periods, where they run. No row of a side reaches farther than the side's bound, `farthest`. Some
/// row may be `spent`, with no shares left; where none is, every row rests.
#[derive(Drop)]
pub struct Table {
    pub(crate) rows: Vec<Row>,
    pub(crate) farthest: PerSide<u32>,
    pub(crate) spent: bool,
    pub(crate) quote: Quote,
    pub(crate) ends: PerSide<Option<u64>>,
    ghost room: { most_rows ≤ vec_capacity rows },
    ghost few: { vec_len rows ≤ most_rows },
    ghost ascending: { rising 0 rows.items ≡ true },
    ghost reach: { AllWithin quote farthest rows.items },
    ghost whole: { spent ≡ false → AllRest rows.items },
}

/// How many rows stand at most: those that rest, and one that is being entered.
pub(crate) const MOST_ROWS: usize = MOST_RESTING + 1;

impl Table {
    ghost use Rattle.std.specs.Option.{option_map};
    ghost use Rattle.std.specs.Prelude.{IfOk, IsOk, MatchOption, None, OnErr, [], if◌then◌else◌, is_ok, length, nat_le, nat_lt, slice_index_or, take, ◌&&◌, ◌++◌, ◌+◌, ◌-◌, ◌<◌, ◌↔◌, ◌∷◌};
    ghost use Rattle.market.specs.Changes.{FirstSpent, OnlySharesOf, RestsAt, Retired, newest_number};
    ghost use Rattle.market.specs.Joining.{CanJoin};
    ghost use Rattle.market.specs.Rows.{row_order};
    ghost use Rattle.market.specs.Seen.{Becomes, orders_of, quote_of, rows_of, seen};
    ghost use Rattle.rules.specs.Calls.{joined};
    ghost use Rattle.rules.specs.Market.{end_of, lower, period_runs as period_runs_of, ranked_in, reach_in, resting, with_end, with_orders, with_quote, without};
    ghost use Rattle.rules.specs.Runs.{opened};

    /// An empty table, with room for all rows that it will ever hold. Fails only for want of memory.
    pub fn open(heap: Global, quote: Quote) -> Result<Table, AllocError>
        ensures { IfOk result (λ table. (rows_of table ≡ []) × (quote_of table ≡ quote) × (seen table ≡ (opened quote.bid quote.offer).market)) }
    {
        let rows = Vec::with_capacity(heap, MOST_ROWS)?;
        Ok(Table {
            rows,
            farthest: NOWHERE,
            spent: false,
            quote,
            ends: PerSide {
                buy: None,
                sell: None,
            },
        })
    }

    pub(crate) fn set_quote(&mut self, quote: Quote)
        ensures quote { quote_of self.new ≡ quote }
        ensures market { Becomes self.old self.new (with_quote quote.bid quote.offer) }
        ensures rows { self.new.rows ≡ self.old.rows }
    {
        self.farthest = farthest_of(&self.rows, quote);
        self.quote = quote;
    }

    /// Sets or clears the end of the side's protection period.
    pub(crate) fn set_end(&mut self, side: Side, end: Option<u64>)
        ensures market { Becomes self.old self.new (with_end side end) }
        ensures rows { self.new.rows ≡ self.old.rows }
    {
        self.ends.set(side, end);
    }

    pub(crate) fn quote(&self) -> Quote
        ensures { result ≡ quote_of self.now }
    {
        self.quote
    }

    /// When the side's protection period ends, where one runs.
    pub(crate) fn end(&self, side: Side) -> Option<u64>
        ensures { result ≡ end_of side (seen self.now) }
    {
        *self.ends.get(side)
    }

    /// Whether the side's protection period runs.
    pub(crate) fn period_runs(&self, side: Side) -> bool
        ensures { result ≡ period_runs_of side (seen self.now) }
    {
        self.ends.get(side).is_some()
    }

    /// The price at which the row's order stands, in half-cents.
    pub fn ranked(&self, row: &Row) -> u32
        ensures { result ≡ ranked_in (seen self.now) (row_order row.now) }
    {
        ranked_price(row.terms, self.quote)
    }

    /// The price up to which it trades now, in half-cents.
    pub fn reach(&self, row: &Row) -> u32
        ensures { result ≡ reach_in (seen self.now) (row_order row.now) }
    {
        reach(row.terms, self.period_runs(row.terms.side), self.quote)
    }

    /// How many rows stand, with shares left or without.
    pub(crate) fn len(&self) -> usize
        ensures { result ≡ length (rows_of self.now) }
    {
        self.rows.len()
    }

    /// All rows, with shares left or without.
    pub fn rows(&self) -> &[Row]
        ensures { result.now ≡ rows_of self.now }
    {
        &self.rows
    }

    /// The row at an index, from 0.
    pub(crate) fn row_at(&self, index: usize) -> Option<Row>
        ensures { MatchOption result (length (rows_of self.now) ≤ index) (λ row. (index < length (rows_of self.now)) × (row ≡ slice_index_or (rows_of self.now) index row)) }
    {
        self.rows.get(index).copied()
    }

    /// The index of the resting row with that entry number.
    pub(crate) fn index_of(&self, number: u32) -> Option<usize>
        ensures { MatchOption result
            (resting number (orders_of self.now) ≡ None)
            (λ index. RestsAt (rows_of self.now) number index) }
    {
        self.rows
            .iter()
            .position(|row| row.number == number && row.rests())
    }

    /// The resting row with that entry number.
    pub fn row(&self, number: u32) -> Option<Row>
        ensures { option_map row_order result ≡ resting number (orders_of self.now) }
    {
        let i = self.index_of(number)?;
        Some(self.rows[i])
    }

    /// How many orders rest.
    pub fn len_resting(&self) -> usize
        ensures { result ≡ length (orders_of self.now) }
    {
        self.rows.iter().filter(|row| row.rests()).count()
    }

    /// Whether at most so many orders rest. No more rest than stand, so that they are counted only where the rows are more.
    pub fn rests_at_most(&self, count: usize) -> bool
        ensures { result ≡ nat_le (length (orders_of self.now)) count }
    {
        self.rows.len() <= count || self.len_resting() <= count
    }

    /// Adds a row behind the others.
    pub(crate) fn join(&mut self, row: Row)
        requires { CanJoin (rows_of self.old) row }
        ensures rows { rows_of self.new ≡ rows_of self.old ++ (row ∷ []) }
        ensures market { Becomes self.old self.new (joined (row_order row)) }
    {
        self.rows.push_reserved(row);
        self.farthest = widen(self.farthest, &row, self.quote);
    }

    /// Drops the newest row, whether it rests or not; an empty table stays as it is.
    pub fn drop_newest(&mut self)
        ensures rows { rows_of self.new ≡ take (length (rows_of self.old) - 1) (rows_of self.old) }
        ensures market { Becomes self.old self.new (λ market. with_orders (without (newest_number 0 (rows_of self.old)) market.orders) market) }
    {
        self.rows.pop();
    }

    /// The resting order with that entry number has no shares left, so that it rests no more.
    pub fn leave(&mut self, number: u32)
        ensures orders { orders_of self.new ≡ without number (orders_of self.old) }
        ensures market { Becomes self.old self.new (λ market. with_orders (without number market.orders) market) }
        ensures rows { OnlySharesOf number (rows_of self.old) (rows_of self.new) }
    {
        if let Some(i) = self.index_of(number) {
            let row = &mut self.rows[i];
            row.left = 0;
            self.spent = true;
        }
    }

    /// Lowers the resting order with that entry number; with no shares left it rests no more. No other row is touched.
    pub(crate) fn lower(&mut self, number: u32, shares: u32)
        ensures orders { orders_of self.new ≡ lower number shares (orders_of self.old) }
        ensures market { Becomes self.old self.new (λ market. with_orders (lower number shares market.orders) market) }
        ensures rows { OnlySharesOf number (rows_of self.old) (rows_of self.new) }
    {
        if let Some(i) = self.index_of(number) {
            let row = &mut self.rows[i];
            row.left = row.left.saturating_sub(shares);
            self.spent = true;
        }
    }

    // The index of the first row that rests no more.
    fn first_spent(&self) -> Option<usize>
        ensures { MatchOption result (AllRest (rows_of self.now)) (λ index. FirstSpent (rows_of self.now) index) }
    {
        self.rows.iter().position(|row| !row.rests())
    }

    /// Drops the first row that rests no more and tells its identifier; where every row rests, nothing changes.
    pub fn retire(&mut self) -> Option<Identifier>
        ensures orders { orders_of self.new ≡ orders_of self.old }
        ensures market { Becomes self.old self.new (λ market. market) }
        ensures told { MatchOption result
            ((self.new ≡ self.old) × AllRest (rows_of self.old))
            (λ identifier. Retired (rows_of self.old) (rows_of self.new) identifier) }
        ensures count { MatchOption result (length (rows_of self.new) ≡ length (rows_of self.old)) (λ _. length (rows_of self.new) + 1 ≡ length (rows_of self.old)) }
    {
        // mostly nobody has left
        if !self.spent {
            return None;
        }
        let i = self.first_spent()?;
        let row = self.rows.remove(i);
        self.spent = self.first_spent().is_some();
        Some(row.identifier)
    }
}
