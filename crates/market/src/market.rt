//! The market as calls change it: an order swept in, rounds of sweeps, and the periods that end.
ghost use Rattle.market.specs.Changes.{SameButShares};
ghost use Rattle.market.specs.Joining.{CanJoin};
ghost use Rattle.market.specs.Markets.{CanFollow, Follows, capacity_of, market_of};
ghost use Rattle.market.specs.Rounds.{swept_at, woken};
ghost use Rattle.market.specs.Rows.{row_order};
ghost use Rattle.market.specs.Seen.{rows_of};
ghost use Rattle.rules.specs.Calls.{requoted, swept_in};
ghost use Rattle.rules.specs.Clock.{due as due_of, end_period as end_period_of, settle as settle_of};
ghost use Rattle.rules.specs.Finished.{FilledOrAlone, NothingDueAt};
ghost use Rattle.rules.specs.Market.{reach_in, those};
ghost use Rattle.rules.specs.Sweep.{sweep as sweep_of, sweep_each as sweep_each_of, trade as trade_of};
ghost use Rattle.std.specs.Prelude.{[], ◌++◌, ◌∷◌, ◌≡◌};

use crate::table::{Row, Table};
use tape::Tape;
use terms::{Kind, Quote, Side};

/// What wakes the orders of a round: two named events, since whoever hands over a closure has to prove that it can be called.
#[derive(Clone, Copy, PartialEq, Eq, Debug, Drop)]
pub(crate) enum Round {
    /// the side's protection period has ended: its QDP orders
    PeriodEnded(Side),
    /// the quote is new: the orders whose price follows it
    QuoteChanged,
}

/// The order table with the tape that its lines go on.
#[derive(Drop)]
pub struct Market<T: Tape> {
    pub table: Table,
    pub tape: T,
}

impl<T: Tape> Market<T> {
    // One line between a taker and a partner.
    fn line(&mut self, time: u64, price: u32, taker: &Row, partner: &Row)
        requires { CanFollow T.Tape self.old time (trade_of time price (row_order taker.now) (row_order partner.now)) }
        ensures { Follows T.Tape self.old self.new (trade_of time price (row_order taker.now) (row_order partner.now)) }
    {
        let line = self.table.trade(time, price, taker, partner);
        self.tape.write(line).unwrap();
    }

    /// The order as taker at the time, at its present reach, until it is filled or finds no partner. One that rests no more is passed
    /// over. Each line ends an order, so as many turns as orders rest are enough.
    pub(crate) fn sweep(&mut self, time: u64, taker: &Row)
        requires { CanFollow T.Tape self.old time (sweep_of time (row_order taker.now)) }
        ensures follows { Follows T.Tape self.old self.new (sweep_of time (row_order taker.now)) }
        ensures finished { FilledOrAlone (row_order taker.now) (reach_in (market_of T.Tape self.old) (row_order taker.now)) (market_of T.Tape self.new) }
    {
        let price = self.table.reach(taker);
        // no more orders rest than rows stand, so these turns are enough too
        let turns = self.table.len();
        for _ in 0..turns {
            // asked first, since most sweeps find none
            let Some(partner) = self.table.partner_for(taker, price) else {
                return;
            };
            let Some(row) = self.table.row(taker.number) else {
                return;
            };
            self.line(time, price, &row, &partner);
            // mostly it is filled then, and wants no other partner
            if self.table.index_of(taker.number).is_none() {
                return;
            }
        }
    }

    // The row at an index is swept if the round wakes it.
    fn sweep_row(&mut self, time: u64, round: Round, index: usize)
        requires { CanFollow T.Tape self.old time (swept_at round time index (rows_of self.old.table)) }
        ensures { Follows T.Tape self.old self.new (swept_at round time index (rows_of self.old.table)) }
    {
        let Some(row) = self.table.row_at(index) else {
            return;
        };
        if round.wakes(&row) {
            self.sweep(time, &row);
        }
    }

    /// Every order that the round wakes is swept, as they rest when it begins; one that has left before its turn is swept in vain.
    pub(crate) fn sweep_each(&mut self, time: u64, round: Round)
        requires { CanFollow T.Tape self.old time (λ market. sweep_each_of time (those (woken round) market.orders) market) }
        ensures { Follows T.Tape self.old self.new (λ market. sweep_each_of time (those (woken round) market.orders) market) }
    {
        // by index, since each sweep changes rows
        let rows = self.table.len();
        for index in 0..rows {
            self.sweep_row(time, round, index);
        }
    }

    /// The order joins those that rest, and is swept, until it is filled or finds no partner. Its row stays, also with no shares left.
    pub fn sweep_in(&mut self, time: u64, row: Row)
        requires joins { CanJoin (rows_of self.old.table) row }
        requires follows { CanFollow T.Tape self.old time (swept_in time (row_order row)) }
        ensures market { market_of T.Tape self.new ≡ swept_in time (row_order row) (market_of T.Tape self.old) }
        ensures finished { FilledOrAlone (row_order row) (reach_in (market_of T.Tape self.old) (row_order row)) (market_of T.Tape self.new) }
        ensures capacity { capacity_of T.Tape self.new ≡ capacity_of T.Tape self.old }
        ensures rows { SameButShares (rows_of self.old.table ++ (row ∷ [])) (rows_of self.new.table) }
    {
        self.table.join(row);
        self.sweep(time, &row);
    }
}

impl Round {
    fn wakes(self, row: &Row) -> bool
        ensures { result ≡ woken self (row_order row.now) }
    {
        match self {
            Round::PeriodEnded(side) => row.terms.qdp && row.terms.side == side,
            Round::QuoteChanged => matches!(
                row.terms.kind,
                Kind::DisplayedMdo | Kind::HiddenMdo | Kind::MidpointPeg
            ),
        }
    }
}

impl<T: Tape> Market<T> {
    /// The quote is replaced, and every order that follows it is swept, lowest entry number first.
    pub fn requote(&mut self, time: u64, quote: Quote)
        requires { CanFollow T.Tape self.old time (requoted time quote.bid quote.offer) }
        ensures { Follows T.Tape self.old self.new (requoted time quote.bid quote.offer) }
    {
        self.table.set_quote(quote);
        self.sweep_each(time, Round::QuoteChanged);
    }

    /// The period that ends first, if its end has come by the time; the buy side's where both end together.
    pub fn due(&self, time: u64) -> Option<(Side, u64)>
        ensures { result ≡ due_of time (market_of T.Tape self.now) }
    {
        let first = match (self.table.end(Side::Buy), self.table.end(Side::Sell)) {
            (Some(buy), Some(sell)) if sell < buy => (Side::Sell, sell),
            (Some(buy), _) => (Side::Buy, buy),
            (None, Some(sell)) => (Side::Sell, sell),
            (None, None) => return None,
        };
        if first.1 <= time { Some(first) } else { None }
    }

    // The side's period ends, and its QDP orders are swept at that time.
    fn end_period(&mut self, side: Side, end: u64)
        requires { CanFollow T.Tape self.old end (end_period_of (side, end)) }
        ensures { Follows T.Tape self.old self.new (end_period_of (side, end)) }
    {
        self.table.set_end(side, None);
        self.sweep_each(end, Round::PeriodEnded(side));
    }

    /// Every period that is due by the time has ended. A period that begins here ends an order, so two turns more than orders
    /// rest are enough.
    pub fn settle(&mut self, time: u64)
        requires { CanFollow T.Tape self.old time (settle_of time) }
        ensures follows { Follows T.Tape self.old self.new (settle_of time) }
        ensures nothing_due { NothingDueAt time (market_of T.Tape self.new) }
    {
        // counted as in the rule book, whose settling has so many turns
        let periods = self.table.len_resting() + 2;
        for _ in 0..periods {
            let Some((side, end)) = self.due(time) else {
                return;
            };
            self.end_period(side, end);
        }
    }
}
