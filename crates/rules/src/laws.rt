//! Each function here carries a law on its contract; nothing calls them.
ghost use Rattle.std.specs.Prelude.{nat_le, nat_lt, ◌≡◌};
ghost use Rattle.rules.specs.Finished.{NothingDue};
ghost use Rattle.rules.specs.Growth.{TapeOnlyGrows};
ghost use Rattle.rules.specs.Laws.{EntriesCounted, NeverCrossed, NumberedInTurn, NumbersAscend, OrdersWithinPlaces, ReasonsHold, SettlesAtOnce, SharesRemain, TapeExplainsDiscretion, TicksChangeOnlyTheClock};
ghost use Rattle.rules.specs.Limits.{fewest_left, last_moment, most_entries, most_resting, protection_period, round_lot};
ghost use Rattle.rules.specs.Trades.{LinesTellTrades};

use crate::limits::{
    FEWEST_LEFT, LAST_MOMENT, MOST_ENTRIES, MOST_RESTING, PROTECTION_PERIOD, ROUND_LOT,
};

/// The last moment of the day; until then it does not matter when the book is ticked.
pub fn ticks_change_only_the_clock() -> u64
    ensures day { result ≡ last_moment }
    ensures ticks { TicksChangeOnlyTheClock }
{
    LAST_MOMENT
}

/// The time to settle to in place of two times, one after the other.
pub fn settles_at_once(earlier: u64, later: u64) -> u64
    ensures { SettlesAtOnce earlier later result }
{
    earlier.max(later)
}

/// How long a side is protected after a depletion; the tape tells which orders that restrains, and why.
pub fn tape_explains_discretion() -> u64
    ensures period { result ≡ protection_period }
    ensures discretion { TapeExplainsDiscretion }
    ensures reasons { ReasonsHold }
{
    PROTECTION_PERIOD
}

/// Whether a period that ends then still runs at the clock. After every call none is left that has come to its end.
pub fn nothing_is_due(end: u64, clock: u64) -> bool
    ensures runs { result ≡ nat_lt clock end }
    ensures due { NothingDue }
{
    clock < end
}

/// Whether a buy and a sell that reach so far can rest together.
pub fn never_crossed(buy_reach: u32, sell_reach: u32) -> bool
    ensures apart { result ≡ nat_lt buy_reach sell_reach }
    ensures never { NeverCrossed }
{
    buy_reach < sell_reach
}

/// Whether so many free lines are enough for a call that finds so many orders resting. No call takes a line back, and none writes
/// more lines than orders rested.
pub fn lines_within_orders(resting: usize, free: usize) -> bool
    ensures enough { result ≡ nat_le resting free }
    ensures grows { TapeOnlyGrows }
{
    resting <= free
}

/// Whether so few shares displayed at a side's best price deplete it. Each line of a tape tells a trade of a taker with its next
/// partner, and is marked where the trade depletes.
pub fn lines_tell_trades(displayed: u64) -> bool
    ensures depletes { result ≡ nat_lt displayed round_lot }
    ensures trades { LinesTellTrades }
{
    displayed < u64::from(ROUND_LOT)
}

/// The highest entry number. Accepted entries have the numbers from 1 on, without a gap, and stand in the book in that order.
pub fn entries_are_numbered() -> u32
    ensures most { result ≡ most_entries }
    ensures counted { EntriesCounted }
    ensures turn { NumberedInTurn }
    ensures ascend { NumbersAscend }
{
    MOST_ENTRIES
}

/// How many orders can rest.
pub fn orders_within_places() -> usize
    ensures most { result ≡ most_resting }
    ensures within { OrdersWithinPlaces }
{
    MOST_RESTING
}

/// The fewest shares that a resting order has left.
pub fn shares_remain() -> u32
    ensures fewest { result ≡ fewest_left }
    ensures remain { SharesRemain }
{
    FEWEST_LEFT
}
