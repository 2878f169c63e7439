ghost use Rattle.std.specs.Option.{unwrap_or};
ghost use Rattle.std.specs.Prelude.{◌≡◌};
ghost use Rattle.market.specs.Markets.{market_of};
ghost use Rattle.market.specs.Meant.{protection_of, why_as};
ghost use Rattle.market.specs.Rows.{row_order};
ghost use Rattle.rules.specs.Questions.{latest_mark as latest_mark_of, why as why_of};

use crate::market::Market;
use crate::table::Row;
use crate::trade::mark_of;
use tape::Tape;
use terms::Side;

/// Why an order reaches as far as it does; where several hold, the first of these is told.
#[derive(Clone, Copy, PartialEq, Eq, Debug, Drop)]
pub enum Why {
    NoMdo,
    AtLimit,
    AtMidpoint,
    /// by the line at that place of the tape, oldest 1, and until that time, in microseconds since midnight
    Protected { line: usize, until: u64 },
    Discretion,
}

// The place of the latest line with the side's mark; the rule book tells 0 where none has it. The search goes back from the
// newest line, since a period that runs began with one of the last.
fn latest_mark<T: Tape>(tape: &T, side: Side) -> Option<usize>
    ensures { unwrap_or result 0 ≡ latest_mark_of side (T.Tape.lines tape.now) }
{
    (1..=tape.len()).rev().find(|place| {
        tape.read(*place)
            .is_some_and(|line| line.mark == mark_of(side))
    })
}

// What is told of an order with QDP that ranks neither at its limit nor at the midpoint.
fn protection<T: Tape>(market: &Market<T>, row: &Row) -> Why
    ensures { why_as result ≡ protection_of (row_order row.now) (market_of T.Tape market.now) }
{
    match market.table.end(row.terms.side) {
        Some(until) => Why::Protected {
            line: latest_mark(&market.tape, row.terms.side).unwrap_or(0),
            until,
        },
        None => Why::Discretion,
    }
}

/// Why the order reaches as far as it does.
pub fn explain<T: Tape>(market: &Market<T>, row: &Row) -> Why
    ensures { why_as result ≡ why_of (market_of T.Tape market.now) (row_order row.now) }
{
    if !row.terms.kind.is_mdo() {
        return Why::NoMdo;
    }
    let ranked = market.table.ranked(row);
    let quote = market.table.quote();
    if ranked == 2 * row.terms.limit {
        return Why::AtLimit;
    }
    if ranked == quote.bid + quote.offer {
        return Why::AtMidpoint;
    }
    if !row.terms.qdp {
        return Why::Discretion;
    }
    protection(market, row)
}
