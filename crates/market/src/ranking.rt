ghost use Rattle.std.specs.Option.{option_map};
ghost use Rattle.std.specs.Prelude.{List, ◌&&◌, ◌≡◌};
ghost use Rattle.market.specs.Meant.{standing_as};
ghost use Rattle.market.specs.Ranks.{NextRanked, comes_after as comes_after_of};
ghost use Rattle.market.specs.Rows.{rests, row_order};
ghost use Rattle.market.specs.Seen.{market_with, orders_of, seen};
ghost use Rattle.rules.specs.Market.{ranked_in};
ghost use Rattle.rules.specs.Priority.{class_of};
ghost use Rattle.rules.specs.Codes.{class_number};
ghost use Rattle.rules.specs.Questions.{Answered, at_place, ranking_of, ranks_before as ranks_before_of};
ghost use Rattle.tape.specs.declared.line.Line.{Line};

use crate::table::{Row, Table, rests_on};
use rules::{Keys, class_of};
use terms::Side;

/// One side of a table, as it is ranked.
#[derive(Clone, Copy, Drop)]
pub(crate) struct Ranking<'a> {
    pub(crate) table: &'a Table,
    pub(crate) side: Side,
}

/// An order at its place in rank: its entry number, the prices at which it ranks and up to which it trades, in half-cents,
/// and the shares left of it.
#[derive(Clone, Copy, PartialEq, Eq, Debug, Drop)]
pub struct Standing {
    pub number: u32,
    pub ranked: u32,
    pub reach: u32,
    pub left: u32,
}

/// The side is told by its code, 1 buy and 2 sell, and the best ranked order stands at place 1. None for any other code, and
/// for place 0 or one past the last.
pub fn ask(table: &Table, code: u8, place: usize) -> Option<Standing>
    ensures { (lines : List Line) → Answered (market_with lines table.now) code place (option_map standing_as result) }
{
    let side = Side::try_from(code).ok()?;
    let row = Ranking { table, side }.at(place)?;
    Some(Standing {
        number: row.number,
        ranked: table.ranked(&row),
        reach: table.reach(&row),
        left: row.left,
    })
}

impl Ranking<'_> {
    // The keys by which a row is ranked.
    fn keys(&self, row: &Row) -> Keys
        ensures price { result.price ≡ ranked_in (seen self.now.table.now) (row_order row.now) }
        ensures class { class_number result.class ≡ class_of row.now.terms.kind }
        ensures number { result.number ≡ row.now.number }
    {
        Keys {
            price: self.table.ranked(row),
            class: class_of(row.terms.kind),
            number: row.number,
        }
    }

    fn ranks_before(&self, row: &Row, other: &Row) -> bool
        ensures { result ≡ ranks_before_of (seen self.now.table.now) self.now.side (row_order row.now) (row_order other.now) }
    {
        self.keys(row).goes_first(self.side, self.keys(other))
    }

    // The row rests on the side, and is ranked after the one that is told, if any is.
    fn comes_after(&self, told: Option<Row>, row: &Row) -> bool
        ensures { result ≡ (rests row.now && comes_after_of (seen self.now.table.now) self.now.side (option_map row_order told) (row_order row.now)) }
    {
        if !rests_on(row, self.side) {
            return false;
        }
        match told {
            Some(other) => self.ranks_before(&other, row),
            None => true,
        }
    }

    // The row that is ranked next after the one that is told; the best ranked of the side, where none is told.
    fn next_after(&self, told: Option<Row>) -> Option<Row>
        ensures { NextRanked (seen self.now.table.now) self.now.side (option_map row_order told) (orders_of self.now.table.now) (option_map row_order result) }
    {
        self.table
            .rows()
            .iter()
            .filter(|row| self.comes_after(told, row))
            .reduce(|best, row| if self.ranks_before(row, best) {
                row
            } else {
                best
            })
            .copied()
    }

    /// The row at a place, the best ranked at 1. Ends where no row is next, however high the place.
    pub(crate) fn at(&self, place: usize) -> Option<Row>
        ensures { option_map row_order result ≡ at_place place (ranking_of (seen self.now.table.now) self.now.side (orders_of self.now.table.now)) }
    {
        let mut row = None;
        // each is found from the one that is ranked before it
        for _ in 0..place {
            let next = self.next_after(row)?;
            row = Some(next);
        }
        row
    }
}
