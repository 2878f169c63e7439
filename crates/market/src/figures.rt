ghost use Rattle.std.specs.Prelude.{List, ◌≡◌};
ghost use Rattle.market.specs.Meant.{figures_as};
ghost use Rattle.market.specs.Seen.{market_with, orders_of};
ghost use Rattle.rules.specs.Questions.{closing, count_on, shares_on};
ghost use Rattle.tape.specs.declared.line.Line.{Line};

use crate::table::{Table, rests_on, shares_on};
use terms::{PerSide, Side};

/// The orders that rest on one side, and their shares.
#[derive(Clone, Copy, PartialEq, Eq, Debug, Drop)]
pub struct Tally {
    pub orders: u64,
    pub shares: u64,
}

/// The figures at the close.
pub type Figures = PerSide<Tally>;

pub fn figures_of(table: &Table) -> Figures
    ensures { (lines : List Line) → figures_as result ≡ closing (market_with lines table.now) }
{
    PerSide {
        buy: Tally::of(table, Side::Buy),
        sell: Tally::of(table, Side::Sell),
    }
}

impl Tally {
    // No more rows stand than `MOST_ROWS`, so the sum fits.
    fn of(table: &Table, side: Side) -> Tally
        ensures orders { result.orders ≡ count_on side (orders_of table.now) }
        ensures shares { result.shares ≡ shares_on side (orders_of table.now) }
    {
        let rows = table.rows();
        Tally {
            orders: rows.iter().filter(|row| rests_on(row, side)).count() as u64,
            shares: rows.iter().map(|row| u64::from(shares_on(row, side))).sum(),
        }
    }
}
