//! How far the orders of each side reach at most, so that a taker whose price not even that meets needs no scan.
ghost use Rattle.std.specs.Prelude.{◌≡◌};
ghost use Rattle.market.specs.Reaches.{AllWithin, far_at, ranked_at, widened_by};

use crate::table::Row;
use terms::{PerSide, Quote, Side, ranked_price, reach};

/// Where no order stands.
pub(crate) const NOWHERE: PerSide<u32> = PerSide {
    buy: 0,
    sell: u32::MAX,
};

/// The bounds, with one row more.
pub(crate) fn widen(farthest: PerSide<u32>, row: &Row, quote: Quote) -> PerSide<u32>
    ensures { result ≡ widened_by row.now.terms.side (ranked_at quote row.now) (far_at quote row.now) farthest }
{
    let ranked = ranked_price(row.terms, quote);
    let far = reach(row.terms, false, quote);
    match row.terms.side {
        Side::Buy => PerSide {
            buy: farthest.buy.max(ranked).max(far),
            sell: farthest.sell,
        },
        Side::Sell => PerSide {
            buy: farthest.buy,
            sell: farthest.sell.min(ranked).min(far),
        },
    }
}

/// The bounds of the rows at a quote.
pub(crate) fn farthest_of(rows: &[Row], quote: Quote) -> PerSide<u32>
    ensures { AllWithin quote result rows.now }
{
    let mut farthest = NOWHERE;
    for row in rows {
        farthest = widen(farthest, row, quote);
    }
    farthest
}
