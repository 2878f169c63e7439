ghost use Rattle.std.specs.Option.{option_map};
ghost use Rattle.std.specs.Prelude.{◌≡◌};
ghost use Rattle.market.specs.Rows.{row_order};
ghost use Rattle.market.specs.Seen.{orders_of, seen};
ghost use Rattle.rules.specs.Codes.{class_number};
ghost use Rattle.rules.specs.Priority.{ahead as ahead_of, is_partner as is_partner_of, line_class as line_class_of, line_price as line_price_of, next_partner as next_partner_of, partner_for as partner_for_of};
ghost use Rattle.terms.specs.Sides.{meets as meets_of, opposite as opposite_of, outranks as outranks_of};

use crate::table::{Row, Table};
use rules::{Class, Keys, class_of};
use terms::Side;

pub(crate) fn opposite(side: Side) -> Side
    ensures { result ≡ opposite_of side }
{
    match side {
        Side::Buy => Side::Sell,
        Side::Sell => Side::Buy,
    }
}

/// An order of the side at price p meets or passes q.
pub(crate) fn meets(side: Side, p: u32, q: u32) -> bool
    ensures { result ≡ meets_of side p q }
{
    match side {
        Side::Buy => q <= p,
        Side::Sell => p <= q,
    }
}

/// For an order of the side, p is a better price to be ranked at than q.
pub(crate) fn outranks(side: Side, p: u32, q: u32) -> bool
    ensures { result ≡ outranks_of side p q }
{
    !meets(side, q, p)
}

impl Table {
    // An order of the side whose reach meets or passes the taker's price.
    fn is_partner(&self, side: Side, price: u32, row: &Row) -> bool
        ensures { result ≡ is_partner_of (seen self.now) side price (row_order row.now) }
    {
        row.terms.side == side && meets(side, self.reach(row), price)
    }

    /// The row's ranked price where it meets the taker's, else the taker's.
    pub(crate) fn line_price(&self, price: u32, row: &Row) -> u32
        ensures { result ≡ line_price_of (seen self.now) price (row_order row.now) }
    {
        let ranked = self.ranked(row);
        if meets(row.terms.side, ranked, price) {
            ranked
        } else {
            price
        }
    }

    fn line_class(&self, price: u32, row: &Row) -> Class
        ensures { class_number result ≡ line_class_of (seen self.now) price (row_order row.now) }
    {
        if self.line_price(price, row) == self.ranked(row) {
            class_of(row.terms.kind)
        } else {
            Class::Away
        }
    }

    // The keys by which a row is chosen.
    fn keys(&self, price: u32, row: &Row) -> Keys
        ensures price { result.price ≡ line_price_of (seen self.now) price (row_order row.now) }
        ensures class { class_number result.class ≡ line_class_of (seen self.now) price (row_order row.now) }
        ensures number { result.number ≡ row.now.number }
    {
        Keys {
            price: self.line_price(price, row),
            class: self.line_class(price, row),
            number: row.number,
        }
    }

    // For a taker at the price, one row trades before another.
    fn ahead(&self, side: Side, price: u32, row: &Row, other: &Row) -> bool
        ensures { result ≡ ahead_of (seen self.now) side price (row_order row.now) (row_order other.now) }
    {
        self.keys(price, row)
            .goes_first(side, self.keys(price, other))
    }

    /// The next partner of the side for a taker at the price.
    pub(crate) fn next_partner(&self, side: Side, price: u32) -> Option<Row>
        ensures { option_map row_order result ≡ next_partner_of (seen self.now) side price (orders_of self.now) }
    {
        if !meets(side, *self.farthest.get(side), price) {
            return None;
        }
        self.rows
            .iter()
            .filter(|row| row.rests() && self.is_partner(side, price, row))
            .reduce(|best, row| if self.ahead(side, price, row, best) {
                row
            } else {
                best
            })
            .copied()
    }

    /// The next partner for a taker at the price.
    pub(crate) fn partner_for(&self, taker: &Row, price: u32) -> Option<Row>
        ensures { option_map row_order result ≡ partner_for_of (row_order taker.now) price (seen self.now) }
    {
        self.next_partner(opposite(taker.terms.side), price)
    }
}
