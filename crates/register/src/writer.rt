//! A writer over a buffer that its maker lends it.
ghost use Rattle.std.specs.Prelude.{List, Some, [], ◌++◌, ◌-◌, ◌∷◌, ◌≡◌};
ghost use Rattle.register.specs.Filling.{fresh, order_fits, room, whole_orders, with_order};
ghost use Rattle.register.specs.Layout.{Listed, codes_of};
ghost use Rattle.register.specs.Numbers.{signed_bytes};
ghost use Rattle.register.specs.Orders.{draft_of, order_of};
ghost use Rattle.register.specs.Refusal.{done_if, no_room_layer, no_room_number, no_room_text, no_room_words};
ghost use Rattle.register.specs.RoundTrip.{Holds, ListsATicket};
ghost use Rattle.register.specs.Writers.{lender, page_of};
ghost use Rattle.terms.specs.Made.{terms_of};

use crate::begun::{Begun, Fill};
use crate::fault::Report;
use crate::field::{CODES, IDENTIFIER, LIMIT, OFFSET, SHARES};
use std::error::Error;
use std::fmt;
use terms::Terms;

/// A field does not fit; `place` is where its order would begin, counted from 0.
#[derive(Clone, Copy, PartialEq, Eq, Debug, Drop)]
pub struct NoRoom {
    pub place: usize,
}

#[derive(Drop)]
pub struct Writer<'a> {
    buffer: &'a mut [u8],
    fill: Fill,
}

// That the buffer is still the lender's own is said of each call, since a type speaks of one moment only.
impl<'a> Writer<'a> {
    /// Nothing is written yet; what the buffer held counts for nothing.
    pub fn new(buffer: &'a mut [u8]) -> Writer<'a>
        ensures page { page_of result ≡ fresh buffer.old }
        ensures lent { lender result ≡ buffer.entry.ghost_name }
        ensures reads_back { Holds (page_of result) [] }
    {
        Writer {
            buffer,
            fill: Fill { mark: 0 },
        }
    }

    /// How many bytes are written.
    pub fn mark(&self) -> usize
        ensures { result ≡ (page_of self.now).mark }
    {
        self.fill.mark
    }

    /// Writes an order with the shares that are left. Where a field does not fit whole, nothing counts as written.
    pub fn write_order(&mut self, identifier: &[u8], terms: &Terms, left: u32) -> Result<(), NoRoom>
        ensures page { page_of self.new ≡ with_order (page_of self.old) (order_of identifier.now (terms_of terms.now) left) }
        ensures outcome { result ≡ done_if (order_fits (room (page_of self.old)) (order_of identifier.now (terms_of terms.now) left)) (page_of self.old).mark }
        ensures lent { lender self.new ≡ lender self.old }
        ensures reads_back { (orders : List Listed) → Holds (page_of self.old) orders → Holds (page_of self.new) (orders ++ whole_orders (room (page_of self.old)) (order_of identifier.now (terms_of terms.now) left ∷ [])) }
        ensures ticket { ListsATicket (terms_of terms.now) left }
    {
        let buffer = &mut *self.buffer;
        let mut begun = Begun::new(buffer, &mut self.fill);
        begun.put(IDENTIFIER, identifier)?;
        begun.put(CODES, &codes(terms))?;
        begun.put(SHARES, &left.to_be_bytes())?;
        begun.put(LIMIT, &terms.limit.to_be_bytes())?;
        if terms.offset != 0 {
            begun.put(OFFSET, &offset_bytes(terms))?;
        }
        begun.finish();
        Ok(())
    }
}

/// Side, kind, time in force and QDP, one byte each.
pub(crate) fn codes(terms: &Terms) -> [u8; 4]
    ensures { result ≡ codes_of (draft_of (terms_of terms.now) terms.now.shares) }
{
    [
        u8::from(terms.side),
        u8::from(terms.kind),
        u8::from(terms.time_in_force),
        u8::from(terms.qdp),
    ]
}

/// The offset in two's complement.
pub(crate) fn offset_bytes(terms: &Terms) -> [u8; 2]
    ensures { result ≡ signed_bytes terms.now.offset }
{
    (terms.offset as i16).to_be_bytes()
}

impl NoRoom {
    pub fn report(self) -> Report
        ensures number { result.number ≡ no_room_number }
        ensures layer { result.layer ≡ no_room_layer }
        ensures place { result.place ≡ self.place }
        ensures words { result.words.now ≡ no_room_words }
    {
        Report {
            number: 16,
            layer: 2,
            place: self.place,
            words: "no room for the order",
        }
    }

    pub fn number(self) -> u8
        ensures { result ≡ no_room_number }
    {
        self.report().number
    }
}

impl fmt::Display for NoRoom {
    ghost output = { λ e. Some (no_room_text e) };

    fn fmt<W: fmt::Write>(&self, f: &mut fmt::Formatter<W>) -> fmt::Result {
        self.report().fmt(f)
    }
}

impl Error for NoRoom {}
