//! What is wrong in a register, and how it is told.
ghost use Rattle.std.specs.Prelude.{Some, ◌≡◌};
ghost use Rattle.register.specs.Faults.{fault_layer, fault_number, fault_place, fault_text, fault_words};
ghost use Rattle.register.specs.Reports.{report_text};

use std::error::Error;
use std::fmt;
use terms::{Refusal, Ticket};

/// Each fault holds its place, counted from 0: of the field's first byte, or of the order's.
#[derive(Clone, Copy, PartialEq, Eq, Debug, Drop)]
pub enum Fault {
    /// the register ends before a field does: the place where the field begins
    CutShort(usize),
    /// a tag, a length or a short name is wrong, or a written offset is 0: the order's place
    Malformed(usize),
    /// the order's ticket is refused: the order's place
    Ticket(Refusal, usize),
}

/// What is told of a fault: number, layer (1 field, 2 order, 3 ticket, 4 book), place and words.
#[derive(Clone, Copy, Drop)]
pub struct Report {
    pub number: u8,
    pub layer: u8,
    pub place: usize,
    pub words: &'static str,
}

impl Fault {
    pub fn report(self) -> Report
        ensures number { result.number ≡ fault_number self }
        ensures layer { result.layer ≡ fault_layer self }
        ensures place { result.place ≡ fault_place self }
        ensures words { result.words.now ≡ fault_words self }
    {
        match self {
            Fault::CutShort(place) => Report {
                number: 14,
                layer: 1,
                place,
                words: "field cut short",
            },
            Fault::Malformed(place) => Report {
                number: 15,
                layer: 2,
                place,
                words: "order malformed",
            },
            Fault::Ticket(refusal, place) => Report {
                number: refusal.number(),
                layer: 3,
                place,
                words: refusal.words(),
            },
        }
    }

    pub fn number(self) -> u8
        ensures { result ≡ fault_number self }
    {
        self.report().number
    }
}

impl fmt::Display for Fault {
    ghost output = { λ e. Some (fault_text e) };

    fn fmt<W: fmt::Write>(&self, f: &mut fmt::Formatter<W>) -> fmt::Result {
        self.report().fmt(f)
    }
}

impl Error for Fault {}

impl fmt::Display for Report {
    ghost output = { λ r. Some (report_text r) };

    fn fmt<W: fmt::Write>(&self, f: &mut fmt::Formatter<W>) -> fmt::Result {
        let Report {
            number,
            layer,
            place,
            words,
        } = *self;
        write!(f, "{number} (layer {layer}, at {place}): {words}")
    }
}
