//! A whole register.
ghost use Rattle.std.specs.Prelude.{Some, ◌≡◌};
ghost use Rattle.book_register.specs.Faults.{load_fault_layer, load_fault_number, load_fault_place, load_fault_text, load_fault_words, slip_of};
ghost use Rattle.book_register.specs.Loaded.{Attempted, LoadedInto};
ghost use Rattle.book_register.specs.declared.load.LoadFault.TheVariants.{Register};
ghost use Rattle.register.specs.Parts.{listed_of};

use book::Book;
use directory::Directory;
use register::{Fault, Listed, Reader, Report};
use roll::Roll;
use rules::Refusal;
use std::error::Error;
use std::fmt;
use tape::Tape;

/// A fault in numbers, as it is put on a roll and printed.
#[derive(Clone, Copy, PartialEq, Eq, Debug, Default, Drop)]
pub struct Slip {
    pub number: u8,
    pub layer: u8,
    pub place: usize,
}

/// A finished load: the orders entered, and the slips put.
#[derive(Clone, Copy, Default, PartialEq, Eq, Debug, Drop)]
pub struct Loaded {
    pub entered: usize,
    pub slips: usize,
}

/// Each fault holds its place, counted from 0: of the field's first byte, or of the order's.
#[derive(Clone, Copy, PartialEq, Eq, Debug, Drop)]
pub enum LoadFault {
    /// of the register itself: a field, an order or a ticket
    Register(Fault),
    /// a slip is due for the order, and there is no free place for it
    SlipsFull(usize),
    /// the book refuses the order
    Book(Refusal, usize),
}

impl From<Fault> for LoadFault {
    ghost from_gives = { λ e load_fault. load_fault ≡ Register e };

    fn from(fault: Fault) -> LoadFault {
        LoadFault::Register(fault)
    }
}

/// Enters the orders of a register one by one, all at the time. An order whose ticket or entry is refused leaves a slip, and
/// the load goes on; it stops at any other fault, and where a slip finds no place. What was entered before stays.
pub fn load_register<D: Directory, T: Tape>(
    book: &mut Book<D, T>,
    time: u64,
    register: &[u8],
    slips: &mut Roll<'_, Slip>,
) -> Result<Loaded, LoadFault>
    ensures { LoadedInto book.old book.new slips.old slips.new time register.now result }
{
    let mut loaded = Loaded::default();
    for next in Reader::new(register) {
        let order = next?;
        match load_order(book, time, &order) {
            Ok(()) => loaded.entered += 1,
            Err(fault) => {
                let place = order.place;
                slips
                    .push(fault.slip())
                    .map_err(|_| LoadFault::SlipsFull(place))?;
                loaded.slips += 1;
            }
        }
    }
    Ok(loaded)
}

/// Enters the order at the time.
pub(crate) fn load_order<D: Directory, T: Tape>(
    book: &mut Book<D, T>,
    time: u64,
    order: &Listed<'_>,
) -> Result<(), LoadFault>
    ensures { Attempted book.old book.new time order.now.place (listed_of order.now) result }
{
    let ticket = order.ticket()?;
    let place = order.place;
    book.enter(time, order.identifier.bytes, ticket)
        .map_err(|rejected| LoadFault::Book(rejected.why, place))?;
    Ok(())
}

impl LoadFault {
    pub fn report(self) -> Report
        ensures number { result.number ≡ load_fault_number self }
        ensures layer { result.layer ≡ load_fault_layer self }
        ensures place { result.place ≡ load_fault_place self }
        ensures words { result.words.now ≡ load_fault_words self }
    {
        match self {
            LoadFault::Register(fault) => fault.report(),
            LoadFault::SlipsFull(place) => Report {
                number: 16,
                layer: 2,
                place,
                words: "no place for a slip",
            },
            LoadFault::Book(why, place) => Report {
                number: why.number(),
                layer: 4,
                place,
                words: why.words(),
            },
        }
    }

    pub fn number(self) -> u8
        ensures { result ≡ load_fault_number self }
    {
        self.report().number
    }

    pub fn slip(self) -> Slip
        ensures { result ≡ slip_of self }
    {
        let report = self.report();
        Slip {
            number: report.number,
            layer: report.layer,
            place: report.place,
        }
    }
}

impl fmt::Display for LoadFault {
    ghost output = { λ e. Some (load_fault_text e) };

    fn fmt<W: fmt::Write>(&self, f: &mut fmt::Formatter<W>) -> fmt::Result {
        self.report().fmt(f)
    }
}

impl Error for LoadFault {}
