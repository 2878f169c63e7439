//! A desk: a book, and how many of its trades have been told.
use crate::command::Command;
use crate::output::{Output, Refused};
use book::{Book, OpenRefusal};
use book_register::{LoadFault, Loaded, Slip, load_register, write_book};
use directory::Directory;
use register::NoRoom;
use roll::Roll;
use std::alloc::{AllocError, Global};
use tape::Tape;
use terms::{Draft, Quote, Ticket};

/// How many slips a load has places for.
pub const SLIP_PLACES: usize = 64;

#[derive(Drop)]
pub struct Desk<D: Directory, T: Tape> {
    pub(crate) book: Book<D, T>,
    pub(crate) told: usize,
}

fn tell_slips(slips: &Roll<'_, Slip>, out: &mut Output) -> Result<(), AllocError> {
    for slip in slips.as_slice() {
        out.slip("slip", *slip)?;
    }
    Ok(())
}

fn tell_end(ended: Result<Loaded, LoadFault>, out: &mut Output) -> Result<(), AllocError> {
    match ended {
        Ok(loaded) => out.line("loaded", &[loaded.entered as u64, loaded.slips as u64]),
        Err(fault) => out.slip("fault", fault.slip()),
    }
}

impl<D: Directory, T: Tape> Desk<D, T> {
    ghost use Rattle.book_register.specs.Written.{Written};
    ghost use Rattle.rules.specs.Calls.{cancel as cancel_of, tick as tick_of};
    ghost use Rattle.book.specs.Running.{after};
    ghost use Rattle.day_file.specs.Answered.{after_command, after_entry, after_quote};
    ghost use Rattle.day_file.specs.Desks.{after_load, book_of, running_of};
    ghost use Rattle.std.specs.Prelude.{◌≡◌};

    /// The trades that have come since they were last told.
    pub(crate) fn tell_trades(&mut self, out: &mut Output) -> Result<(), AllocError>
        ensures { running_of self.new ≡ running_of self.old }
    {
        for place in self.told.saturating_add(1)..=self.book.lines() {
            if let Some(line) = self.book.line(place) {
                out.trade(line)?;
            }
            self.told = place;
        }
        Ok(())
    }

    fn entry(&mut self, time: u64, id: &[u8], draft: Draft) -> Result<[u64; 3], Refused>
        ensures { running_of self.new ≡ after_entry (running_of self.old) time id.now draft }
    {
        let ticket = Ticket::new(draft)?;
        let (number, traded, lapsed) = self.book.enter(time, id, ticket)?;
        Ok([u64::from(number), u64::from(traded), u64::from(lapsed)])
    }

    fn cancel(&mut self, time: u64, id: &[u8]) -> Result<[u64; 1], Refused>
        ensures { running_of self.new ≡ after (running_of self.old) (cancel_of time id.now) }
    {
        let shares = self.book.cancel(time, id)?;
        Ok([u64::from(shares)])
    }

    fn quote(&mut self, time: u64, bid: u32, offer: u32) -> Result<[u64; 0], Refused>
        ensures { running_of self.new ≡ after_quote (running_of self.old) time bid offer }
    {
        let quote = Quote::new(bid, offer)?;
        self.book.quote(time, quote)?;
        Ok([])
    }

    fn tick(&mut self, time: u64) -> Result<[u64; 0], Refused>
        ensures { running_of self.new ≡ after (running_of self.old) (tick_of time) }
    {
        self.book.tick(time)?;
        Ok([])
    }

    /// Answers a command that asks for the book alone, with the trades that it made. None for any other, which programs treat each in
    /// its own way.
    pub fn answer(&mut self, command: &Command, out: &mut Output) -> Result<Option<()>, AllocError>
        ensures { running_of self.new ≡ after_command (running_of self.old) command.now }
    {
        match command {
            Command::Entry { time, id, draft } => {
                out.answer("entered", self.entry(*time, id, *draft))?
            }
            Command::Cancel { time, id } => out.answer("cancelled", self.cancel(*time, id))?,
            Command::Quote { time, bid, offer } => {
                out.answer("quoted", self.quote(*time, *bid, *offer))?
            }
            Command::Tick { time } => out.answer("ticked", self.tick(*time))?,
            Command::Ask { side, place } => out.standing(self.book.ask(*side, *place as usize))?,
            Command::Why { id } => out.explanation(self.book.why(id))?,
            _ => return Ok(None),
        }
        self.tell_trades(out)?;
        Ok(Some(()))
    }

    /// The slips, how the load ended, and the trades that it made.
    pub fn load(&mut self, time: u64, register: &[u8], out: &mut Output) -> Result<(), AllocError>
        ensures { book_of self.new ≡ after_load SLIP_PLACES (running_of self.old) time register.now }
    {
        let mut room = [Slip::default(); SLIP_PLACES];
        let mut slips = Roll::new(&mut room);
        let ended = load_register(&mut self.book, time, register, &mut slips);
        tell_slips(&slips, out)?;
        tell_end(ended, out)?;
        self.tell_trades(out)
    }

    /// Writes the resting orders into the buffer: how many bytes they take, or that they do not fit. Who puts them into a file tells it
    /// when they are there.
    pub fn write(&self, buffer: &mut [u8]) -> Result<usize, NoRoom>
        ensures { Written (book_of self.now) buffer.old buffer.new result }
    {
        write_book(&self.book, buffer)
    }
}

impl<D: Directory + Drop, T: Tape + Drop> Desk<D, T> {
    ghost use Rattle.std.specs.Prelude.{IfOk, ◌≡◌};
    ghost use Rattle.book.specs.Running.{new_on};
    ghost use Rattle.day_file.specs.Desks.{running_of};

    pub fn open(
        heap: Global,
        quote: Quote,
        directory: D,
        tape: T,
    ) -> Result<Desk<D, T>, OpenRefusal>
        ensures { IfOk result (λ desk. running_of desk ≡ new_on (T.Tape.free tape) quote.bid quote.offer) }
    {
        Book::open(heap, quote, directory, tape)
            .map(|book| Desk { book, told: 0 })
            .map_err(|not_opened| not_opened.why)
    }

    pub fn close(self, out: &mut Output) -> Result<(), AllocError> {
        let Desk { book, told: _ } = self;
        let closed = book.close();
        out.figures(closed.0)
    }
}
