use crate::line::{Words, as_offset, as_u8, as_u32, as_u64, whole};
use std::error::Error;
use std::fmt;
use terms::Draft;

/// Prices are whole cents, times microseconds; nothing is judged yet but that numbers are numbers.
#[derive(Clone, Copy, Drop)]
pub enum Command<'a> {
    Book {
        bid: u32,
        offer: u32,
        lines: u64,
    },
    Entry {
        time: u64,
        id: &'a [u8],
        draft: Draft,
    },
    Cancel {
        time: u64,
        id: &'a [u8],
    },
    Quote {
        time: u64,
        bid: u32,
        offer: u32,
    },
    Tick {
        time: u64,
    },
    Ask {
        side: u8,
        place: u64,
    },
    Why {
        id: &'a [u8],
    },
    Load {
        time: u64,
        file: &'a [u8],
    },
    Write {
        file: &'a [u8],
    },
    Close,
}

/// A line that is none, and the form that it should have had.
#[derive(Clone, Copy, PartialEq, Eq, Debug, Drop)]
pub struct BadLine {
    pub number: u64,
    pub expected: Expected,
}

/// The form that a line should have had.
#[derive(Clone, Copy, PartialEq, Eq, Debug, Drop)]
pub enum Expected {
    Command,
    Book,
    Entry,
    Cancel,
    Quote,
    Tick,
    Ask,
    Why,
    Load,
    Write,
    Close,
}

/// None for an empty line and for one whose first word begins with #.
pub fn read_command<'a>(line: &'a [u8]) -> Result<Option<Command<'a>>, Expected> {
    let mut words = Words::new(line);
    let Some(name) = words.next() else {
        return Ok(None);
    };
    if name.starts_with(b"#") {
        return Ok(None);
    }
    let form = Expected::named(name);
    words.command(form).map(Some).ok_or(form)
}

impl fmt::Display for Expected {
    fn fmt<W: fmt::Write>(&self, f: &mut fmt::Formatter<W>) -> fmt::Result {
        let form = match self {
            Expected::Command => "book, entry, cancel, quote, tick, ask, why, load, write or close",
            Expected::Book => "book BID OFFER LINES, once, before all else",
            Expected::Entry => "entry TIME ID SIDE KIND TIF QDP SHARES LIMIT OFFSET",
            Expected::Cancel => "cancel TIME ID",
            Expected::Quote => "quote TIME BID OFFER",
            Expected::Tick => "tick TIME",
            Expected::Ask => "ask SIDE PLACE",
            Expected::Why => "why ID",
            Expected::Load => "load TIME FILE",
            Expected::Write => "write FILE",
            Expected::Close => "close",
        };
        write!(f, "expected {form}")
    }
}

impl fmt::Display for BadLine {
    fn fmt<W: fmt::Write>(&self, f: &mut fmt::Formatter<W>) -> fmt::Result {
        let BadLine { number, expected } = *self;
        write!(f, "line {number}: {expected}")
    }
}

impl Error for BadLine {}

impl Expected {
    // The form of the command of that name.
    fn named(name: &[u8]) -> Expected {
        match name {
            b"book" => Expected::Book,
            b"entry" => Expected::Entry,
            b"cancel" => Expected::Cancel,
            b"quote" => Expected::Quote,
            b"tick" => Expected::Tick,
            b"ask" => Expected::Ask,
            b"why" => Expected::Why,
            b"load" => Expected::Load,
            b"write" => Expected::Write,
            b"close" => Expected::Close,
            _ => Expected::Command,
        }
    }
}

impl<'a> Words<'a> {
    fn number(&mut self) -> Option<i128> {
        whole(self.next()?)
    }

    fn draft(&mut self) -> Option<Draft> {
        Some(Draft {
            side: as_u8(self.number()?),
            kind: as_u8(self.number()?),
            time_in_force: as_u8(self.number()?),
            qdp: as_u8(self.number()?),
            shares: as_u32(self.number()?),
            limit: as_u32(self.number()?),
            offset: as_offset(self.number()?),
        })
    }

    fn entry(&mut self) -> Option<Command<'a>> {
        let time = as_u64(self.number()?);
        let id = self.next()?;
        let draft = self.draft()?;
        Some(Command::Entry { time, id, draft })
    }

    fn cancel(&mut self) -> Option<Command<'a>> {
        let time = as_u64(self.number()?);
        let id = self.next()?;
        Some(Command::Cancel { time, id })
    }

    fn quote(&mut self) -> Option<Command<'a>> {
        let time = as_u64(self.number()?);
        let bid = as_u32(self.number()?);
        let offer = as_u32(self.number()?);
        Some(Command::Quote { time, bid, offer })
    }

    fn book(&mut self) -> Option<Command<'a>> {
        let bid = as_u32(self.number()?);
        let offer = as_u32(self.number()?);
        let lines = as_u64(self.number()?);
        Some(Command::Book { bid, offer, lines })
    }

    fn load(&mut self) -> Option<Command<'a>> {
        let time = as_u64(self.number()?);
        let file = self.next()?;
        Some(Command::Load { time, file })
    }

    fn tick(&mut self) -> Option<Command<'a>> {
        let time = as_u64(self.number()?);
        Some(Command::Tick { time })
    }

    fn ask(&mut self) -> Option<Command<'a>> {
        let side = as_u8(self.number()?);
        let place = as_u64(self.number()?);
        Some(Command::Ask { side, place })
    }

    fn why(&mut self) -> Option<Command<'a>> {
        let id = self.next()?;
        Some(Command::Why { id })
    }

    fn write(&mut self) -> Option<Command<'a>> {
        let file = self.next()?;
        Some(Command::Write { file })
    }

    // What follows a command's name; nothing may be left over.
    fn command(&mut self, form: Expected) -> Option<Command<'a>> {
        let command = match form {
            Expected::Command => None,
            Expected::Book => self.book(),
            Expected::Entry => self.entry(),
            Expected::Cancel => self.cancel(),
            Expected::Quote => self.quote(),
            Expected::Tick => self.tick(),
            Expected::Ask => self.ask(),
            Expected::Why => self.why(),
            Expected::Load => self.load(),
            Expected::Write => self.write(),
            Expected::Close => Some(Command::Close),
        };
        command.filter(|_| self.next().is_none())
    }
}
