//! The frame of a day file: its lines are counted, and its first command opens the book.
use crate::command::{BadLine, Command, Expected, read_command};
use terms::{Quote, Refusal};

/// What the first command opens the book with: the quote, or why it is refused, and how many lines its tape has room for.
#[derive(Clone, Copy, Drop)]
pub struct Opening {
    pub quote: Result<Quote, Refusal>,
    pub lines: usize,
}

/// How many lines have been read.
#[derive(Clone, Copy, PartialEq, Eq, Debug, Default, Drop)]
pub struct Frame {
    lines: u64,
}

impl Frame {
    ghost use Rattle.std.specs.Prelude.{min, ◌+◌, ◌≡◌};
    ghost use Rattle.day_file.specs.Frames.{lines_read};
    ghost use Rattle.day_file.specs.Numbers.{most};

    /// The number of the line that was read last; the first is 1.
    pub fn line(&self) -> u64
        ensures { result ≡ lines_read self.now }
    {
        self.lines
    }

    fn bad(&self, expected: Expected) -> BadLine {
        let number = self.lines;
        BadLine { number, expected }
    }

    // The command of the next line, where it has one.
    fn next<'a>(&mut self, line: &'a [u8]) -> Result<Option<Command<'a>>, BadLine>
        ensures { lines_read self.new ≡ min (lines_read self.old + 1) most }
    {
        self.lines = self.lines.saturating_add(1);
        read_command(line).map_err(|expected| self.bad(expected))
    }

    /// The next line while no book is open: where it has a command, it must open the book.
    pub fn opening(&mut self, line: &[u8]) -> Result<Option<Opening>, BadLine>
        ensures { lines_read self.new ≡ min (lines_read self.old + 1) most }
    {
        match self.next(line)? {
            None => Ok(None),
            Some(Command::Book { bid, offer, lines }) => Ok(Some(Opening {
                quote: Quote::new(bid, offer),
                lines: lines as usize,
            })),
            Some(_) => Err(self.bad(Expected::Book)),
        }
    }

    /// The next line while the book is open: it opens none, and the day ends at `close`.
    pub fn command<'a>(&mut self, line: &'a [u8]) -> Result<Option<Command<'a>>, BadLine>
        ensures { lines_read self.new ≡ min (lines_read self.old + 1) most }
    {
        match self.next(line)? {
            Some(Command::Book { .. }) => Err(self.bad(Expected::Book)),
            command => Ok(command),
        }
    }

    /// Reads a text up to the command that opens the book; None where there is none.
    pub fn open(&mut self, text: &[u8]) -> Result<Option<Opening>, BadLine> {
        for line in text.split(|byte| *byte == b'\n') {
            let opening = self.opening(line)?;
            if opening.is_some() {
                return Ok(opening);
            }
        }
        Ok(None)
    }
}
