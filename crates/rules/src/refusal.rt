//! Why a call of the book is refused, and what that leaves.
ghost use Rattle.std.specs.Fmt.{padded};
ghost use Rattle.std.specs.Prelude.{Some, ◌≡◌};
ghost use Rattle.rules.specs.Laws.{after_clock, RefusalLeaves};
ghost use Rattle.rules.specs.Codes.{refusal_number};
ghost use Rattle.rules.specs.Words.{refusal_words};

use std::error::Error;
use std::fmt;

/// Of these the first that holds is told.
#[derive(Clone, Copy, PartialEq, Eq, PartialOrd, Ord, Debug, Drop)]
pub enum Refusal {
    Identifier = 7,
    Time = 8,
    TapeShort = 9,
    NameTaken = 10,
    BookFull = 11,
    EntriesSpent = 12,
    NoSuchOrder = 13,
}

impl Refusal {
    /// The number that it is told by, 7 to 13.
    pub fn number(self) -> u8
        ensures { result ≡ refusal_number self }
    {
        self as u8
    }

    /// Static, since the report of a fault keeps these words.
    pub fn words(self) -> &'static str
        ensures { result.now ≡ refusal_words self }
    {
        match self {
            Refusal::Identifier => "identifier not lawful",
            Refusal::Time => "time not of the day, or before the clock",
            Refusal::TapeShort => "too few free lines on the tape",
            Refusal::NameTaken => "identifier already rests",
            Refusal::BookFull => "book full",
            Refusal::EntriesSpent => "entries spent",
            Refusal::NoSuchOrder => "no such order",
        }
    }

    /// Whether the clock is at the call's time by then: the book is left as a tick leaves it, or else as it was.
    pub fn moves_clock(self) -> bool
        ensures told { result ≡ after_clock self }
        ensures leaves { RefusalLeaves self result }
    {
        self > Refusal::TapeShort
    }
}

impl fmt::Display for Refusal {
    ghost output = { λ why. Some (refusal_words why) };

    ghost styled_output = { λ why spec. Some (padded spec (refusal_words why)) };

    fn fmt<W: fmt::Write>(&self, f: &mut fmt::Formatter<W>) -> fmt::Result {
        f.pad(self.words())
    }
}

impl Error for Refusal {}
