//! Why there is no ticket or no quote.
ghost use Rattle.std.specs.Fmt.{padded};
ghost use Rattle.std.specs.Prelude.{Some, ◌≡◌};
ghost use Rattle.terms.specs.Codes.{refusal_number};
ghost use Rattle.terms.specs.Shown.{refusal_words};

use std::error::Error;
use std::fmt;

/// Why a ticket or a quote is refused, each with its number.
#[derive(Clone, Copy, PartialEq, Eq, Debug, Drop)]
pub enum Refusal {
    UnknownCode = 1,
    Shares = 2,
    Limit = 3,
    Offset = 4,
    Combination = 5,
    Quote = 6,
}

impl Refusal {
    pub fn number(self) -> u8
        ensures { result ≡ refusal_number self }
    {
        self as u8
    }

    /// Static, since the report of a fault keeps these words.
    pub fn words(self) -> &'static str
        ensures { result.now ≡ refusal_words self }
    {
        match self {
            Refusal::UnknownCode => "no such code",
            Refusal::Shares => "shares out of range",
            Refusal::Limit => "limit out of range",
            Refusal::Offset => "offset out of range",
            Refusal::Combination => "parts do not go together",
            Refusal::Quote => "quote not lawful",
        }
    }
}

impl fmt::Display for Refusal {
    ghost output = { λ why. Some (refusal_words why) };

    ghost styled_output = { λ why spec. Some (padded spec (refusal_words why)) };

    fn fmt<W: fmt::Write>(&self, f: &mut fmt::Formatter<W>) -> fmt::Result {
        f.pad(self.words())
    }
}

impl Error for Refusal {}
