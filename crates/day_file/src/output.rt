//! What is answered, and why a command is refused.
ghost use Rattle.std.specs.Prelude.{◌≡◌};
ghost use Rattle.day_file.specs.Refusals.{number_of};

use book::{Explanation, Rejected};
use book_register::Slip;
use itoa::Buffer;
use market::{Figures, Standing, Why};
use rules::Refusal;
use std::alloc::{AllocError, Global};
use tape::Line;
use terms::Refusal as Unlawful;

/// Why a command is refused: by what it says, or by the book.
#[derive(Clone, Copy, PartialEq, Eq, Debug, Drop)]
pub(crate) enum Refused {
    Unlawful(Unlawful),
    Book(Refusal),
}

/// Text that answers are gathered in until it is printed.
#[derive(Drop)]
pub struct Output {
    bytes: Vec<u8>,
}

impl Output {
    ghost use Rattle.std.specs.Prelude.{IsTrue, OnOk, [], length, ◌++◌, ◌↔◌};
    ghost use Rattle.day_file.specs.Outputs.{line_text, number_text, numbers_text, text_of};

    pub fn new(heap: Global) -> Output
        ensures { text_of result ≡ [] }
    {
        Output {
            bytes: Vec::new(heap),
        }
    }

    pub fn as_bytes(&self) -> &[u8]
        ensures { result.now ≡ text_of self.now }
    {
        self.bytes.as_slice()
    }

    pub fn len(&self) -> usize
        ensures { result ≡ length (text_of self.now) }
    {
        self.bytes.len()
    }

    pub fn is_empty(&self) -> bool
        ensures { IsTrue result ↔ (text_of self.now ≡ []) }
    {
        self.bytes.is_empty()
    }

    pub fn clear(&mut self)
        ensures { text_of self.new ≡ [] }
    {
        self.bytes.clear();
    }

    pub fn append(&mut self, other: &Output) -> Result<(), AllocError>
        ensures { OnOk result (text_of self.new ≡ text_of self.old ++ text_of other.now) }
    {
        self.bytes.extend_from_slice(other.as_bytes())
    }

    // A blank and a number in the decimal system.
    fn number(&mut self, number: u64) -> Result<(), AllocError>
        ensures { OnOk result (text_of self.new ≡ text_of self.old ++ number_text number) }
    {
        let mut digits = Buffer::new();
        self.bytes.push(b' ')?;
        self.bytes
            .extend_from_slice(digits.format(number).as_bytes())
    }

    fn numbers(&mut self, numbers: &[u64]) -> Result<(), AllocError>
        ensures { OnOk result (text_of self.new ≡ text_of self.old ++ numbers_text numbers.now) }
    {
        for number in numbers {
            self.number(*number)?;
        }
        Ok(())
    }

    /// A line of a word and numbers.
    pub fn line(&mut self, word: &str, numbers: &[u64]) -> Result<(), AllocError>
        ensures { OnOk result (text_of self.new ≡ text_of self.old ++ line_text word.now numbers.now) }
    {
        self.bytes.extend_from_slice(word.as_bytes())?;
        self.numbers(numbers)?;
        self.bytes.extend_from_slice(b"\n")
    }

    pub(crate) fn refused(&mut self, number: u8) -> Result<(), AllocError> {
        self.line("refused", &[u64::from(number)])
    }

    /// Number, layer and place of a fault, after the word.
    pub(crate) fn slip(&mut self, word: &str, slip: Slip) -> Result<(), AllocError> {
        let number = u64::from(slip.number);
        let layer = u64::from(slip.layer);
        self.line(word, &[number, layer, slip.place as u64])
    }

    /// The word and the numbers of what was done, or the refusal.
    pub(crate) fn answer<const N: usize>(
        &mut self,
        word: &str,
        answer: Result<[u64; N], Refused>,
    ) -> Result<(), AllocError> {
        match answer {
            Ok(numbers) => self.line(word, &numbers),
            Err(why) => self.refused(why.number()),
        }
    }

    pub(crate) fn standing(&mut self, standing: Option<Standing>) -> Result<(), AllocError> {
        let Some(order) = standing else {
            return self.line("nothing", &[]);
        };
        let number = u64::from(order.number);
        let ranked = u64::from(order.ranked);
        let reach = u64::from(order.reach);
        let left = u64::from(order.left);
        self.line("place", &[number, ranked, reach, left])
    }

    pub(crate) fn explanation(
        &mut self,
        explanation: Option<Explanation>,
    ) -> Result<(), AllocError> {
        let Some(told) = explanation else {
            return self.line("nothing", &[]);
        };
        let ranked = u64::from(told.ranked);
        let reach = u64::from(told.reach);
        match told.why {
            Why::NoMdo => self.line("plain", &[ranked]),
            Why::AtLimit => self.line("at-limit", &[ranked]),
            Why::AtMidpoint => self.line("at-midpoint", &[ranked]),
            Why::Protected { line, until } => self.line("protected", &[ranked, line as u64, until]),
            Why::Discretion => self.line("discretion", &[ranked, reach]),
        }
    }

    pub(crate) fn trade(&mut self, line: Line) -> Result<(), AllocError> {
        let mark = u64::from(u8::from(line.mark));
        let partner = u64::from(line.partner);
        let taker = u64::from(line.taker);
        let shares = u64::from(line.shares);
        let price = u64::from(line.price);
        self.line("trade", &[line.time, partner, taker, shares, price, mark])
    }

    pub(crate) fn figures(&mut self, figures: Figures) -> Result<(), AllocError> {
        self.line(
            "closed",
            &[
                figures.buy.orders,
                figures.buy.shares,
                figures.sell.orders,
                figures.sell.shares,
            ],
        )
    }
}

impl Refused {
    pub(crate) fn number(self) -> u8
        ensures { result ≡ number_of self }
    {
        match self {
            Refused::Unlawful(why) => why.number(),
            Refused::Book(why) => why.number(),
        }
    }
}

impl From<Unlawful> for Refused {
    fn from(why: Unlawful) -> Refused {
        Refused::Unlawful(why)
    }
}

impl From<Refusal> for Refused {
    fn from(why: Refusal) -> Refused {
        Refused::Book(why)
    }
}

// The ticket that is handed back is let go.
impl From<Rejected> for Refused {
    fn from(rejected: Rejected) -> Refused {
        Refused::Book(rejected.why)
    }
}
