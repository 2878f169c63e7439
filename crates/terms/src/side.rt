ghost use Rattle.std.specs.Fmt.{padded};
ghost use Rattle.std.specs.Prelude.{Some, ok_or, ◌≡◌};
ghost use Rattle.terms.specs.Codes.{side_code, side_from};
ghost use Rattle.terms.specs.Shown.{side_word};
ghost use Rattle.terms.specs.declared.refusal.Refusal.TheVariants.{UnknownCode};

use crate::refusal::Refusal;
use std::fmt;

/// Buy or sell.
#[derive(Clone, Copy, PartialEq, Eq, Debug, Drop)]
pub enum Side {
    Buy = 1,
    Sell = 2,
}

impl TryFrom<u8> for Side {
    type Error = Refusal;

    ghost try_from_gives = { λ code r. r ≡ ok_or (side_from code) UnknownCode };

    fn try_from(code: u8) -> Result<Self, Refusal> {
        match code {
            1 => Ok(Side::Buy),
            2 => Ok(Side::Sell),
            _ => Err(Refusal::UnknownCode),
        }
    }
}

impl From<Side> for u8 {
    ghost from_gives = { λ side code. code ≡ side_code side };

    fn from(side: Side) -> u8 {
        side as u8
    }
}

impl Side {
    pub fn word(self) -> &'static str
        ensures { result.now ≡ side_word self }
    {
        match self {
            Side::Buy => "buy",
            Side::Sell => "sell",
        }
    }
}

impl fmt::Display for Side {
    ghost output = { λ side. Some (side_word side) };

    ghost styled_output = { λ side spec. Some (padded spec (side_word side)) };

    fn fmt<W: fmt::Write>(&self, f: &mut fmt::Formatter<W>) -> fmt::Result {
        f.pad(self.word())
    }
}
