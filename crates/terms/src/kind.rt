//! The five kinds of orders.
ghost use Rattle.std.specs.Fmt.{padded};
ghost use Rattle.std.specs.Prelude.{Some, ok_or, ◌≡◌};
ghost use Rattle.terms.specs.Codes.{kind_code, kind_from};
ghost use Rattle.terms.specs.Shown.{kind_words};
ghost use Rattle.terms.specs.Terms.{is_mdo as is_mdo_of};
ghost use Rattle.terms.specs.declared.refusal.Refusal.TheVariants.{UnknownCode};

use crate::refusal::Refusal;
use std::fmt;

/// MDO: midpoint discretionary order.
#[derive(Clone, Copy, PartialEq, Eq, Debug, Drop)]
pub enum Kind {
    DisplayedLimit = 1,
    HiddenLimit = 2,
    DisplayedMdo = 3,
    HiddenMdo = 4,
    MidpointPeg = 5,
}

impl TryFrom<u8> for Kind {
    type Error = Refusal;

    ghost try_from_gives = { λ code r. r ≡ ok_or (kind_from code) UnknownCode };

    fn try_from(code: u8) -> Result<Self, Refusal> {
        match code {
            1 => Ok(Kind::DisplayedLimit),
            2 => Ok(Kind::HiddenLimit),
            3 => Ok(Kind::DisplayedMdo),
            4 => Ok(Kind::HiddenMdo),
            5 => Ok(Kind::MidpointPeg),
            _ => Err(Refusal::UnknownCode),
        }
    }
}

impl From<Kind> for u8 {
    ghost from_gives = { λ kind code. code ≡ kind_code kind };

    fn from(kind: Kind) -> u8 {
        kind as u8
    }
}

impl Kind {
    pub fn is_mdo(self) -> bool
        ensures { result ≡ is_mdo_of self }
    {
        matches!(self, Kind::DisplayedMdo | Kind::HiddenMdo)
    }

    pub fn words(self) -> &'static str
        ensures { result.now ≡ kind_words self }
    {
        match self {
            Kind::DisplayedLimit => "displayed limit",
            Kind::HiddenLimit => "hidden limit",
            Kind::DisplayedMdo => "displayed MDO",
            Kind::HiddenMdo => "hidden MDO",
            Kind::MidpointPeg => "midpoint peg",
        }
    }
}

impl fmt::Display for Kind {
    ghost output = { λ kind. Some (kind_words kind) };

    ghost styled_output = { λ kind spec. Some (padded spec (kind_words kind)) };

    fn fmt<W: fmt::Write>(&self, f: &mut fmt::Formatter<W>) -> fmt::Result {
        f.pad(self.words())
    }
}
