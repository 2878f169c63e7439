ghost use Rattle.std.specs.Prelude.{ok_or, ◌≡◌};
ghost use Rattle.terms.specs.Codes.{time_in_force_code, time_in_force_from};
ghost use Rattle.terms.specs.declared.refusal.Refusal.TheVariants.{UnknownCode};

use crate::refusal::Refusal;

/// How long an order stays.
#[derive(Clone, Copy, PartialEq, Eq, Debug, Drop)]
pub enum TimeInForce {
    Rest = 1,
    ImmediateOrCancel = 2,
}

impl TryFrom<u8> for TimeInForce {
    type Error = Refusal;

    ghost try_from_gives = { λ code r. r ≡ ok_or (time_in_force_from code) UnknownCode };

    fn try_from(code: u8) -> Result<Self, Refusal> {
        match code {
            1 => Ok(TimeInForce::Rest),
            2 => Ok(TimeInForce::ImmediateOrCancel),
            _ => Err(Refusal::UnknownCode),
        }
    }
}

impl From<TimeInForce> for u8 {
    ghost from_gives = { λ time_in_force code. code ≡ time_in_force_code time_in_force };

    fn from(time_in_force: TimeInForce) -> u8 {
        time_in_force as u8
    }
}
