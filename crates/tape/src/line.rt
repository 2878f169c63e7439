ghost use Rattle.std.specs.Prelude.{◌≡◌};
ghost use Rattle.tape.specs.Layout.{mark_code, mark_of};

/// Whether the trade depleted a side's best displayed price.
#[derive(Clone, Copy, PartialEq, Eq, Debug, Default, Drop)]
pub enum Mark {
    #[default]
    Nothing = 0,
    BidDepleted = 1,
    OfferDepleted = 2,
}

/// One trade, as the tape keeps it. Time is microseconds since midnight; partner and taker are entry numbers; the price is in half-cents.
#[derive(Clone, Copy, PartialEq, Eq, Debug, Default, Drop)]
pub struct Line {
    pub time: u64,
    pub partner: u32,
    pub taker: u32,
    pub shares: u32,
    pub price: u32,
    pub mark: Mark,
}

// The byte of a mark.
impl From<Mark> for u8 {
    ghost from_gives = { λ mark code. code ≡ mark_code mark };

    fn from(mark: Mark) -> u8 {
        mark as u8
    }
}

// Every other byte is read as no mark.
impl From<u8> for Mark {
    ghost from_gives = { λ code mark. mark ≡ mark_of code };

    fn from(code: u8) -> Mark {
        match code {
            1 => Mark::BidDepleted,
            2 => Mark::OfferDepleted,
            _ => Mark::Nothing,
        }
    }
}
