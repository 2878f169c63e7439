//! Who goes first: the keys by which partners are chosen and a side is ranked.
ghost use Rattle.std.specs.Prelude.{◌≡◌};
ghost use Rattle.rules.specs.Laws.{BestPartner, OneAnswer, OneRanking};
ghost use Rattle.rules.specs.Priority.{away_class, class_of, goes_first};
ghost use Rattle.rules.specs.Codes.{class_number};
ghost use Rattle.rules.specs.Questions.{index_of};

use terms::{Kind, Side};

/// At one price the lower class trades first. Away: the order trades away from its ranked price.
#[derive(Clone, Copy, PartialEq, Eq, PartialOrd, Ord, Debug, Drop)]
pub enum Class {
    Displayed = 1,
    Hidden = 2,
    Midpoint = 3,
    Away = 4,
}

/// The three keys of an order, the price in half-cents.
#[derive(Clone, Copy, PartialEq, Eq, Debug, Drop)]
pub struct Keys {
    pub price: u32,
    pub class: Class,
    pub number: u32,
}

/// An order's class at its ranked price.
pub fn class_of(kind: Kind) -> Class
    ensures { class_number result ≡ class_of kind }
{
    match kind {
        Kind::DisplayedLimit | Kind::DisplayedMdo => Class::Displayed,
        Kind::HiddenLimit | Kind::HiddenMdo => Class::Hidden,
        Kind::MidpointPeg => Class::Midpoint,
    }
}

/// The class of a partner that trades away from its ranked price, the last of all. No partner goes ahead of the chosen one.
pub fn no_partner_goes_ahead() -> Class
    ensures class { class_number result ≡ away_class }
    ensures best { BestPartner }
{
    Class::Away
}

/// Where in the side's one ranking the order at a place stands; places begin with 1.
pub fn one_ranking(place: usize) -> Option<usize>
    ensures index { result ≡ index_of place }
    ensures one { OneRanking }
    ensures answer { OneAnswer }
{
    place.checked_sub(1)
}

// The rule's number of a class.
impl From<Class> for u8 {
    ghost from_gives = { λ class number. number ≡ class_number class };

    fn from(class: Class) -> u8 {
        class as u8
    }
}

impl Keys {
    /// Whether an order of the side with these keys goes before one with the other keys.
    pub fn goes_first(self, side: Side, other: Keys) -> bool
        ensures { result ≡ goes_first side self.price (class_number self.class) self.number other.price (class_number other.class) other.number }
    {
        if self.price != other.price {
            return match side {
                Side::Buy => self.price > other.price,
                Side::Sell => self.price < other.price,
            };
        }
        (self.class, self.number) < (other.class, other.number)
    }
}
