ghost use Rattle.std.specs.Prelude.{◌≡◌};
ghost use Rattle.terms.specs.PerSide.{of_side, with_side};

use crate::side::Side;

/// A value for each side of the market.
#[derive(Clone, Copy, PartialEq, Eq, Debug, Drop)]
pub struct PerSide<T> {
    pub buy: T,
    pub sell: T,
}

impl<T> PerSide<T> {
    pub fn get(&self, side: Side) -> &T
        ensures { result.now ≡ of_side side self.now }
    {
        match side {
            Side::Buy => &self.buy,
            Side::Sell => &self.sell,
        }
    }
}

impl<T: Drop> PerSide<T> {
    pub fn set(&mut self, side: Side, value: T)
        ensures { self.new ≡ with_side side value self.old }
    {
        match side {
            Side::Buy => self.buy = value,
            Side::Sell => self.sell = value,
        }
    }
}
