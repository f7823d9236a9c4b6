// A margin rule by one meaning and one law.
ghost use Rattle.std.specs.Prelude.{◌≡◌};
ghost use Rattle.margin.specs.Rules.{Rule, Lawful};
ghost use Rattle.margin.specs.Limits.{FutureWithin, OptionWithin};

// The right that an option gives: to buy the future at the strike, or to sell it.
#[derive(Clone, Copy, PartialEq, Eq, Debug)]
pub enum Right {
    Call,
    Put,
}

// A lot of a future: its price in fen a unit, its units, and the futures rate in ten-thousandths.
// Its limits stand in the clauses below and are no ghost field: a listing is seen as a lot before they are known to hold.
#[derive(Clone, Copy)]
pub struct FutureLot {
    pub price: u32,
    pub units: u32,
    pub ratio: u32,
}

// A lot of an option on it: the right, the strike and the option's price, both in fen a unit.
#[derive(Clone, Copy)]
pub struct OptionLot {
    pub right: Right,
    pub strike: u32,
    pub price: u32,
}

// What a rule asks for is its meaning; it answers within the limits of its numbers, never refuses, and keeps itself.
pub trait MarginRule {
    ghost meaning: { Self → Rule };

    // the sum for a lot of a future, long or short
    fn future_sum(&self, future: FutureLot) -> u64
        requires { FutureWithin future }
        ensures { result ≡ (meaning self.now).future_sum future };

    // the sum for a short lot of an option on that future
    fn option_sum(&self, future: FutureLot, option: OptionLot) -> u64
        requires { (FutureWithin future) × (OptionWithin option) }
        ensures { result ≡ (meaning self.now).option_sum future option };

    ghost lawful: { (x : Self) → Lawful (meaning x) };
}
