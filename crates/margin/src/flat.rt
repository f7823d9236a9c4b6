// The flat rule: one sum for every lot.
ghost use Rattle.std.specs.Prelude.{◌≡◌, ◌^◌, ◌<◌, ◌≤◌, Ok, Err};
ghost use Rattle.margin.specs.Flat.{flat};
ghost use Rattle.margin.specs.Making.{Returned};
ghost use Rattle.margin.specs.Laws.{flat_lawful};

use crate::lots::lot_price;
use crate::rule::{FutureLot, MarginRule, OptionLot};
use crate::unmade::{Unmade, at_most};

// The largest flat sum, in fen.
const MOST_SUM: u64 = 100_000_000_000;

// The sum for a future, and for an option above its price × units.
#[derive(Drop)]
pub struct Flat {
    sum: u64,
    ghost within: { sum ≤ 10 ^ 11 },
}

impl Flat {
    // A sum above 10^11 fen is refused.
    pub fn new(sum: u64) -> Result<Flat, Unmade<u64>>
        ensures { elim result [ Ok made ↦ (sum ≤ 10 ^ 11) × (made.sum ≡ sum) | Err unmade ↦ (10 ^ 11 < sum) × Returned sum unmade ] }
    {
        let sum = at_most(sum, MOST_SUM, sum)?;
        Ok(Flat { sum })
    }
}

impl MarginRule for Flat {
    ghost meaning = { λ x. flat x.sum };

    ghost lawful = { λ x. flat_lawful x.sum x.within };

    fn future_sum(&self, _future: FutureLot) -> u64 {
        self.sum
    }

    fn option_sum(&self, future: FutureLot, option: OptionLot) -> u64 {
        lot_price(option.price, future.units) + self.sum
    }
}
