// An add-on above another rule, itself a rule.
ghost use Rattle.std.specs.Prelude.{◌≡◌, ◌^◌, ◌<◌, ◌≤◌, Ok, Err};
ghost use Rattle.margin.specs.AddOn.{raised, added};
ghost use Rattle.margin.specs.Making.{Returned};
ghost use Rattle.margin.specs.Laws.{added_lawful};

use crate::rule::{FutureLot, MarginRule, OptionLot};
use crate::unmade::{Unmade, at_most};

// Ten-thousandths that make a whole, and the largest addition.
const WHOLE: u64 = 10_000;

// The largest sum, in fen.
const CAP: u64 = 1_000_000_000_000;

// An addition, in ten-thousandths, to the sums of the rule below.
#[derive(Drop)]
pub struct AddOn<R> {
    addition: u64,
    ghost within: { addition ≤ 10000 },
    rule: R,
}

impl<R: MarginRule> AddOn<R> {
    // An addition above 10,000 is refused.
    pub fn new(addition: u64, rule: R) -> Result<AddOn<R>, Unmade<(u64, R)>>
        ensures { elim result [ Ok made ↦ (addition ≤ 10000) × (made.addition ≡ addition) × (made.rule ≡ rule) | Err unmade ↦ (10000 < addition) × Returned (addition, rule) unmade ] }
    {
        let (addition, rule) = at_most(addition, WHOLE, (addition, rule))?;
        Ok(AddOn { addition, rule })
    }

    // A sum of the rule below and its addition, rounded up and capped.
    fn raise(&self, sum: u64) -> u64
        requires { sum ≤ 10 ^ 12 }
        ensures { result ≡ raised self.now.addition sum }
    {
        let exact = sum * (WHOLE + self.addition);
        exact.div_ceil(WHOLE).min(CAP)
    }
}

impl<R: MarginRule> MarginRule for AddOn<R> {
    ghost meaning = { λ x. added x.addition (R.MarginRule.meaning x.rule) };

    ghost lawful = { λ x. added_lawful x.addition (R.MarginRule.meaning x.rule) (R.MarginRule.lawful x.rule) };

    fn future_sum(&self, future: FutureLot) -> u64 {
        self.raise(self.rule.future_sum(future))
    }

    fn option_sum(&self, future: FutureLot, option: OptionLot) -> u64 {
        self.raise(self.rule.option_sum(future, option))
    }
}
