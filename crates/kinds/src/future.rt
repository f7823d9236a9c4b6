// Futures: both sides bear the margin rate, and gains and losses are paid as the carried price moves.
ghost use Rattle.std.specs.Prelude.{◌≡◌};
ghost use Rattle.kinds.specs.Kinds.{moved, future};
ghost use Rattle.kinds.specs.Moves.{future_lawful};

use crate::kind::ContractKind;
use crate::rate::at_rate;
use crate::terms::{FutureTerms, Holding};

#[derive(Clone, Copy)]
pub struct Future;

// What a move of the price is worth on a lot.
fn moved(units: u32, from: u32, to: u32) -> i128
    ensures { result ≡ moved units from to }
{
    (i128::from(to) - i128::from(from)) * i128::from(units)
}

impl ContractKind for Future {
    type Terms = FutureTerms;

    ghost meaning = { future };

    ghost lawful = { future_lawful };

    fn tick(terms: FutureTerms) -> u32 {
        terms.tick
    }

    fn lot_units(terms: FutureTerms, _units: u32) -> u32 {
        terms.units
    }

    fn entry(units: u32, price: u32, carried: u32) -> i128 {
        moved(units, price, carried)
    }

    fn mark(units: u32, from: u32, to: u32) -> i128 {
        moved(units, from, to)
    }

    fn margin(rate: u64, holding: Holding) -> u128 {
        at_rate(u64::from(holding.long) + u64::from(holding.short), rate)
    }
}
