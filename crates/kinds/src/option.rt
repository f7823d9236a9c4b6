// Options: the buyer pays the premium to the seller at once, and only the seller bears the margin rate.
ghost use Rattle.std.specs.Prelude.{◌≡◌};
ghost use Rattle.kinds.specs.Kinds.{paid, option};
ghost use Rattle.kinds.specs.Moves.{option_lawful};

use crate::kind::{ContractKind, OptionKind};
use crate::rate::at_rate;
use crate::right::{CallRight, PutRight, RightKind};
use crate::terms::{Holding, OptionTerms};
use margin::rule::Right;
use std::marker::PhantomData;

// An option that gives the right R.
#[derive(Clone, Copy)]
pub struct OptionContract<R>(PhantomData<R>);

// The two kinds of options.
pub type CallOption = OptionContract<CallRight>;

pub type PutOption = OptionContract<PutRight>;

// Each is a value too, as `Future` is.
pub const CallOption: CallOption = OptionContract(PhantomData);

pub const PutOption: PutOption = OptionContract(PhantomData);

// What the buyer of a lot gets: he pays its price.
fn premium(units: u32, price: u32) -> i128
    ensures { result ≡ paid units price }
{
    -(i128::from(price) * i128::from(units))
}

impl<R: RightKind> ContractKind for OptionContract<R> {
    type Terms = OptionTerms;

    ghost meaning = { option };

    ghost lawful = { option_lawful };

    fn tick(terms: OptionTerms) -> u32 {
        terms.tick
    }

    fn lot_units(_terms: OptionTerms, units: u32) -> u32 {
        units
    }

    fn entry(units: u32, price: u32, _carried: u32) -> i128 {
        premium(units, price)
    }

    fn mark(_units: u32, _from: u32, _to: u32) -> i128 {
        0
    }

    fn margin(rate: u64, holding: Holding) -> u128 {
        at_rate(u64::from(holding.short), rate)
    }
}

impl<R: RightKind> OptionKind for OptionContract<R> {
    ghost given = { R.given };

    fn right() -> Right {
        R::right()
    }
}
