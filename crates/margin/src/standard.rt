// The standard rule: counted exactly in parts of which 20,000 make a fen, and rounded up once.
ghost use Rattle.std.specs.Prelude.{◌≡◌, ◌*◌, ◌^◌, ◌≤◌};
ghost use Rattle.margin.specs.Limits.{FutureWithin, OptionWithin};
ghost use Rattle.margin.specs.Standard.{half_parts, out_by, option_parts, standard};
ghost use Rattle.margin.specs.Laws.{standard_lawful};

use crate::lots::lot_price;
use crate::rule::{FutureLot, MarginRule, OptionLot, Right};

// Parts that make a fen.
const PARTS: u64 = 20_000;

#[derive(Clone, Copy)]
pub struct Standard;

// Half of F, in parts; F is the future's sum.
fn half_of_future(future: FutureLot) -> u64
    requires { FutureWithin future }
    ensures parts { result ≡ half_parts future }
    ensures most { result ≤ 10 ^ 15 }
{
    lot_price(future.price, future.units) * u64::from(future.ratio)
}

// How far the strike is out of the money, in fen a unit.
fn out_of_money(right: Right, strike: u32, price: u32) -> u32
    requires { (strike ≤ 99999999) × (price ≤ 99999999) }
    ensures fen { result ≡ out_by right strike price }
    ensures most { result ≤ 99999999 }
{
    match right {
        Right::Call => strike.saturating_sub(price),
        Right::Put => price.saturating_sub(strike),
    }
}

// The larger of price + F - O / 2 and price + F / 2, in parts; O is the out-of-the-money sum.
fn exact_option_sum(future: FutureLot, option: OptionLot) -> u64
    requires { (FutureWithin future) × (OptionWithin option) }
    ensures parts { result ≡ option_parts future option }
    ensures most { result ≤ 4 * 10 ^ 15 }
{
    let price = PARTS * lot_price(option.price, future.units);
    let half = half_of_future(future);
    let out_by = out_of_money(option.right, option.strike, future.price);
    let half_of_out = PARTS / 2 * lot_price(out_by, future.units);
    (price + 2 * half)
        .saturating_sub(half_of_out)
        .max(price + half)
}

impl MarginRule for Standard {
    ghost meaning = { λ _. standard };

    ghost lawful = { λ x. standard_lawful };

    fn future_sum(&self, future: FutureLot) -> u64 {
        (2 * half_of_future(future)).div_ceil(PARTS)
    }

    fn option_sum(&self, future: FutureLot, option: OptionLot) -> u64 {
        exact_option_sum(future, option).div_ceil(PARTS)
    }
}
