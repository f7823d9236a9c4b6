// The margin rules at their limits.
ghost use Rattle.std.specs.Prelude.{◌≡◌, IfOk, Ok};

use margin::add_on::AddOn;
use margin::flat::Flat;
use margin::rule::{FutureLot, MarginRule, OptionLot, Right};
use margin::standard::Standard;
use refusals::Refusal;
use std::test::Fail;

const FUTURE: FutureLot = FutureLot {
    price: 2_000_000,
    units: 5,
    ratio: 1_000,
};

const CALL: OptionLot = OptionLot {
    right: Right::Call,
    strike: 2_100_000,
    price: 30_000,
};

const LARGEST_FUTURE: FutureLot = FutureLot {
    price: 99_999_999,
    units: 1_000,
    ratio: 10_000,
};

const LARGEST_CALL: OptionLot = OptionLot {
    right: Right::Call,
    strike: 99_999_999,
    price: 99_999_999,
};

fn made<T, E: Drop>(res: Result<T, E>) -> Result<T, Fail>
    ensures { IfOk result (λ value. res ≡ Ok value) }
{
    res.map_err(|_| Fail::new("not made"))
}

#[test]
fn standard(rt: HostRuntime) {
    let far = OptionLot {
        strike: 2_400_000,
        ..CALL
    };
    let put = OptionLot {
        right: Right::Put,
        strike: 2_100_000,
        price: 105_000,
    };
    assert!(rt; Standard.option_sum(FUTURE, CALL) == 900_000);
    assert!(rt; Standard.option_sum(FUTURE, far) == 650_000);
    assert!(rt; Standard.option_sum(FUTURE, put) == 1_525_000);
}

#[test]
fn rounded_once(rt: HostRuntime) {
    let future = FutureLot {
        price: 12,
        units: 1,
        ratio: 1_000,
    };
    let call = OptionLot {
        right: Right::Call,
        strike: 13,
        price: 1,
    };
    assert!(rt; Standard.future_sum(future) == 2);
    assert!(rt; Standard.option_sum(future, call) == 2);
}

#[test]
fn standard_at_the_largest(rt: HostRuntime) {
    assert!(rt; Standard.future_sum(LARGEST_FUTURE) == 99_999_999_000);
    assert!(rt; Standard.option_sum(LARGEST_FUTURE, LARGEST_CALL) == 199_999_998_000);
}

#[test]
fn flat_at_its_limit(rt: HostRuntime) -> Result<(), Fail> {
    let flat = made(Flat::new(100_000_000_000))?;
    assert!(rt; flat.future_sum(FUTURE) == 100_000_000_000);
    assert!(rt; flat.option_sum(FUTURE, CALL) == 100_000_150_000);
    Ok(())
}

#[test]
fn flat_above_its_limit(rt: HostRuntime) -> Result<(), Fail> {
    match Flat::new(100_000_000_001) {
        Ok(_) => Err(Fail::new("made above the limit")),
        Err(unmade) => {
            assert!(rt;
                unmade.refusal == Refusal::OutOfLimits(1) && unmade.given == 100_000_000_001
            );
            Ok(())
        },
    }
}

#[test]
fn add_on_at_its_limit(rt: HostRuntime) -> Result<(), Fail> {
    let twice = made(AddOn::new(10_000, Standard))?;
    assert!(rt; twice.option_sum(FUTURE, CALL) == 1_800_000);
    Ok(())
}

#[test]
fn add_on_above_its_limit(rt: HostRuntime) -> Result<(), Fail> {
    match AddOn::new(10_001, made(Flat::new(7))?) {
        Ok(_) => Err(Fail::new("made above the limit")),
        Err(unmade) => {
            let (addition, flat) = unmade.given;
            assert!(rt; unmade.refusal == Refusal::OutOfLimits(1) && addition == 10_001);
            assert!(rt; flat.future_sum(FUTURE) == 7);
            Ok(())
        }
    }
}

#[test]
fn add_ons_nest(rt: HostRuntime) -> Result<(), Fail> {
    let quarter = made(AddOn::new(2_500, Standard))?;
    assert!(rt; quarter.option_sum(FUTURE, CALL) == 1_125_000);
    let nested = made(AddOn::new(1, quarter))?;
    assert!(rt; nested.option_sum(FUTURE, CALL) == 1_125_113);
    Ok(())
}

#[test]
fn capped(rt: HostRuntime) -> Result<(), Fail> {
    let flat = made(Flat::new(100_000_000_000))?;
    let twice = made(AddOn::new(10_000, flat))?;
    let four_times = made(AddOn::new(10_000, twice))?;
    let capped = made(AddOn::new(10_000, four_times))?;
    assert!(rt; capped.future_sum(LARGEST_FUTURE) == 800_000_000_000);
    assert!(rt; capped.option_sum(LARGEST_FUTURE, LARGEST_CALL) == 1_000_000_000_000);
    Ok(())
}
