// What is printed.
use kinds::terms::Holding;
use ledger::questions::{Position, Quote};
use ledger::records::Stage;
use margin::flat::Flat;
use refusals::{Layer, Refusal};
use script::reading::Fault;
use std::fmt::Display;
use std::test::Fail;
use words::unreadable::Unreadable;

fn text<V: Display + Drop>(rt: &HostRuntime, value: V) -> Result<String, Fail> {
    Ok(value.to_string(rt.alloc())?)
}

#[test]
fn texts(rt: HostRuntime) -> Result<(), Fail> {
    let lots = Holding { long: 3, short: 0 };
    let position = Position {
        long: 3,
        short: 0,
        free: 2,
    };
    let quote = Quote { price: 5, rate: 70 };
    assert_eq!(rt; text(&rt, Layer::Funds)?.as_str(), "funds");
    assert_eq!(rt;
        text(&rt, Refusal::BeyondHolding(7))?.as_str(),
        "refused 6 holding 7"
    );
    assert_eq!(rt; text(&rt, lots)?.as_str(), "long 3 short 0");
    assert_eq!(rt; text(&rt, position)?.as_str(), "long 3 short 0 free 2");
    assert_eq!(rt; text(&rt, quote)?.as_str(), "price 5 rate 70");
    assert_eq!(rt; text(&rt, Stage::Cut)?.as_str(), "cut");
    let fault = Fault {
        line: 2,
        why: Unreadable::ExtraWord,
    };
    assert_eq!(rt;
        text(&rt, fault)?.as_str(),
        "line 2: unreadable: a word too many"
    );
    Ok(())
}

fn rule(sum: u64) -> Result<Flat, Refusal> {
    Ok(Flat::new(sum)?)
}

#[test]
fn a_rule_refused(rt: HostRuntime) {
    assert!(rt; matches!(rule(100_000_000_001), Err(Refusal::OutOfLimits(1))));
    assert!(rt; rule(100_000_000_000).is_ok());
}
