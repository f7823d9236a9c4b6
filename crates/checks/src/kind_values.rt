// Kinds of contract, named by values.
use kinds::future::Future;
use kinds::kind::{ContractKind, OptionKind};
use kinds::option::{CallOption, PutOption};
use kinds::terms::Holding;
use margin::rule::Right;

// The margin of a long lot and two short ones, at 5 fen a lot.
fn margin_of<K: ContractKind + Copy>(_kind: K) -> u128 {
    K::margin(5, Holding { long: 1, short: 2 })
}

fn right_of<K: OptionKind + Copy>(_kind: K) -> Right {
    K::right()
}

#[test]
fn kinds_are_values(rt: HostRuntime) {
    assert_eq!(rt; margin_of(Future), 15);
    assert_eq!(rt; margin_of(CallOption), 10);
    assert_eq!(rt; margin_of(PutOption), 10);
    assert_eq!(rt; right_of(CallOption), Right::Call);
    assert_eq!(rt; right_of(PutOption), Right::Put);
}
