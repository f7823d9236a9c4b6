// What each call of the session brings besides its slip, which is shown and not written: fields of any value, in the order in which refusals rank them from 1.
use kinds::terms::Style;
use margin::rule::Right;

#[derive(Clone, Copy, PartialEq, Eq, Debug)]
pub struct Deposit {
    pub account: u64,
    pub amount: u64,
}

// The fields of a deposit, but a type of its own, so that neither can be handed in for the other.
#[derive(Clone, Copy, PartialEq, Eq, Debug)]
pub struct Withdrawal {
    pub account: u64,
    pub amount: u64,
}

#[derive(Clone, Copy, PartialEq, Eq, Debug)]
pub struct FutureListing {
    pub number: u64,
    pub units: u64,
    pub tick: u64,
    pub ratio: u64,
    pub price: u64,
}

#[derive(Clone, Copy, PartialEq, Eq, Debug)]
pub struct OptionListing {
    pub number: u64,
    pub future: u64,
    pub right: Right,
    pub style: Style,
    pub strike: u64,
    pub tick: u64,
    pub last_day: u64,
    pub price: u64,
}

// Any call of the session.
#[derive(Clone, Copy, PartialEq, Eq, Debug)]
pub enum Order {
    Deposit(Deposit),
    Withdraw(Withdrawal),
    ListFuture(FutureListing),
    ListOption(OptionListing),
}
