// Listings and the margin rates that they ask for.
ghost use Rattle.std.specs.Prelude.{◌≡◌};

use book::book::Book;
use book::slips::TradingSlip;
use kinds::terms::{Holding, Style};
use ledger::questions::{Position, Quote};
use margin::add_on::AddOn;
use margin::flat::Flat;
use margin::rule::{MarginRule, Right};
use margin::standard::Standard;
use refusals::Refusal;
use session::orders::{FutureListing, OptionListing};
use std::test::Fail;

const FUTURE: FutureListing = FutureListing {
    number: 0,
    units: 5,
    tick: 10,
    ratio: 1_000,
    price: 2_000_000,
};

const CALL: OptionListing = OptionListing {
    number: 4,
    future: 0,
    right: Right::Call,
    style: Style::American,
    strike: 2_100_000,
    tick: 5,
    last_day: 1,
    price: 30_000,
};

fn quote(price: u32, rate: u64) -> Quote
    ensures { result ≡ record { price = price; rate = rate } }
{
    Quote { price, rate }
}

#[test]
fn futures_at_their_limits(rt: HostRuntime) {
    let (mut book, slip) = Book::new(7, Standard);
    for (listing, answer) in [
        (
            FutureListing {
                number: 4,
                units: 0,
                ..FUTURE
            },
            Err(Refusal::NoSuch(4)),
        ),
        (
            FutureListing { units: 0, ..FUTURE },
            Err(Refusal::OutOfLimits(2)),
        ),
        (
            FutureListing {
                units: 1_001,
                ..FUTURE
            },
            Err(Refusal::OutOfLimits(2)),
        ),
        (
            FutureListing { tick: 0, ..FUTURE },
            Err(Refusal::OutOfLimits(3)),
        ),
        (
            FutureListing {
                tick: 100_001,
                ..FUTURE
            },
            Err(Refusal::OutOfLimits(3)),
        ),
        (
            FutureListing { ratio: 0, ..FUTURE },
            Err(Refusal::OutOfLimits(4)),
        ),
        (
            FutureListing {
                ratio: 10_001,
                ..FUTURE
            },
            Err(Refusal::OutOfLimits(4)),
        ),
        (
            FutureListing { price: 0, ..FUTURE },
            Err(Refusal::OutOfLimits(5)),
        ),
        (
            FutureListing {
                price: 2_000_001,
                ..FUTURE
            },
            Err(Refusal::OutOfLimits(5)),
        ),
        (
            FutureListing {
                tick: 1,
                price: 100_000_000,
                ..FUTURE
            },
            Err(Refusal::OutOfLimits(5)),
        ),
        (
            FutureListing {
                number: 3,
                units: 1_000,
                tick: 1,
                ratio: 10_000,
                price: 99_999_999,
            },
            Ok(()),
        ),
        (
            FutureListing {
                number: 2,
                units: 1,
                tick: 1,
                ratio: 1,
                price: 1,
            },
            Ok(()),
        ),
        (
            FutureListing {
                number: 1,
                tick: 100_000,
                ..FUTURE
            },
            Ok(()),
        ),
        (FUTURE, Ok(())),
        (FUTURE, Err(Refusal::Occupied(0))),
        (
            FutureListing { units: 0, ..FUTURE },
            Err(Refusal::OutOfLimits(2)),
        ),
    ] {
        assert_eq!(rt; book.list_future(&slip, listing), answer);
    }
    assert_eq!(rt; book.contract(3), Ok(quote(99_999_999, 99_999_999_000)));
    assert_eq!(rt; book.contract(2), Ok(quote(1, 1)));
    assert_eq!(rt; book.contract(0), Ok(quote(2_000_000, 1_000_000)));
}

// A book with future 0.
fn with_future<R: MarginRule + Drop>(rule: R) -> Result<(Book<R>, TradingSlip), Fail> {
    let (mut book, slip) = Book::new(7, rule);
    book.list_future(&slip, FUTURE)
        .map_err(|_| Fail::new("not listed"))?;
    Ok((book, slip))
}

#[test]
fn options_at_their_limits(rt: HostRuntime) -> Result<(), Fail> {
    let (mut book, slip) = with_future(Standard)?;
    for (listing, answer) in [
        (
            OptionListing {
                number: 3,
                future: 9,
                ..CALL
            },
            Err(Refusal::NoSuch(3)),
        ),
        (
            OptionListing { number: 20, ..CALL },
            Err(Refusal::NoSuch(20)),
        ),
        (
            OptionListing {
                future: 1,
                strike: 0,
                ..CALL
            },
            Err(Refusal::NoSuch(1)),
        ),
        (OptionListing { future: 4, ..CALL }, Err(Refusal::NoSuch(4))),
        (
            OptionListing { strike: 0, ..CALL },
            Err(Refusal::OutOfLimits(5)),
        ),
        (
            OptionListing {
                strike: 100_000_000,
                ..CALL
            },
            Err(Refusal::OutOfLimits(5)),
        ),
        (
            OptionListing { tick: 0, ..CALL },
            Err(Refusal::OutOfLimits(6)),
        ),
        (
            OptionListing {
                tick: 100_001,
                ..CALL
            },
            Err(Refusal::OutOfLimits(6)),
        ),
        (
            OptionListing {
                last_day: 0,
                ..CALL
            },
            Err(Refusal::OutOfLimits(7)),
        ),
        (
            OptionListing {
                last_day: 1_000_001,
                ..CALL
            },
            Err(Refusal::OutOfLimits(7)),
        ),
        (
            OptionListing { price: 0, ..CALL },
            Err(Refusal::OutOfLimits(8)),
        ),
        (
            OptionListing {
                price: 30_001,
                ..CALL
            },
            Err(Refusal::OutOfLimits(8)),
        ),
        (
            OptionListing {
                price: 100_000_000,
                ..CALL
            },
            Err(Refusal::OutOfLimits(8)),
        ),
        (CALL, Ok(())),
        (CALL, Err(Refusal::Occupied(4))),
        (
            OptionListing {
                last_day: 0,
                ..CALL
            },
            Err(Refusal::OutOfLimits(7)),
        ),
        (
            OptionListing {
                number: 19,
                strike: 2_400_001,
                last_day: 1_000_000,
                price: 30_005,
                ..CALL
            },
            Ok(()),
        ),
    ] {
        assert_eq!(rt; book.list_option(&slip, listing), answer);
    }
    assert_eq!(rt; book.contract(4), Ok(quote(30_000, 900_000)));
    assert_eq!(rt; book.contract(5), Err(Refusal::NoSuch(5)));
    assert_eq!(rt; book.draw_lots(19), Ok(Holding { long: 0, short: 0 }));
    assert_eq!(rt; book.draw_lots(5), Err(Refusal::NoSuch(5)));
    Ok(())
}

#[test]
fn rates_under_every_rule(rt: HostRuntime) -> Result<(), Fail> {
    let put = OptionListing {
        number: 5,
        right: Right::Put,
        price: 105_000,
        ..CALL
    };
    let (mut standard, slip) = with_future(Standard)?;
    assert_eq!(rt; standard.list_option(&slip, put), Ok(()));
    assert_eq!(rt; standard.contract(5), Ok(quote(105_000, 1_525_000)));
    let flat = Flat::new(70).map_err(|_| Fail::new("no rule"))?;
    let (mut flat, slip) = with_future(flat)?;
    assert_eq!(rt; flat.list_option(&slip, put), Ok(()));
    assert_eq!(rt; flat.contract(0), Ok(quote(2_000_000, 70)));
    assert_eq!(rt; flat.contract(5), Ok(quote(105_000, 525_070)));
    let add_on = AddOn::new(2_500, Standard).map_err(|_| Fail::new("no rule"))?;
    let (mut add_on, slip) = with_future(add_on)?;
    assert_eq!(rt; add_on.list_option(&slip, CALL), Ok(()));
    assert_eq!(rt; add_on.contract(0), Ok(quote(2_000_000, 1_250_000)));
    assert_eq!(rt; add_on.contract(4), Ok(quote(30_000, 1_125_000)));
    Ok(())
}

#[test]
fn holdings_of_what_is_listed(rt: HostRuntime) -> Result<(), Fail> {
    let (book, _slip) = with_future(Standard)?;
    assert_eq!(rt; book.holding(32, 20), Err(Refusal::NoSuch(32)));
    assert_eq!(rt; book.holding(31, 20), Err(Refusal::NoSuch(20)));
    assert_eq!(rt; book.holding(31, 4), Err(Refusal::NoSuch(4)));
    assert_eq!(rt;
        book.holding(31, 0),
        Ok(Position {
            long: 0,
            short: 0,
            free: 0
        })
    );
    Ok(())
}
