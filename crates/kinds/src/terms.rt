// The terms of each kind of contract, and a holding in one.
ghost use Rattle.std.specs.Prelude.{Some};
ghost use Rattle.kinds.specs.Words.{holding_text};

use margin::rule::Right;
use std::fmt;

// The lots that an account, or an open draw, holds in one contract.
#[derive(Clone, Copy, PartialEq, Eq, Debug)]
pub struct Holding {
    pub long: u32,
    pub short: u32,
}

impl fmt::Display for Holding {
    ghost output = { λ holding. Some (holding_text holding) };

    fn fmt<W: fmt::Write>(&self, f: &mut fmt::Formatter<W>) -> fmt::Result {
        write!(f, "long {} short {}", self.long, self.short)
    }
}

// The terms of a future: units a lot, tick in fen, and the futures rate in ten-thousandths.
#[derive(Clone, Copy)]
pub struct FutureTerms {
    pub units: u32,
    pub tick: u32,
    pub ratio: u32,
}

// An American option may be exercised on any day up to its last, a European one on its last day.
#[derive(Clone, Copy, PartialEq, Eq, Debug)]
pub enum Style {
    American,
    European,
}

// The terms of an option: the future that it is on, its right and style, strike and tick in fen, and its last day.
#[derive(Clone, Copy)]
pub struct OptionTerms {
    pub future: u32,
    pub right: Right,
    pub style: Style,
    pub strike: u32,
    pub tick: u32,
    pub last_day: u32,
}
