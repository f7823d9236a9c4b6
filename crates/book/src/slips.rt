// Slips: what a caller shows to be let in. A slip can't be copied, cloned or made outside this crate.
ghost use Rattle.std.specs.Prelude.{◌≡◌};
ghost use Rattle.book.specs.Slips.{shown};

use ledger::records::{Slip, Stage};

// The slip of a trading day. It is shown by reference and stays with the caller.
#[derive(Drop)]
pub struct TradingSlip {
    number: u32,
    day: u32,
}

impl TradingSlip {
    // The slip that bears a book's number and a day.
    pub(crate) fn bearing(number: u32, day: u32) -> TradingSlip
        ensures { result ≡ record { number = number; day = day } }
    {
        TradingSlip { number, day }
    }

    // What it says.
    pub(crate) fn shown(&self) -> Slip
        ensures { result ≡ shown self.now }
    {
        Slip {
            number: self.number,
            day: self.day,
            stage: Stage::Trading,
        }
    }
}
