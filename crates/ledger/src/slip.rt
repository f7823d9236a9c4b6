// Whether a slip is one that a call takes at this moment.
ghost use Rattle.std.specs.Prelude.{◌≡◌};
ghost use Rattle.ledger.specs.Slips.{wrong_slip, admitted};
ghost use Rattle.ledger.specs.Read.{read};

use crate::records::{Record, Slip, Stage};
use refusals::Refusal;

impl Record {
    // A call that takes slips of one stage refuses any other slip, and one of another book or day.
    pub fn wrong_slip(&self, slip: Slip, taken: Stage) -> bool
        ensures { result ≡ wrong_slip (read self.now) slip taken }
    {
        slip.number != self.number
            || slip.day != self.day
            || slip.stage != self.stage
            || slip.stage != taken
    }

    // Takes a slip for a call, or tells the book number on it.
    pub fn admit(&self, slip: Slip, taken: Stage) -> Result<(), Refusal>
        ensures { result ≡ admitted (read self.now) slip taken }
    {
        if self.wrong_slip(slip, taken) {
            return Err(Refusal::WrongSlip(u64::from(slip.number)));
        }
        Ok(())
    }
}
