// A new book.
ghost use Rattle.std.specs.Prelude.{◌≡◌};
ghost use Rattle.ledger.specs.Ledger.{made};
ghost use Rattle.ledger.specs.View.{view};

use crate::records::{OPENED, OptionTable, Record, RequestTable, Stage};
use crate::state::State;

impl State {
    // Empty, on day 1, trading.
    pub fn new(number: u32) -> State
        ensures { view result ≡ made number }
    {
        let held = Record {
            number,
            day: 1,
            stage: Stage::Trading,
            accounts: [OPENED; 32],
            futures: [None; 4],
            options: OptionTable { rows: [None; 16] },
            requests: RequestTable {
                places: [None; 256],
            },
            draw: None,
        };
        State { held }
    }
}
