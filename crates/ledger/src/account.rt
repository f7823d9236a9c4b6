// The accounts of a book by number.
ghost use Rattle.std.specs.Prelude.{◌≡◌, ◌<◌};

use refusals::Refusal;
use std::marker::Model;

// The number of an account that every book has, 0 to 31.
#[derive(Clone, Copy)]
pub struct AccountNumber {
    place: usize,
}

impl Model for AccountNumber {
    ghost use Rattle.std.specs.Prelude.{ℕ, ◌<◌};

    ghost Value = { ℕ };

    ghost view = { λ a. a.place };

    ghost invariant = { λ a. a.place < 32 };

    ghost inverse = { λ n. record { place = n } };
}

impl AccountNumber {
    // The account at a place of the table.
    pub fn at(place: usize) -> AccountNumber
        requires { place < 32 }
        ensures { result ≡ place }
    {
        AccountNumber { place }
    }

    // Its place in the table of accounts.
    pub fn place(self) -> usize
        ensures number { result ≡ self }
        ensures within { result < 32 }
    {
        self.place
    }
}

// A number that no account has is refused.
impl TryFrom<u64> for AccountNumber {
    ghost use Rattle.ledger.specs.Accounts.{numbered};

    type Error = Refusal;

    ghost try_from_gives = { λ number answer. answer ≡ numbered number };

    fn try_from(number: u64) -> Result<AccountNumber, Refusal> {
        if number >= 32 {
            return Err(Refusal::NoSuch(number));
        }
        // Rust has no `From` here, and the check knows that nothing is lost.
        Ok(AccountNumber {
            place: number as usize,
        })
    }
}
