// What is listed at a number.
ghost use Rattle.std.specs.Prelude.{◌≡◌};
ghost use Rattle.ledger.specs.Ledger.{row_of, future_of, option_of, future_under};
ghost use Rattle.ledger.specs.Read.{read};
ghost use Rattle.ledger.specs.Funds.{rate_of};
ghost use Rattle.ledger.specs.Kept.{future_lot};

use crate::records::{Contract, Record};
use kinds::terms::{FutureTerms, OptionTerms};
use margin::rule::FutureLot;

// What is listed at a number in a table whose first row has the number `first`. The number becomes a place by `as`, as everywhere.
fn row<T: Copy>(rows: &[Option<Contract<T>>], first: u64, number: u64) -> Option<Contract<T>>
    ensures { result ≡ row_of rows.now first number }
{
    let place = number.checked_sub(first)?;
    *rows.get(place as usize)?
}

impl Record {
    // The future listed at a number, if any.
    pub fn future_at(&self, number: u64) -> Option<Contract<FutureTerms>>
        ensures { result ≡ future_of (read self.now) number }
    {
        row(&self.futures, 0, number)
    }

    // The option listed at a number, if any.
    pub fn option_at(&self, number: u64) -> Option<Contract<OptionTerms>>
        ensures { result ≡ option_of (read self.now) number }
    {
        row(&self.options.rows, 4, number)
    }

    // The future that an option is on.
    pub fn future_under(
        &self,
        option: Option<Contract<OptionTerms>>,
    ) -> Option<Contract<FutureTerms>>
        ensures { result ≡ future_under (read self.now) option }
    {
        self.future_at(u64::from(option?.terms.future))
    }
}

impl Contract<FutureTerms> {
    // What a margin rule is asked with for it, at its carried price.
    pub fn lot(&self) -> FutureLot
        ensures { result ≡ future_lot self.now }
    {
        FutureLot {
            price: self.carried,
            units: self.terms.units,
            ratio: self.terms.ratio,
        }
    }
}

// The margin rate a lot, 0 where no contract is listed.
pub fn rate<T: Drop>(contract: Option<Contract<T>>) -> u64
    ensures { result ≡ rate_of contract }
{
    contract.map_or(0, |listed| listed.rate)
}
