// The setters: what a call changes goes through one of these.
ghost use Rattle.std.specs.Prelude.{◌≡◌, ◌<◌, ◌≤◌, None};
ghost use Rattle.ledger.specs.Ledger.{future_of, with_cash, with_future, with_option};
ghost use Rattle.ledger.specs.Funds.{InRange};
ghost use Rattle.ledger.specs.Kept.{FutureSound, OptionSound};
ghost use Rattle.ledger.specs.Read.{read};
ghost use Rattle.ledger.specs.View.{view};

use crate::account::AccountNumber;
use crate::records::{Contract, Record};
use crate::state::State;
use kinds::terms::{FutureTerms, OptionTerms};

// In a record, whatever is set.
impl Record {
    // Changes one account's cash; the clause on the account says to provers what its type does.
    pub fn set_cash(&mut self, account: AccountNumber, cash: i128)
        ensures sets { read self.new ≡ with_cash (read self.old) account cash }
        ensures there { account < 32 }
    {
        self.accounts[account.place()].cash = cash;
    }

    // Lists a future at a number.
    pub fn set_future(&mut self, number: usize, future: Contract<FutureTerms>)
        requires { number < 4 }
        ensures { read self.new ≡ with_future (read self.old) number future }
    {
        self.futures[number] = Some(future);
    }

    // Lists an option at a number.
    pub fn set_option(&mut self, number: usize, option: Contract<OptionTerms>)
        requires { (4 ≤ number) × (number < 20) }
        ensures { read self.new ≡ with_option (read self.old) number option }
    {
        self.options.put(number - 4, option);
    }
}

// In a book, where what is set leaves true what a book keeps.
impl State {
    // Changes one account's cash, within its range.
    pub fn book_cash(&mut self, account: AccountNumber, cash: i128)
        requires { InRange cash }
        ensures { view self.new ≡ with_cash (view self.old) account cash }
    {
        self.held.set_cash(account, cash);
    }

    // Lists a future at a free number.
    pub fn list_future(&mut self, number: usize, future: Contract<FutureTerms>)
        requires number { number < 4 }
        requires free { future_of (view self.old) number ≡ None }
        requires sound { FutureSound future }
        ensures { view self.new ≡ with_future (view self.old) number future }
    {
        self.held.set_future(number, future);
    }

    // Lists an option on a listed future, at a rate that covers it.
    pub fn list_option(&mut self, number: usize, option: Contract<OptionTerms>)
        requires number { (4 ≤ number) × (number < 20) }
        requires sound { OptionSound (view self.old) option }
        ensures { view self.new ≡ with_option (view self.old) number option }
    {
        self.held.set_option(number, option);
    }
}
