// The questions about contracts, and the open draw: what a book tells of itself, at every stage. A contract that is not listed is refused.
ghost use Rattle.std.specs.Prelude.{◌≡◌, Some};
ghost use Rattle.ledger.specs.Ledger.{draw_cash};
ghost use Rattle.ledger.specs.Questions.{quote_of, contract_answer, position_answer, draw_lots_answer};
ghost use Rattle.ledger.specs.Read.{read};
ghost use Rattle.ledger.specs.Words.{position_text, quote_text};

use crate::account::AccountNumber;
use crate::records::{Contract, NO_LOTS, Record};
use kinds::terms::Holding;
use refusals::Refusal;
use std::fmt;

// An account's lots in a contract; free are the long lots that no live instruction has taken.
#[derive(Clone, Copy, PartialEq, Eq, Debug)]
pub struct Position {
    pub long: u32,
    pub short: u32,
    pub free: u32,
}

impl fmt::Display for Position {
    ghost output = { λ position. Some (position_text position) };

    fn fmt<W: fmt::Write>(&self, f: &mut fmt::Formatter<W>) -> fmt::Result {
        write!(
            f,
            "long {} short {} free {}",
            self.long, self.short, self.free
        )
    }
}

// A contract's carried price in fen a unit and its margin rate in fen a lot.
#[derive(Clone, Copy, PartialEq, Eq, Debug)]
pub struct Quote {
    pub price: u32,
    pub rate: u64,
}

impl fmt::Display for Quote {
    ghost output = { λ quote. Some (quote_text quote) };

    fn fmt<W: fmt::Write>(&self, f: &mut fmt::Formatter<W>) -> fmt::Result {
        write!(f, "price {} rate {}", self.price, self.rate)
    }
}

// A contract's quote, whatever its kind.
impl<T: Drop> From<Contract<T>> for Quote {
    ghost from_gives = { λ contract quote. quote ≡ record { price = contract.carried; rate = contract.rate } };

    fn from(contract: Contract<T>) -> Quote {
        Quote {
            price: contract.carried,
            rate: contract.rate,
        }
    }
}

// A position's lots.
impl From<Position> for Holding {
    ghost from_gives = { λ position holding. holding ≡ record { long = position.long; short = position.short } };

    fn from(position: Position) -> Holding {
        Holding {
            long: position.long,
            short: position.short,
        }
    }
}

impl Record {
    // What is listed at a number, a future or an option.
    fn quote_at(&self, number: u64) -> Option<Quote>
        ensures { result ≡ quote_of (read self.now) number }
    {
        self.future_at(number)
            .map(Quote::from)
            .or_else(|| self.option_at(number).map(Quote::from))
    }

    // The same, or the refusal of a number at which nothing is listed.
    pub fn contract(&self, number: u64) -> Result<Quote, Refusal>
        ensures { result ≡ contract_answer (read self.now) number }
    {
        self.quote_at(number).ok_or(Refusal::NoSuch(number))
    }

    // An account's lots in a contract, whose number is a place in the holdings by `as`.
    pub fn position(&self, account: AccountNumber, contract: u64) -> Result<Position, Refusal>
        ensures { result ≡ position_answer (read self.now) account contract }
    {
        self.contract(contract)?;
        let held = self.accounts[account.place()].holdings.rows[contract as usize];
        Ok(Position {
            long: held.long,
            short: held.short,
            free: self.free_lots(account, contract as usize),
        })
    }

    // The open draw's lots in a contract.
    pub fn draw_lots(&self, contract: u64) -> Result<Holding, Refusal>
        ensures { result ≡ draw_lots_answer (read self.now) contract }
    {
        self.contract(contract)?;
        Ok(
            self.draw
                .map_or(NO_LOTS, |draw| draw.holdings.rows[contract as usize]),
        )
    }

    // The open draw's cash.
    pub fn draw_cash(&self) -> i128
        ensures { result ≡ draw_cash (read self.now) }
    {
        self.draw.map_or(0, |draw| draw.cash)
    }
}
