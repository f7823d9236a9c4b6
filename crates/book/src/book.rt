// The calls and questions of a book, in the trade's names. Each call leaves the rule as it was, which no type says for it.
ghost use Rattle.std.specs.Prelude.{◌≡◌};
ghost use Rattle.book.specs.Slips.{shown};
ghost use Rattle.ledger.specs.Calls.{Performs, plainly};
ghost use Rattle.ledger.specs.Ledger.{made, draw_cash};
ghost use Rattle.ledger.specs.Questions.{cash_answer, margin_answer, frozen_answer, available_answer, contract_answer, holding_answer, draw_lots_answer};
ghost use Rattle.ledger.specs.View.{view};
ghost use Rattle.session.specs.Cash.{deposited, withdrawn};
ghost use Rattle.session.specs.Listings.{future_listed, option_listed};

use crate::slips::TradingSlip;
use kinds::terms::Holding;
use ledger::account::AccountNumber;
use ledger::questions::{Position, Quote};
use ledger::records::Stage;
use ledger::state::State;
use margin::rule::MarginRule;
use refusals::Refusal;
use session::orders::{Deposit, FutureListing, OptionListing, Withdrawal};

// A clearing book with the margin rule that it keeps.
#[derive(Drop)]
pub struct Book<R: MarginRule> {
    rule: R,
    state: State,
}

impl<R: MarginRule> Book<R> {
    // An empty book on day 1, and the first trading slip.
    pub fn new(number: u32, rule: R) -> (Self, TradingSlip)
        ensures stands { view result.0.state ≡ made number }
        ensures rule { result.0.rule ≡ rule }
        ensures slip { result.1 ≡ record { number = number; day = 1 } }
    {
        let state = State::new(number);
        (Book { rule, state }, TradingSlip::bearing(number, 1))
    }

    // Pays cash in.
    pub fn deposit(&mut self, slip: &TradingSlip, order: Deposit) -> Result<(), Refusal>
        ensures performs { Performs plainly (deposited (view self.old.state) (shown slip.now) order) self.old.state self.new.state result }
        ensures rule { self.new.rule ≡ self.old.rule }
    {
        session::deposit::deposit(&mut self.state, slip.shown(), order)
    }

    // Pays cash out.
    pub fn withdraw(&mut self, slip: &TradingSlip, order: Withdrawal) -> Result<(), Refusal>
        ensures performs { Performs plainly (withdrawn (view self.old.state) (shown slip.now) order) self.old.state self.new.state result }
        ensures rule { self.new.rule ≡ self.old.rule }
    {
        session::withdraw::withdraw(&mut self.state, slip.shown(), order)
    }

    // Lists a future.
    pub fn list_future(&mut self, slip: &TradingSlip, order: FutureListing) -> Result<(), Refusal>
        ensures performs { Performs plainly (future_listed (R.meaning self.old.rule) (view self.old.state) (shown slip.now) order) self.old.state self.new.state result }
        ensures rule { self.new.rule ≡ self.old.rule }
    {
        session::list_future::list_future(&mut self.state, &self.rule, slip.shown(), order)
    }

    // Lists an option on a listed future.
    pub fn list_option(&mut self, slip: &TradingSlip, order: OptionListing) -> Result<(), Refusal>
        ensures performs { Performs plainly (option_listed (R.meaning self.old.rule) (view self.old.state) (shown slip.now) order) self.old.state self.new.state result }
        ensures rule { self.new.rule ≡ self.old.rule }
    {
        session::list_option::list_option(&mut self.state, &self.rule, slip.shown(), order)
    }

    pub fn number(&self) -> u32
        ensures { result ≡ (view self.now.state).number }
    {
        self.state.held.number
    }

    pub fn day(&self) -> u32
        ensures { result ≡ (view self.now.state).day }
    {
        self.state.held.day
    }

    pub fn stage(&self) -> Stage
        ensures { result ≡ (view self.now.state).stage }
    {
        self.state.held.stage
    }

    pub fn cash(&self, account: u64) -> Result<i128, Refusal>
        ensures { result ≡ cash_answer (view self.now.state) account }
    {
        Ok(self.state.cash(AccountNumber::try_from(account)?))
    }

    pub fn margin(&self, account: u64) -> Result<u128, Refusal>
        ensures { result ≡ margin_answer (view self.now.state) account }
    {
        Ok(self.state.held.margin(AccountNumber::try_from(account)?))
    }

    pub fn frozen(&self, account: u64) -> Result<u128, Refusal>
        ensures { result ≡ frozen_answer (view self.now.state) account }
    {
        Ok(self.state.frozen(AccountNumber::try_from(account)?))
    }

    pub fn available(&self, account: u64) -> Result<i128, Refusal>
        ensures { result ≡ available_answer (view self.now.state) account }
    {
        Ok(self.state.available(AccountNumber::try_from(account)?))
    }

    pub fn holding(&self, account: u64, contract: u64) -> Result<Position, Refusal>
        ensures { result ≡ holding_answer (view self.now.state) account contract }
    {
        self.state
            .held
            .position(AccountNumber::try_from(account)?, contract)
    }

    pub fn contract(&self, contract: u64) -> Result<Quote, Refusal>
        ensures { result ≡ contract_answer (view self.now.state) contract }
    {
        self.state.held.contract(contract)
    }

    pub fn draw_lots(&self, contract: u64) -> Result<Holding, Refusal>
        ensures { result ≡ draw_lots_answer (view self.now.state) contract }
    {
        self.state.held.draw_lots(contract)
    }

    pub fn draw_cash(&self) -> i128
        ensures { result ≡ draw_cash (view self.now.state) }
    {
        self.state.held.draw_cash()
    }
}
