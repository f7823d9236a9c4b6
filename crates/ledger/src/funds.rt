// Margin, frozen funds, available funds and free lots, each the full sum over holdings and requests.
ghost use Rattle.std.specs.Prelude.{◌≡◌, ℕ, ◌*◌, ◌^◌, ◌<◌, ◌≤◌, unsigned_abs};
ghost use Rattle.ledger.specs.Ledger.{cash_of};
ghost use Rattle.ledger.specs.Read.{read};
ghost use Rattle.ledger.specs.View.{view};
ghost use Rattle.ledger.specs.Funds.{contract_margin, margin_of, instructs, lots_frozen_by, funds_frozen_by, of_place, frozen_lots_of, free_of, frozen_of, available_of, InRange};

use crate::account::AccountNumber;
use crate::listed::rate;
use crate::records::{Channel, Record, Request, Wish};
use crate::state::State;
use kinds::future::Future;
use kinds::kind::ContractKind;
use kinds::option::CallOption;
use kinds::rate::at_rate;
use kinds::terms::Holding;

impl Request {
    // Whether it is an instruction of an account.
    pub fn instructs(&self, account: usize) -> bool
        ensures { result ≡ instructs account self.now }
    {
        self.channel == Channel::Instruction && self.account as usize == account
    }
}

// The lots that a request freezes in an account's holding of an option.
pub fn lots_frozen_by(request: &Request, account: usize, option: u64) -> u32
    ensures { result ≡ lots_frozen_by account option request.now }
{
    if request.instructs(account) && u64::from(request.option) == option {
        request.lots
    } else {
        0
    }
}

// The same of a place of the request table.
fn lots_frozen_in(place: &Option<Request>, account: usize, option: u64) -> u32
    ensures { result ≡ of_place (lots_frozen_by account option) place.now }
{
    place.map_or(0, |request| lots_frozen_by(&request, account, option))
}

impl Record {
    // The margin of a whole holding in one contract: both sides of a future bear its rate, of an option the short side.
    pub fn contract_margin(&self, contract: u64, holding: Holding) -> u128
        ensures margin { result ≡ contract_margin (read self.now) contract holding }
        ensures bound { result ≤ 2 ^ 97 }
    {
        match contract {
            0..4 => Future::margin(rate(self.future_at(contract)), holding),
            // A put bears the same as a call.
            _ => CallOption::margin(rate(self.option_at(contract)), holding),
        }
    }

    // An account's margin. It stays a call: copied into the available funds it makes these too large to copy, and a caller who drops them then pays for the sum over the requests.
    #[inline(never)]
    pub fn margin(&self, account: AccountNumber) -> u128
        ensures margin { result ≡ margin_of (read self.now) account }
        ensures bound { result ≤ 20 * 2 ^ 97 }
    {
        // A chain's `sum` is proved to fit, but not to stay below the bound that the available funds need.
        let holdings = &self.accounts[account.place()].holdings.rows;
        let mut total = 0;
        for (contract, holding) in holdings.iter().enumerate() {
            total += self.contract_margin(contract as u64, *holding);
        }
        total
    }

    // The lots that an account's live instructions freeze in an option.
    pub fn frozen_lots(&self, account: usize, option: u64) -> u64
        ensures { result ≡ frozen_lots_of (read self.now) account option }
    {
        self.requests
            .places
            .iter()
            .map(|place| u64::from(lots_frozen_in(place, account, option)))
            .sum()
    }

    // The funds that a request freezes in an account.
    pub fn funds_frozen_by(&self, request: &Request, account: usize) -> u128
        ensures frozen { result ≡ funds_frozen_by (read self.now) account request.now }
        ensures bound { result ≤ 2 ^ 97 }
    {
        if request.instructs(account) && request.wish == Wish::Exercise {
            let future = self.future_under(self.option_at(u64::from(request.option)));
            at_rate(u64::from(request.lots), rate(future))
        } else {
            0
        }
    }

    // The same of a place of the request table.
    fn funds_frozen_in(&self, place: &Option<Request>, account: usize) -> u128
        ensures frozen { result ≡ of_place (funds_frozen_by (read self.now) account) place.now }
        ensures bound { result ≤ 2 ^ 97 }
    {
        place.map_or(0, |request| self.funds_frozen_by(&request, account))
    }

    // The funds that an account's live instruction exercises freeze.
    pub fn frozen(&self, account: usize) -> u128
        ensures frozen { result ≡ frozen_of (read self.now) account }
        ensures bound { result ≤ 256 * 2 ^ 97 }
    {
        // A loop for its bound, as that of the margin.
        let mut total = 0;
        for place in &self.requests.places {
            total += self.funds_frozen_in(place, account);
        }
        total
    }

    // An account's cash.
    pub fn cash(&self, account: AccountNumber) -> i128
        ensures { result ≡ cash_of (read self.now) account }
    {
        self.accounts[account.place()].cash
    }

    // An account's long lots in a contract that no live instruction has taken.
    pub fn free_lots(&self, account: AccountNumber, contract: usize) -> u32
        requires { contract < 20 }
        ensures { result ≡ free_of (read self.now) account contract }
    {
        // What is left is no more than the long lots, so the cast loses nothing.
        let long = self.accounts[account.place()].holdings.rows[contract].long;
        let frozen = self.frozen_lots(account.place(), contract as u64);
        u64::from(long).saturating_sub(frozen) as u32
    }
}

// What a book's invariant bounds.
impl State {
    // An account's cash, within its range.
    pub fn cash(&self, account: AccountNumber) -> i128
        ensures cash { result ≡ cash_of (view self.now) account }
        ensures range { InRange result }
    {
        self.held.cash(account)
    }

    // An account's frozen funds, by its number.
    pub fn frozen(&self, account: AccountNumber) -> u128
        ensures frozen { result ≡ frozen_of (view self.now) account }
        ensures bound { result ≤ 256 * 2 ^ 97 }
    {
        self.held.frozen(account.place())
    }

    // An account's cash less its margin less its frozen funds.
    pub fn available(&self, account: AccountNumber) -> i128
        ensures funds { result ≡ available_of (view self.now) account }
        ensures bound { unsigned_abs result ≤ 2 ^ 120 }
    {
        // Their bounds let both sums be signed.
        let margin = self.held.margin(account);
        self.cash(account) - margin as i128 - self.frozen(account) as i128
    }
}
