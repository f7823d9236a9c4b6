// Listing an option at the margin rate that the rule asks.
ghost use Rattle.std.specs.Prelude.{◌≡◌, ℕ, IfOk, OnOk, Some};
ghost use Rattle.std.specs.Result.{result_err};
ghost use Rattle.ledger.specs.Calls.{Performs, plainly};
ghost use Rattle.ledger.specs.Kept.{FutureSound};
ghost use Rattle.ledger.specs.Ledger.{future_of};
ghost use Rattle.ledger.specs.Read.{read};
ghost use Rattle.ledger.specs.View.{view};
ghost use Rattle.margin.specs.Limits.{OptionWithin};
ghost use Rattle.session.specs.Listings.{option_listing_refusal, option_listed, listed_option, option_contract, OptionListable};

use crate::limits::{check_limits, check_price, outside};
use crate::orders::OptionListing;
use kinds::terms::{FutureTerms, OptionTerms};
use ledger::records::{Contract, Record, Slip, Stage};
use ledger::state::State;
use margin::rule::{MarginRule, OptionLot};
use refusals::Refusal;

impl OptionListing {
    // What the margin rule is asked with. A cast that loses bits is refused where it stands, and `try_from` would need an error that never comes.
    pub fn lot(self) -> OptionLot
        requires { OptionWithin (listed_option self) }
        ensures { result ≡ listed_option self }
    {
        OptionLot {
            right: self.right,
            strike: self.strike as u32,
            price: self.price as u32,
        }
    }

    // The option as it is listed, at a rate, where it is within the limits of some day.
    pub fn contract(self, rate: u64) -> Contract<OptionTerms>
        requires { (day : ℕ) × OptionListable day self }
        ensures { result ≡ option_contract self rate }
    {
        Contract {
            terms: OptionTerms {
                future: self.future as u32,
                right: self.right,
                style: self.style,
                strike: self.strike as u32,
                tick: self.tick as u32,
                last_day: self.last_day as u32,
            },
            carried: self.price as u32,
            rate,
        }
    }
}

// The future that the option is on, where no row refuses the listing, which then is within the limits.
pub fn check_option(
    held: &Record,
    slip: Slip,
    order: OptionListing,
) -> Result<Contract<FutureTerms>, Refusal>
    ensures rows { result_err result ≡ option_listing_refusal (read held.now) slip order }
    ensures future { IfOk result (λ future. future_of (read held.now) order.future ≡ Some future) }
    ensures within { OnOk result (OptionListable held.now.day order) }
{
    held.admit(slip, Stage::Trading)?;
    if outside(4, 19, order.number) {
        return Err(Refusal::NoSuch(order.number));
    }
    let future = held
        .future_at(order.future)
        .ok_or(Refusal::NoSuch(order.future))?;
    check_limits(5, 1, 99_999_999, order.strike)?;
    check_limits(6, 1, 100_000, order.tick)?;
    check_limits(7, u64::from(held.day), 1_000_000, order.last_day)?;
    check_price(8, order.tick, order.price)?;
    if held.option_at(order.number).is_some() {
        return Err(Refusal::Occupied(order.number));
    }
    Ok(future)
}

// The same in a book, where a listed future is within the limits.
fn check_listing(
    state: &State,
    slip: Slip,
    order: OptionListing,
) -> Result<Contract<FutureTerms>, Refusal>
    ensures rows { result_err result ≡ option_listing_refusal (view state.now) slip order }
    ensures future { IfOk result (λ future. future_of (view state.now) order.future ≡ Some future) }
    ensures sound { IfOk result FutureSound }
    ensures within { OnOk result (OptionListable state.now.held.day order) }
{
    check_option(&state.held, slip, order)
}

// The rate is asked at the price carried for the future and the price listed for the option.
#[tactic(auto, unfolding(crate::specs::Listings::option_listed))]
pub fn list_option<R: MarginRule>(
    state: &mut State,
    rule: &R,
    slip: Slip,
    order: OptionListing,
) -> Result<(), Refusal>
    ensures { Performs plainly (option_listed (R.meaning rule.now) (view state.old) slip order) state.old state.new result }
{
    let future = check_listing(state, slip, order)?;
    let rate = rule.option_sum(future.lot(), order.lot());
    let option = order.contract(rate);
    state.list_option(order.number as usize, option);
    Ok(())
}
