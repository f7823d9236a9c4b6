// Listing a future at the margin rate that the rule asks.
ghost use Rattle.std.specs.Prelude.{◌≡◌, OnOk};
ghost use Rattle.std.specs.Result.{result_err};
ghost use Rattle.ledger.specs.Calls.{Performs, plainly};
ghost use Rattle.ledger.specs.Read.{read};
ghost use Rattle.ledger.specs.View.{view};
ghost use Rattle.margin.specs.Limits.{FutureWithin};
ghost use Rattle.session.specs.Listings.{future_listing_refusal, future_listed, listed_future, future_contract, FutureListable};

use crate::limits::{check_limits, check_price};
use crate::orders::FutureListing;
use kinds::terms::FutureTerms;
use ledger::records::{Contract, Record, Slip, Stage};
use ledger::state::State;
use margin::rule::{FutureLot, MarginRule};
use refusals::Refusal;

impl FutureListing {
    // What the margin rule is asked with. A cast that loses bits is refused where it stands, and `try_from` would need an error that never comes.
    pub fn lot(self) -> FutureLot
        requires { FutureWithin (listed_future self) }
        ensures { result ≡ listed_future self }
    {
        FutureLot {
            price: self.price as u32,
            units: self.units as u32,
            ratio: self.ratio as u32,
        }
    }

    // The future as it is listed, at a rate.
    pub fn contract(self, rate: u64) -> Contract<FutureTerms>
        requires { FutureListable self }
        ensures { result ≡ future_contract self rate }
    {
        Contract {
            terms: FutureTerms {
                units: self.units as u32,
                tick: self.tick as u32,
                ratio: self.ratio as u32,
            },
            carried: self.price as u32,
            rate,
        }
    }
}

// Whether a row refuses the listing; one that none refuses is within the limits.
pub fn check_future(held: &Record, slip: Slip, order: FutureListing) -> Result<(), Refusal>
    ensures rows { result_err result ≡ future_listing_refusal (read held.now) slip order }
    ensures within { OnOk result (FutureListable order) }
{
    held.admit(slip, Stage::Trading)?;
    if order.number >= 4 {
        return Err(Refusal::NoSuch(order.number));
    }
    check_limits(2, 1, 1_000, order.units)?;
    check_limits(3, 1, 100_000, order.tick)?;
    check_limits(4, 1, 10_000, order.ratio)?;
    check_price(5, order.tick, order.price)?;
    if held.future_at(order.number).is_some() {
        return Err(Refusal::Occupied(order.number));
    }
    Ok(())
}

#[tactic(auto, unfolding(crate::specs::Listings::future_listed))]
pub fn list_future<R: MarginRule>(
    state: &mut State,
    rule: &R,
    slip: Slip,
    order: FutureListing,
) -> Result<(), Refusal>
    ensures { Performs plainly (future_listed (R.meaning rule.now) (view state.old) slip order) state.old state.new result }
{
    check_future(&state.held, slip, order)?;
    let rate = rule.future_sum(order.lot());
    let future = order.contract(rate);
    state.list_future(order.number as usize, future);
    Ok(())
}
