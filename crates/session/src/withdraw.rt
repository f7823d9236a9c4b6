// Cash paid out.
ghost use Rattle.std.specs.Prelude.{◌≡◌, IfOk};
ghost use Rattle.std.specs.Result.{result_err};
ghost use Rattle.ledger.specs.Calls.{Performs, plainly};
ghost use Rattle.ledger.specs.View.{view};
ghost use Rattle.session.specs.Cash.{overdrawn, withdrawal_refusal, withdrawn};

use crate::orders::Withdrawal;
use crate::payment::check_payment;
use ledger::account::AccountNumber;
use ledger::records::Slip;
use ledger::state::State;
use refusals::Refusal;

// Whether an amount is more than the available funds, so that less than 0 would be left of them.
#[tactic(auto, unfolding(crate::specs::Cash::overdrawn))]
fn overdraws(state: &State, account: AccountNumber, amount: u64) -> bool
    ensures { result ≡ overdrawn (view state.now) account amount }
{
    state.available(account) - i128::from(amount) < 0
}

// The account that a withdrawal comes from, where no row refuses it.
pub fn check_withdrawal(
    state: &State,
    slip: Slip,
    order: Withdrawal,
) -> Result<AccountNumber, Refusal>
    ensures rows { result_err result ≡ withdrawal_refusal (view state.now) slip order }
    ensures account { IfOk result (λ account. account ≡ order.account) }
{
    let account = check_payment(&state.held, slip, order.account, order.amount)?;
    if overdraws(state, account, order.amount) {
        return Err(Refusal::ShortOfFunds(order.account));
    }
    Ok(account)
}

#[tactic(auto, unfolding(crate::specs::Cash::withdrawn, crate::specs::Cash::overdrawn))]
pub fn withdraw(state: &mut State, slip: Slip, order: Withdrawal) -> Result<(), Refusal>
    ensures { Performs plainly (withdrawn (view state.old) slip order) state.old state.new result }
{
    let account = check_withdrawal(state, slip, order)?;
    let cash = state.cash(account) - i128::from(order.amount);
    state.book_cash(account, cash);
    Ok(())
}
