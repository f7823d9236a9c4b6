// Cash paid in.
ghost use Rattle.std.specs.Prelude.{◌≡◌, IfOk};
ghost use Rattle.std.specs.Result.{result_err};
ghost use Rattle.ledger.specs.Calls.{Performs, plainly};
ghost use Rattle.ledger.specs.View.{view};
ghost use Rattle.session.specs.Cash.{deposit_refusal, deposited};

use crate::orders::Deposit;
pub use crate::payment::MOST_AMOUNT;
use crate::payment::check_payment;
use ledger::account::AccountNumber;
use ledger::records::Slip;
use ledger::state::State;
use refusals::Refusal;

// The most cash that an account may have, in fen.
pub const MOST_CASH: i128 = 1_000_000_000_000_000_000;

// The account that a deposit goes to, where no row refuses it.
pub fn check_deposit(state: &State, slip: Slip, order: Deposit) -> Result<AccountNumber, Refusal>
    ensures rows { result_err result ≡ deposit_refusal (view state.now) slip order }
    ensures account { IfOk result (λ account. account ≡ order.account) }
{
    let account = check_payment(&state.held, slip, order.account, order.amount)?;
    if state.cash(account) + i128::from(order.amount) > MOST_CASH {
        return Err(Refusal::BeyondRange(order.account));
    }
    Ok(account)
}

#[tactic(auto, unfolding(crate::specs::Cash::deposited))]
pub fn deposit(state: &mut State, slip: Slip, order: Deposit) -> Result<(), Refusal>
    ensures { Performs plainly (deposited (view state.old) slip order) state.old state.new result }
{
    let account = check_deposit(state, slip, order)?;
    let cash = state.cash(account) + i128::from(order.amount);
    state.book_cash(account, cash);
    Ok(())
}
