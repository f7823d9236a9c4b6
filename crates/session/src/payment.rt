// The rows that deposits and withdrawals share.
ghost use Rattle.std.specs.Prelude.{◌≡◌};
ghost use Rattle.ledger.specs.Read.{read};
ghost use Rattle.session.specs.Cash.{payable};

use crate::limits::check_limits;
use ledger::account::AccountNumber;
use ledger::records::{Record, Slip, Stage};
use refusals::Refusal;

// The most that one deposit or withdrawal may move, in fen.
pub const MOST_AMOUNT: u64 = 1_000_000_000_000_000;

// The account that is paid in or out, where none of these rows refuses it.
pub fn check_payment(
    held: &Record,
    slip: Slip,
    account: u64,
    amount: u64,
) -> Result<AccountNumber, Refusal>
    ensures { result ≡ payable (read held.now) slip account amount }
{
    held.admit(slip, Stage::Trading)?;
    let account = AccountNumber::try_from(account)?;
    check_limits(2, 1, MOST_AMOUNT, amount)?;
    Ok(account)
}
