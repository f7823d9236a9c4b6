// The statement: each account that has cash or a lot, with its holdings. The numbers of accounts and contracts are counted, since no list stands
// behind them. The writer and the book go through these functions one by one: clauses see a struct of borrows by what is lent, not by its fields.
ghost use Rattle.std.specs.Prelude.{◌≡◌, ◌<◌, OnOk, Some};
ghost use Rattle.std.specs.Io.KnownBytes.{Appends};
ghost use Rattle.ledger.specs.Accounts.{of_account};
ghost use Rattle.ledger.specs.View.{view};
ghost use Rattle.rogbeku.specs.Statement.{funds_text, funds_line, funds_of, held_of, lots_line, holding_lines, lines_to, holds_any_of, is_idle_of, account_lines, statement_lines};

use book::book::Book;
use kinds::terms::Holding;
use margin::rule::MarginRule;
use refusals::Refusal;
use std::io::Write;
use std::{fmt, io};

// An account's cash, margin, frozen funds and available funds.
#[derive(Clone, Copy)]
pub struct AccountFunds {
    cash: i128,
    margin: u128,
    frozen: u128,
    available: i128,
}

impl fmt::Display for AccountFunds {
    ghost output = { λ funds. Some (funds_text funds) };

    fn fmt<W: fmt::Write>(&self, f: &mut fmt::Formatter<W>) -> fmt::Result {
        write!(
            f,
            "cash {} margin {} frozen {} available {}",
            self.cash, self.margin, self.frozen, self.available
        )
    }
}

// An account's funds; refused where there is none.
fn funds_of<R: MarginRule>(book: &Book<R>, account: u64) -> Result<AccountFunds, Refusal>
    ensures { result ≡ of_account account (funds_of (view book.now.state) account) }
{
    Ok(AccountFunds {
        cash: book.cash(account)?,
        margin: book.margin(account)?,
        frozen: book.frozen(account)?,
        available: book.available(account)?,
    })
}

// An account's lots in a contract, where it has any.
fn held<R: MarginRule>(book: &Book<R>, account: u64, contract: u64) -> Option<Holding>
    ensures { result ≡ held_of (view book.now.state) account contract }
{
    let position = book.holding(account, contract).ok()?;
    if position.long == 0 && position.short == 0 {
        return None;
    }
    Some(Holding::from(position))
}

// Whether an account has a lot in any contract.
fn holds_any<R: MarginRule>(book: &Book<R>, account: u64) -> bool
    ensures { result ≡ holds_any_of (view book.now.state) account }
{
    (0..20u64).any(|contract| held(book, account, contract).is_some())
}

// Whether an account has no cash and no lot.
fn is_idle<R: MarginRule>(book: &Book<R>, account: u64) -> bool
    requires { account < 32 }
    ensures { result ≡ is_idle_of (view book.now.state) account }
{
    book.cash(account) == Ok(0) && !holds_any(book, account)
}

// The line of an account.
fn tell_funds<W: Write>(out: &mut W, account: u64, funds: AccountFunds) -> io::Result<()>
    ensures { OnOk result (Appends (W.contents out.old) (W.contents out.new) (funds_line account funds)) }
{
    writeln!(out, "  account {account} {funds}")
}

// The line of a contract, where an account has lots in it.
fn tell_lots<W: Write>(out: &mut W, contract: u64, lots: Option<Holding>) -> io::Result<()>
    ensures { OnOk result (Appends (W.contents out.old) (W.contents out.new) (lots_line contract lots)) }
{
    match lots {
        Some(holding) => writeln!(out, "    contract {contract} {holding}"),
        None => Ok(()),
    }
}

// The lines of all contracts in which an account has lots.
fn tell_holdings<R: MarginRule, W: Write>(
    out: &mut W,
    book: &Book<R>,
    account: u64,
) -> io::Result<()>
    ensures { OnOk result (Appends (W.contents out.old) (W.contents out.new) (holding_lines (view book.now.state) account)) }
{
    for contract in 0..20 {
        tell_lots(out, contract, held(book, account, contract))?;
    }
    Ok(())
}

// An account's lines, unless it has nothing.
fn tell_account<R: MarginRule, W: Write>(
    out: &mut W,
    book: &Book<R>,
    account: u64,
) -> io::Result<()>
    requires { account < 32 }
    ensures { OnOk result (Appends (W.contents out.old) (W.contents out.new) (account_lines (view book.now.state) account)) }
{
    let Ok(funds) = funds_of(book, account) else {
        return Ok(());
    };
    if is_idle(book, account) {
        return Ok(());
    }
    tell_funds(out, account, funds)?;
    tell_holdings(out, book, account)
}

// All accounts' lines. The loop is that over contracts again: what the two call has contracts of its own, which a closure would have to repeat.
fn tell_accounts<R: MarginRule, W: Write>(out: &mut W, book: &Book<R>) -> io::Result<()>
    ensures { OnOk result (Appends (W.contents out.old) (W.contents out.new) (lines_to 32 (account_lines (view book.now.state)))) }
{
    for account in 0..32 {
        tell_account(out, book, account)?;
    }
    Ok(())
}

// The whole statement.
pub fn statement<R: MarginRule, W: Write>(out: &mut W, line: u64, book: &Book<R>) -> io::Result<()>
    ensures { OnOk result (Appends (W.contents out.old) (W.contents out.new) (statement_lines (view book.now.state) line)) }
{
    writeln!(out, "{line} statement")?;
    tell_accounts(out, book)
}
