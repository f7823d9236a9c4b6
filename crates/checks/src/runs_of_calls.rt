// Runs of written calls.
use book::book::Book;
use book::calls::Call;
use ledger::records::Reply;
use margin::standard::Standard;
use refusals::Refusal;
use runs::run;
use session::orders::{Deposit, Order, Withdrawal};
use std::test::Fail;

fn deposit(book: u32, day: u32, amount: u64) -> Call {
    Call {
        book,
        day,
        order: Order::Deposit(Deposit { account: 1, amount }),
    }
}

#[test]
fn answers_in_their_order(rt: HostRuntime) -> Result<(), Fail> {
    let (mut book, _slip) = Book::new(7, Standard);
    let mut told = Vec::new(rt.alloc());
    let withdrawal = Call {
        book: 7,
        day: 1,
        order: Order::Withdraw(Withdrawal {
            account: 1,
            amount: 40,
        }),
    };
    let calls = [
        deposit(7, 1, 100),
        deposit(8, 1, 100),
        deposit(7, 2, 100),
        withdrawal,
    ];
    run(&mut book, &calls, &mut told)?;
    run(&mut book, &[withdrawal, withdrawal], &mut told)?;
    let answers = [
        Ok(Reply::Done),
        Err(Refusal::WrongSlip(8)),
        Err(Refusal::WrongSlip(7)),
        Ok(Reply::Done),
        Ok(Reply::Done),
        Err(Refusal::ShortOfFunds(1)),
    ];
    assert_eq!(rt; told.as_slice(), answers.as_slice());
    assert_eq!(rt; book.cash(1), Ok(20));
    Ok(())
}
