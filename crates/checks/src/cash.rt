// Deposits, withdrawals and slips.
use book::book::Book;
use ledger::records::Stage;
use margin::standard::Standard;
use refusals::Refusal;
use session::orders::{Deposit, Withdrawal};

const MOST: u64 = 1_000_000_000_000_000;

#[test]
fn an_empty_book(rt: HostRuntime) {
    let (book, _slip) = Book::new(7, Standard);
    assert!(rt; book.number() == 7 && book.day() == 1);
    assert_eq!(rt; book.stage(), Stage::Trading);
    assert_eq!(rt; book.cash(31), Ok(0));
    assert_eq!(rt; book.available(0), Ok(0));
    assert_eq!(rt; book.cash(32), Err(Refusal::NoSuch(32)));
    assert!(rt; book.draw_cash() == 0);
}

#[test]
fn deposits_at_their_limits(rt: HostRuntime) {
    let (mut book, slip) = Book::new(7, Standard);
    for (account, amount, answer) in [
        (0, 0, Err(Refusal::OutOfLimits(2))),
        (0, 1, Ok(())),
        (0, MOST, Ok(())),
        (0, MOST + 1, Err(Refusal::OutOfLimits(2))),
        (31, 5, Ok(())),
        (32, 5, Err(Refusal::NoSuch(32))),
        (4_294_967_296, 0, Err(Refusal::NoSuch(4_294_967_296))),
    ] {
        assert_eq!(rt; book.deposit(&slip, Deposit { account, amount }), answer);
    }
    assert_eq!(rt; book.cash(0), Ok(1_000_000_000_000_001));
    assert_eq!(rt; book.cash(31), Ok(5));
}

#[test]
fn cash_at_its_ceiling(rt: HostRuntime) {
    let (mut book, slip) = Book::new(7, Standard);
    for _ in 0..1_000 {
        assert_eq!(rt;
            book.deposit(
                &slip,
                Deposit {
                    account: 3,
                    amount: MOST
                }
            ),
            Ok(())
        );
    }
    assert_eq!(rt; book.cash(3), Ok(1_000_000_000_000_000_000));
    assert_eq!(rt;
        book.deposit(
            &slip,
            Deposit {
                account: 3,
                amount: 1
            }
        ),
        Err(Refusal::BeyondRange(3))
    );
    assert_eq!(rt;
        book.deposit(
            &slip,
            Deposit {
                account: 3,
                amount: 0
            }
        ),
        Err(Refusal::OutOfLimits(2))
    );
    assert_eq!(rt;
        book.withdraw(
            &slip,
            Withdrawal {
                account: 3,
                amount: 1
            }
        ),
        Ok(())
    );
    assert_eq!(rt;
        book.deposit(
            &slip,
            Deposit {
                account: 3,
                amount: 2
            }
        ),
        Err(Refusal::BeyondRange(3))
    );
    assert_eq!(rt;
        book.deposit(
            &slip,
            Deposit {
                account: 3,
                amount: 1
            }
        ),
        Ok(())
    );
    assert_eq!(rt; book.cash(3), Ok(1_000_000_000_000_000_000));
}

#[test]
fn withdrawals_at_their_limits(rt: HostRuntime) {
    let (mut book, slip) = Book::new(7, Standard);
    assert_eq!(rt;
        book.withdraw(
            &slip,
            Withdrawal {
                account: 0,
                amount: 1
            }
        ),
        Err(Refusal::ShortOfFunds(0))
    );
    assert_eq!(rt;
        book.deposit(
            &slip,
            Deposit {
                account: 0,
                amount: 500
            }
        ),
        Ok(())
    );
    for (account, amount, answer) in [
        (0, 501, Err(Refusal::ShortOfFunds(0))),
        (0, 0, Err(Refusal::OutOfLimits(2))),
        (0, MOST + 1, Err(Refusal::OutOfLimits(2))),
        (0, MOST, Err(Refusal::ShortOfFunds(0))),
        (32, 0, Err(Refusal::NoSuch(32))),
        (0, 500, Ok(())),
        (0, 1, Err(Refusal::ShortOfFunds(0))),
    ] {
        assert_eq!(rt;
            book.withdraw(&slip, Withdrawal { account, amount }),
            answer
        );
    }
    assert_eq!(rt; book.cash(0), Ok(0));
}

#[test]
fn a_slip_of_another_book(rt: HostRuntime) {
    let (mut book, slip) = Book::new(7, Standard);
    let (_other, theirs) = Book::new(8, Standard);
    assert_eq!(rt;
        book.deposit(
            &theirs,
            Deposit {
                account: 32,
                amount: 0
            }
        ),
        Err(Refusal::WrongSlip(8))
    );
    assert_eq!(rt;
        book.withdraw(
            &theirs,
            Withdrawal {
                account: 0,
                amount: 1
            }
        ),
        Err(Refusal::WrongSlip(8))
    );
    assert_eq!(rt;
        book.deposit(
            &slip,
            Deposit {
                account: 0,
                amount: 1
            }
        ),
        Ok(())
    );
    assert_eq!(rt; book.cash(0), Ok(1));
}
