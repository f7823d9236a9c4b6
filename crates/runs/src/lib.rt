// Runs: a list of written calls, carried out one after another, and the law that holds after every run.
#![tactic(auto)]

ghost use Rattle.std.specs.Prelude.{◌≡◌, ℕ, ◌+◌, ◌≤◌, List, ◌++◌, map, length, IfOk, vec_len, vec_capacity, MatchResult, OnErr};
ghost use Rattle.ledger.specs.Calls.{answer, after};
ghost use Rattle.ledger.specs.Ledger.{made};
ghost use Rattle.ledger.specs.View.{view};
ghost use Rattle.book.specs.Acts.{Act, act, stepped};
ghost use Rattle.runs.specs.Journal.{reached, answers, journal, carried_out};
ghost use Rattle.runs.specs.Law.{Law};

use book::book::Book;
use book::calls::{Answer, Call};
use margin::rule::MarginRule;
use std::alloc::{AllocError, Global};

// Carries out the calls and adds their answers to a list that has room for them.
fn carry_out<R: MarginRule>(book: &mut Book<R>, calls: &[Call], told: &mut Vec<Answer>)
    requires { vec_len told.old + length calls.now ≤ vec_capacity told.old }
    ensures leaves { view book.new.state ≡ reached (R.MarginRule.meaning book.old.rule) (view book.old.state) (map act calls.now) }
    ensures answers { told.new.items ≡ told.old.items ++ answers (R.MarginRule.meaning book.old.rule) (view book.old.state) (map act calls.now) }
    ensures rule { book.new.rule ≡ book.old.rule }
{
    for call in calls {
        let answer = book.perform(call);
        told.push_reserved(answer);
    }
}

// Carries out the calls, and adds the answer to each to the list. Room for the answers is made first: for want of memory no call is carried out.
// Whatever calls brought the book here from its making, the law holds of all of them and of the book as it then stands.
pub fn run<R: MarginRule>(
    book: &mut Book<R>,
    calls: &[Call],
    told: &mut Vec<Answer>,
) -> Result<(), AllocError>
    ensures leaves { view book.new.state ≡ reached (R.MarginRule.meaning book.old.rule) (view book.old.state) (carried_out result (map act calls.now)) }
    ensures answers { told.new.items ≡ told.old.items ++ answers (R.MarginRule.meaning book.old.rule) (view book.old.state) (carried_out result (map act calls.now)) }
    ensures rule { book.new.rule ≡ book.old.rule }
    ensures spares { OnErr result (book.new.state ≡ book.old.state) }
    ensures law { (n : ℕ) (before : List Act) → view book.old.state ≡ reached (R.MarginRule.meaning book.old.rule) (made n) before → Law (journal (R.MarginRule.meaning book.old.rule) n (before ++ carried_out result (map act calls.now))) (view book.new.state) }
{
    told.reserve(calls.len())?;
    carry_out(book, calls, told);
    Ok(())
}

// A run of one call, and its answer. For want of memory it is not carried out.
pub fn run_one<R: MarginRule>(
    heap: Global,
    book: &mut Book<R>,
    call: Call,
) -> Result<Answer, AllocError>
    ensures answers { IfOk result (λ told. told ≡ answer (stepped (R.MarginRule.meaning book.old.rule) (view book.old.state) (act call))) }
    ensures leaves { MatchResult result (λ _. view book.new.state ≡ after (view book.old.state) (stepped (R.MarginRule.meaning book.old.rule) (view book.old.state) (act call))) (λ _. book.new.state ≡ book.old.state) }
    ensures rule { book.new.rule ≡ book.old.rule }
{
    let mut told = Vec::new(heap);
    run(book, &[call], &mut told)?;
    match told.pop() {
        Some(answer) => Ok(answer),
        None => unreachable(),
    }
}
