// A book on which the commands of a script are carried out, one after another.
ghost use Rattle.std.specs.Prelude.{◌≡◌, OnOk};
ghost use Rattle.std.specs.Io.KnownBytes.{Appends};
ghost use Rattle.ledger.specs.Calls.{answer, after};
ghost use Rattle.ledger.specs.View.{view};
ghost use Rattle.rogbeku.specs.Written.{written};
ghost use Rattle.rogbeku.specs.Answers.{call_text, asked};
ghost use Rattle.rogbeku.specs.Commands.{called, printed, after_command, all_printed};
ghost use Rattle.rogbeku.specs.Counting.{count_of};
ghost use Rattle.rogbeku.specs.Lines.{line_of};
ghost use Rattle.rogbeku.specs.Tally.{after_call, after_question, is_refused, counted, all_counted};

use crate::statement::statement;
use crate::teller::Teller;
use crate::today::Today;
use book::book::Book;
use book::calls::Call;
use ledger::records::Reply;
use margin::rule::MarginRule;
use runs::run_one;
use script::command::{Command, Question};
use script::reading::Line;
use session::orders::Order;
use std::alloc::Global;
use std::io;
use std::io::Write;
use words::slip::Shown;

// The call with the slip that is written before it, else with the slip of this book and day.
fn written<R: MarginRule>(book: &Book<R>, slip: Option<Shown>, order: Order) -> Call
    ensures { result ≡ written (view book.now.state) slip order }
{
    match slip {
        Some(shown) => Call {
            book: shown.book,
            day: shown.day,
            order,
        },
        None => Call {
            book: book.number(),
            day: book.day(),
            order,
        },
    }
}

// The book, where its answers go, and the memory that a run takes.
#[derive(Drop)]
pub struct Desk<R: MarginRule, W> {
    pub book: Book<R>,
    pub teller: Teller<W>,
    pub heap: Global,
}

impl<R: MarginRule, W: Write> Desk<R, W> {
    // Carries out one command.
    pub fn carry_out(&mut self, line: &Line) -> io::Result<()>
        ensures prints { OnOk result (Appends (W.contents self.old.teller.out) (W.contents self.new.teller.out) (printed (R.MarginRule.meaning self.old.book.rule) (view self.old.book.state) line.now.number line.now.command)) }
        ensures leaves { OnOk result (view self.new.book.state ≡ after_command (R.MarginRule.meaning self.old.book.rule) (view self.old.book.state) line.now.command) }
        ensures counts { OnOk result (count_of self.new.teller ≡ counted (R.MarginRule.meaning self.old.book.rule) (view self.old.book.state) line.now.command (count_of self.old.teller)) }
        ensures rule { self.new.book.rule ≡ self.old.book.rule }
    {
        match line.command {
            // A script makes one book, which this is.
            Command::Book { .. } => Ok(()),
            Command::Call { slip, order } => self.call(line.number, slip, order),
            Command::Ask(question) => self.ask(line.number, question),
        }
    }

    // Carries out commands, one after another.
    pub fn carry_out_all(&mut self, lines: &[Line]) -> io::Result<()>
        ensures prints { OnOk result (Appends (W.contents self.old.teller.out) (W.contents self.new.teller.out) (all_printed (R.MarginRule.meaning self.old.book.rule) (view self.old.book.state) lines.now)) }
        ensures counts { OnOk result (count_of self.new.teller ≡ all_counted (R.MarginRule.meaning self.old.book.rule) (view self.old.book.state) lines.now (count_of self.old.teller)) }
    {
        for line in lines {
            self.carry_out(line)?;
        }
        Ok(())
    }

    // Each call is carried out as a run of one.
    fn call(&mut self, line: u64, slip: Option<Shown>, order: Order) -> io::Result<()>
        ensures prints { OnOk result (Appends (W.contents self.old.teller.out) (W.contents self.new.teller.out) (line_of line (call_text (answer (called (R.MarginRule.meaning self.old.book.rule) (view self.old.book.state) slip order))))) }
        ensures leaves { OnOk result (view self.new.book.state ≡ after (view self.old.book.state) (called (R.MarginRule.meaning self.old.book.rule) (view self.old.book.state) slip order)) }
        ensures counts { OnOk result (count_of self.new.teller ≡ after_call (called (R.MarginRule.meaning self.old.book.rule) (view self.old.book.state) slip order) (count_of self.old.teller)) }
        ensures rule { self.new.book.rule ≡ self.old.book.rule }
    {
        let call = written(&self.book, slip, order);
        match run_one(self.heap, &mut self.book, call)? {
            Ok(Reply::Done) => self.teller.carried_out(line, "ok"),
            Err(refusal) => self.teller.refuse(line, refusal),
        }
    }

    // A question is answered, and changes nothing.
    fn ask(&mut self, line: u64, question: Question) -> io::Result<()>
        ensures prints { OnOk result (Appends (W.contents self.old.teller.out) (W.contents self.new.teller.out) (asked (view self.old.book.state) line question)) }
        ensures counts { OnOk result (count_of self.new.teller ≡ after_question (is_refused (view self.old.book.state) question) (count_of self.old.teller)) }
        ensures book { self.new.book ≡ self.old.book }
    {
        let book = &self.book;
        let teller = &mut self.teller;
        match question {
            Question::Cash(account) => teller.tell(line, book.cash(account)),
            Question::Margin(account) => teller.tell(line, book.margin(account)),
            Question::Frozen(account) => teller.tell(line, book.frozen(account)),
            Question::Available(account) => teller.tell(line, book.available(account)),
            Question::Holding { account, contract } => {
                teller.tell(line, book.holding(account, contract))
            }
            Question::Contract(contract) => teller.tell(line, book.contract(contract)),
            Question::DrawLots(contract) => teller.tell(line, book.draw_lots(contract)),
            Question::DrawCash => teller.tell(line, Ok(book.draw_cash())),
            Question::Day => teller.tell(line, Ok(Today::of(book))),
            Question::Statement => statement(&mut teller.out, line, book),
        }
    }
}
