// A whole script: the book is made with its rule, and each command is carried out and answered in turn.
ghost use Rattle.std.specs.Prelude.{◌≡◌, ◌^◌, IfOk};
ghost use Rattle.std.specs.Io.KnownBytes.{Appends};
ghost use Rattle.margin.specs.AddOn.{added};
ghost use Rattle.margin.specs.Flat.{flat as flat_rule};
ghost use Rattle.rogbeku.specs.Opening.{within, raised_by, meant, opened, Plays};

use crate::desk::Desk;
use crate::teller::Teller;
use book::book::Book;
use margin::add_on::AddOn;
use margin::flat::Flat;
use margin::rule::MarginRule;
use margin::standard::Standard;
use refusals::Refusal;
use script::command::{BaseRule, Command, RuleName};
use script::reading::Line;
use std::alloc::Global;
use std::io;
use std::io::Write;

// The flat rule, where its sum is within its limit.
fn flat(sum: u64) -> Result<Flat, Refusal>
    ensures { meant (λ rule. flat_rule rule.sum) result ≡ within sum (10 ^ 11) (flat_rule sum) }
{
    Ok(Flat::new(sum)?)
}

// An add-on above a rule, where there is one and the addition is within its limit.
fn add_on<R: MarginRule + Drop>(
    addition: u64,
    rule: Result<R, Refusal>,
) -> Result<AddOn<R>, Refusal>
    ensures { meant (λ made. added made.addition (R.meaning made.rule)) result ≡ raised_by addition (meant R.meaning rule) }
{
    Ok(AddOn::new(addition, rule?)?)
}

// The line that makes a book, and the book's number.
#[derive(Clone, Copy)]
struct Making {
    line: u64,
    number: u32,
}

// Makes the book with its rule and carries out the commands; where the rule is refused nothing else is carried out. Gives the writer back.
fn run_book<R: MarginRule + Drop, W: Write + Drop>(
    out: W,
    heap: Global,
    rule: Result<R, Refusal>,
    making: Making,
    commands: &[Line],
) -> io::Result<W>
    ensures { IfOk result (λ written. Appends (W.contents out) (W.contents written) (opened (meant R.meaning rule) making.line making.number commands.now)) }
{
    let mut teller = Teller::new(out);
    match rule {
        Ok(rule) => {
            let (book, _slip) = Book::new(making.number, rule);
            teller.carried_out(making.line, "made")?;
            let mut desk = Desk { book, teller, heap };
            desk.carry_out_all(commands)?;
            desk.teller.end()
        }
        Err(refusal) => {
            teller.refuse(making.line, refusal)?;
            teller.end()
        }
    }
}

// Carries out a script, which begins with the making of its book, and prints the tally. Gives the writer back.
pub fn play<W: Write + Drop>(out: W, heap: Global, lines: &[Line]) -> io::Result<W>
    ensures { IfOk result (λ written. Plays lines.now (W.contents out) (W.contents written)) }
{
    let Some((first, commands)) = lines.split_first() else {
        return Ok(out);
    };
    let Command::Book { number, rule } = first.command else {
        return Ok(out);
    };
    let making = Making {
        line: first.number,
        number,
    };
    // An arm for each type of rule, which a closure could not be generic over.
    match rule {
        RuleName::Base(BaseRule::Standard) => run_book(out, heap, Ok(Standard), making, commands),
        RuleName::Base(BaseRule::Flat(sum)) => run_book(out, heap, flat(sum), making, commands),
        RuleName::AddOn {
            addition,
            base: BaseRule::Standard,
        } => run_book(out, heap, add_on(addition, Ok(Standard)), making, commands),
        RuleName::AddOn {
            addition,
            base: BaseRule::Flat(sum),
        } => { run_book(out, heap, add_on(addition, flat(sum)), making, commands) }
    }
}
