// A command from its words.
ghost use Rattle.std.specs.Prelude.{◌≡◌, map};
ghost use Rattle.words.specs.Words.{bytes};
ghost use Rattle.script.specs.Commands.{book_of, plain_of, call_of, command_of};

use crate::command::Command;
use crate::shape::{order, question, rule};
use session::orders::Order;
use words::keyword::Opening;
use words::slip::slip;
use words::unreadable::Unreadable;
use words::word::read_at;

// book NUMBER, then the margin rule
fn book(words: &[&str]) -> Result<Command, Unreadable>
    ensures { result ≡ book_of (map bytes words.now) }
{
    Ok(Command::Book {
        number: read_at(words, 1)?,
        rule: rule(words)?,
    })
}

// A command with no slip before it.
fn plain_command(words: &[&str]) -> Result<Command, Unreadable>
    ensures { result ≡ plain_of (map bytes words.now) }
{
    match read_at(words, 0)? {
        Opening::Book => book(words),
        Opening::Call(call) => {
            let order = order(call, words)?;
            Ok(Command::Call { slip: None, order })
        }
        Opening::Question(word) => question(word, words).map(Command::Ask),
    }
}

// The call that a slip is shown for; no other command takes one.
fn call_only(words: &[&str]) -> Result<Order, Unreadable>
    ensures { result ≡ call_of (map bytes words.now) }
{
    match read_at(words, 0)? {
        Opening::Call(call) => order(call, words),
        Opening::Book | Opening::Question(_) => Err(Unreadable::NoSlipHere),
    }
}

// The command that the words say.
pub fn command(words: &[&str]) -> Result<Command, Unreadable>
    ensures { result ≡ command_of (map bytes words.now) }
{
    let Some((first, rest)) = words.split_first() else {
        return Err(Unreadable::MissingWord);
    };
    match slip(first) {
        None => plain_command(words),
        Some(shown) => {
            let order = call_only(rest)?;
            Ok(Command::Call {
                slip: Some(shown),
                order,
            })
        }
    }
}
