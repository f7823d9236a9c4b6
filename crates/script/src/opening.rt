// The making of the book, which comes first in a script and once.
ghost use Rattle.std.specs.Prelude.{◌≡◌};
ghost use Rattle.script.specs.Places.{well_placed_of, start_after};

use crate::command::Command;
use words::unreadable::Unreadable;

// No command yet; the first one made the book; the first one did something else.
#[derive(Clone, Copy, PartialEq, Eq, Debug)]
pub enum Start {
    Awaited,
    Made,
    Missed,
}

// Whether a command may stand where it does, or why not.
pub fn well_placed(command: Command, start: Start) -> Result<(), Unreadable>
    ensures { result ≡ well_placed_of command start }
{
    match (command, start) {
        (Command::Book { .. }, Start::Awaited) => Ok(()),
        (Command::Book { .. }, Start::Made) => Err(Unreadable::SecondBook),
        (Command::Book { .. }, Start::Missed) => Err(Unreadable::LateBook),
        (_, Start::Awaited) => Err(Unreadable::NoBook),
        (_, _) => Ok(()),
    }
}

// How a script has begun after a further command.
pub fn begun(command: Command, start: Start) -> Start
    ensures { result ≡ start_after command start }
{
    match (command, start) {
        (Command::Book { .. }, Start::Awaited) => Start::Made,
        (_, Start::Awaited) => Start::Missed,
        (_, later) => later,
    }
}
