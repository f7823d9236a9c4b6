// A whole script, which is read before anything of it is carried out.
ghost use Rattle.std.specs.Prelude.{◌≡◌, Some, OnOk};
ghost use Rattle.script.specs.Readings.{fault_text, told_first_of, read_by, taken, lacks_book_of, told, Gives, script_of};

use crate::command::Command;
use crate::error::ReadError;
use crate::line::{opens_book, read_line};
use crate::opening::{Start, begun, well_placed};
use std::alloc::{AllocError, Global};
use std::fmt;
use words::unreadable::Unreadable;

// A command and the number of its line; every line counts, from 1.
#[derive(Clone, Copy, PartialEq, Eq, Debug)]
pub struct Line {
    pub number: u64,
    pub command: Command,
}

// A line that cannot be read.
#[derive(Clone, Copy, PartialEq, Eq, Debug)]
pub struct Fault {
    pub line: u64,
    pub why: Unreadable,
}

impl fmt::Display for Fault {
    ghost output = { λ fault. Some (fault_text fault) };

    fn fmt<W: fmt::Write>(&self, f: &mut fmt::Formatter<W>) -> fmt::Result {
        write!(f, "line {}: unreadable: {}", self.line, self.why)
    }
}

// What has been read so far.
#[derive(Drop)]
struct Reader {
    start: Start,
    lines: Vec<Line>,
    faults: Vec<Fault>,
}

// Whether line 1 is told already.
fn told_first(faults: &[Fault]) -> bool
    ensures { result ≡ told_first_of faults.now }
{
    faults.first().is_some_and(|fault| fault.line == 1)
}

impl Reader {
    // Takes in what a line says. A `book` line that cannot be read is told once: the book is not told as missing too.
    fn take(&mut self, heap: Global, number: u64, line: &[u8]) -> Result<(), AllocError>
        ensures { OnOk result (read_by self.new ≡ taken number line.now (read_by self.old)) }
    {
        match read_line(heap, line) {
            Ok(None) => {}
            Ok(Some(command)) => {
                match well_placed(command, self.start) {
                    Ok(()) => self.lines.push(Line { number, command })?,
                    Err(why) => self.faults.push(Fault { line: number, why })?,
                }
                self.start = begun(command, self.start);
            }
            Err(ReadError::Text(why)) => {
                self.faults.push(Fault { line: number, why })?;
                if opens_book(line) && self.start == Start::Awaited {
                    self.start = Start::Made;
                }
            }
            Err(ReadError::Memory(memory)) => return Err(memory),
        }
        Ok(())
    }

    // Whether the book is missing: no command was read. It is told at line 1, unless that line is told already.
    fn lacks_book(&self) -> bool
        ensures { result ≡ lacks_book_of self.now.start self.now.faults.items }
    {
        self.start == Start::Awaited && !told_first(&self.faults)
    }

    // The commands, or each line that cannot be read, in rising order; a missing book is the first fault.
    fn end(mut self) -> Result<Vec<Line>, ReadError<Vec<Fault>>>
        ensures { Gives (λ lines. lines.items) (λ faults. faults.items) result (told (read_by self)) }
    {
        if self.lacks_book() {
            self.faults.insert(
                0,
                Fault {
                    line: 1,
                    why: Unreadable::NoBook,
                },
            )?;
        }
        let Reader {
            start: _,
            lines,
            faults,
        } = self;
        if faults.is_empty() {
            Ok(lines)
        } else {
            Err(ReadError::Text(faults))
        }
    }
}

// The commands of a script, or each line of it that cannot be read, in rising order; any bytes may be handed in.
pub fn script(heap: Global, text: &[u8]) -> Result<Vec<Line>, ReadError<Vec<Fault>>>
    ensures { Gives (λ lines. lines.items) (λ faults. faults.items) result (script_of text.now) }
{
    let mut reader = Reader {
        start: Start::Awaited,
        lines: Vec::new(heap),
        faults: Vec::new(heap),
    };
    // Lines are counted from 1; a place is as wide as a number of a line, so the cast loses nothing.
    for (index, line) in text.split(|byte| *byte == b'\n').enumerate() {
        reader.take(heap, index as u64 + 1, line)?;
    }
    reader.end()
}
