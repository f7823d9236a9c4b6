// Where the answers are printed, and the count of them.
ghost use Rattle.std.specs.Prelude.{◌≡◌, cond, IfOk, OnOk, IfSome};
ghost use Rattle.std.specs.Result.{is_err};
ghost use Rattle.std.specs.Io.KnownBytes.{Appends};
ghost use Rattle.refusals.specs.Words.{refusal_text};
ghost use Rattle.rogbeku.specs.Lines.{line_of, answered, tally_of};
ghost use Rattle.rogbeku.specs.Tally.{one_more};

use refusals::Refusal;
use std::fmt::Display;
use std::io;
use std::io::Write;

// How many calls were carried out, the making of the book among them, and how many calls and questions were refused.
#[derive(Drop)]
pub struct Teller<W> {
    pub out: W,
    done: u64,
    refused: u64,
}

impl<W: Write> Teller<W> {
    pub fn new(out: W) -> Teller<W>
        ensures { result ≡ record { out = out; done = 0; refused = 0 } }
    {
        Teller {
            out,
            done: 0,
            refused: 0,
        }
    }

    // Something was carried out, which a word says.
    pub fn carried_out(&mut self, line: u64, word: &str) -> io::Result<()>
        ensures prints { OnOk result (Appends (W.contents self.old.out) (W.contents self.new.out) (line_of line word.now)) }
        ensures done { self.new.done ≡ one_more self.old.done }
        ensures refused { self.new.refused ≡ self.old.refused }
    {
        self.done = self.done.saturating_add(1);
        writeln!(self.out, "{line} {word}")
    }

    // Something was refused.
    pub fn refuse(&mut self, line: u64, refusal: Refusal) -> io::Result<()>
        ensures prints { OnOk result (Appends (W.contents self.old.out) (W.contents self.new.out) (line_of line (refusal_text refusal))) }
        ensures done { self.new.done ≡ self.old.done }
        ensures refused { self.new.refused ≡ one_more self.old.refused }
    {
        self.refused = self.refused.saturating_add(1);
        writeln!(self.out, "{line} {refusal}")
    }

    // The answer to a question.
    pub fn tell<V: Display + Drop>(
        &mut self,
        line: u64,
        answer: Result<V, Refusal>,
    ) -> io::Result<()>
        ensures prints { OnOk result (IfSome (answered V.output answer) (λ text. Appends (W.contents self.old.out) (W.contents self.new.out) (line_of line text))) }
        ensures done { self.new.done ≡ self.old.done }
        ensures refused { self.new.refused ≡ cond (is_err answer) (one_more self.old.refused) self.old.refused }
    {
        match answer {
            Ok(value) => writeln!(self.out, "{line} is {value}"),
            Err(refusal) => self.refuse(line, refusal),
        }
    }

    // The last line of all: what was carried out and what was refused. Gives the writer back.
    pub fn end(self) -> io::Result<W>
    where
        W: Drop,
        ensures { IfOk result (λ written. Appends (W.contents self.out) (W.contents written) (tally_of self.done self.refused)) }
    {
        let Teller {
            mut out,
            done,
            refused,
        } = self;
        writeln!(out, "{done} done, {refused} refused")?;
        Ok(out)
    }
}
