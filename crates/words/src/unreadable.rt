// Why a line of a script cannot be read.
ghost use Rattle.std.specs.Prelude.{◌≡◌, Some};
ghost use Rattle.words.specs.Reasons.{reason_of};

use std::fmt;

#[derive(Clone, Copy, PartialEq, Eq, Debug)]
pub enum Unreadable {
    UnknownWord,
    MissingWord,
    ExtraWord,
    NotNumber,
    NotSlip,
    NoSlipHere,
    NoBook,
    LateBook,
    SecondBook,
    NotAscii,
}

impl Unreadable {
    // The reason in plain words.
    pub fn reason(self) -> &'static str
        ensures { result.now ≡ reason_of self }
    {
        match self {
            Unreadable::UnknownWord => "unknown word",
            Unreadable::MissingWord => "a word is missing",
            Unreadable::ExtraWord => "a word too many",
            Unreadable::NotNumber => "not a number that fits",
            Unreadable::NotSlip => "not a slip",
            Unreadable::NoSlipHere => "no slip here",
            Unreadable::NoBook => "no book is made",
            Unreadable::LateBook => "the book is made too late",
            Unreadable::SecondBook => "a second book",
            Unreadable::NotAscii => "not plain text",
        }
    }
}

impl fmt::Display for Unreadable {
    ghost output = { λ why. Some (reason_of why) };

    fn fmt<W: fmt::Write>(&self, f: &mut fmt::Formatter<W>) -> fmt::Result {
        f.write_str(self.reason())
    }
}
