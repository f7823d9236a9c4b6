// The slip that a call shows.
ghost use Rattle.std.specs.Prelude.{◌≡◌, None, MatchOption};
ghost use Rattle.words.specs.Slips.{slip_of, shown_by};

use crate::number::short_number;

// The book and the day that a call's slip is shown for, as `@BOOK.DAY` writes them.
#[derive(Clone, Copy, PartialEq, Eq, Debug)]
pub struct Shown {
    pub book: u32,
    pub day: u32,
}

// The two parts of `@BOOK.DAY`, which may be no numbers yet.
fn parts(word: &str) -> Option<(&str, &str)>
    ensures { MatchOption result (slip_of word.now ≡ None) (λ p. slip_of word.now ≡ shown_by p.0.now p.1.now) }
{
    word.strip_prefix('@')?.split_once('.')
}

// The slip that `@BOOK.DAY` writes. No `FromStr`: a word that is no slip is no error, since it may open a command that shows none.
pub fn slip(word: &str) -> Option<Shown>
    ensures { result ≡ slip_of word.now }
{
    let (book, day) = parts(word)?;
    Some(Shown {
        book: short_number(book)?,
        day: short_number(day)?,
    })
}
