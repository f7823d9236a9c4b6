// The words of a command by place; the word that it opens with stands at 0. The words are borrowed slices, seen by their bytes: hence `map bytes words.now` in the clauses.
ghost use Rattle.std.specs.Prelude.{◌≡◌, ℕ, List, Result, map};
ghost use Rattle.words.specs.Reasons.{unfit_of};
ghost use Rattle.words.specs.Numbers.{number_of};
ghost use Rattle.words.specs.Words.{bytes, at, only};
ghost use Rattle.words.specs.declared.unreadable.Unreadable.{Unreadable};

use crate::number::{number, short_number};
use crate::unreadable::Unreadable;

// What can stand as one word of a command.
pub trait Word: Sized {
    // What a word means, or why it means nothing of this kind.
    ghost meaning: { List ℕ → Result Self Unreadable };

    fn read(word: &str) -> Result<Self, Unreadable>
        ensures { result ≡ meaning word.now };
}

// Why a word is no number.
fn unfit(word: &str) -> Unreadable
    ensures { result ≡ unfit_of word.now }
{
    if word.is_empty() {
        Unreadable::MissingWord
    } else {
        Unreadable::NotNumber
    }
}

// Each width of number has an impl, since it has its own reader and limit; one over both would need a trait for these two types only.
impl Word for u64 {
    ghost meaning = { number_of 18446744073709551615 };

    fn read(word: &str) -> Result<u64, Unreadable> {
        number(word, u64::MAX).ok_or_else(|| unfit(word))
    }
}

// A number of 32 bits, as a book's is.
impl Word for u32 {
    ghost meaning = { number_of 4294967295 };

    fn read(word: &str) -> Result<u32, Unreadable> {
        short_number(word).ok_or_else(|| unfit(word))
    }
}

// The word at a place; a missing one is empty, which no word of a line is.
pub fn word_at<'a>(words: &[&'a str], place: usize) -> &'a str
    ensures { result.now ≡ at (map bytes words.now) place }
{
    words.get(place).copied().unwrap_or("")
}

// What the word at a place means.
pub fn read_at<W: Word>(words: &[&str], place: usize) -> Result<W, Unreadable>
    ensures { result ≡ W.meaning (at (map bytes words.now) place) }
{
    W::read(word_at(words, place))
}

// A command of `count` words has no word more.
pub fn end(words: &[&str], count: usize) -> Result<(), Unreadable>
    ensures { result ≡ only (map bytes words.now) count }
{
    if words.len() > count {
        return Err(Unreadable::ExtraWord);
    }
    Ok(())
}
