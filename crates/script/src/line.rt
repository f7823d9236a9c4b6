// The words of a line, and what they say.
ghost use Rattle.std.specs.Prelude.{◌≡◌, true, false, map, IfOk, MatchResult};
ghost use Rattle.words.specs.Cuts.{before};
ghost use Rattle.words.specs.Words.{bytes};
ghost use Rattle.script.specs.Lines.{unspaced, words_of, ends_word_of, opens_book_of};
ghost use Rattle.script.specs.Readings.{Gives, is_plain, says_of};

use crate::command::Command;
use crate::error::ReadError;
use crate::parser::command;
use std::alloc::{AllocError, Global};
use std::str::from_utf8;
use words::unreadable::Unreadable;

// A line up to its comment.
pub fn before_comment(line: &str) -> &str
    ensures { result.now ≡ before 35 line.now }
{
    line.split_once('#').map_or(line, |(said, _)| said)
}

// The words of a line: what stands between spaces, up to its comment.
pub fn words<'a>(heap: Global, line: &'a str) -> Result<Vec<&'a str>, AllocError>
    ensures { IfOk result (λ found. map bytes found.items ≡ words_of line.now) }
{
    before_comment(line)
        .split(' ')
        .filter(|word| !word.is_empty())
        .collect(heap)
}

// What follows the spaces that a line begins with.
fn after_spaces(line: &[u8]) -> &[u8]
    ensures { result.now ≡ unspaced line.now }
{
    let start = line
        .iter()
        .position(|byte| *byte != b' ')
        .unwrap_or(line.len());
    &line[start..]
}

// Whether a word that stands before `rest` ends there.
fn ends_word(rest: &[u8]) -> bool
    ensures { result ≡ ends_word_of rest.now }
{
    match rest {
        [] | [b' ' | b'#', ..] => true,
        _ => false,
    }
}

// Whether the first word of a line is `book`, whatever follows it. No byte after that word is looked at: a line may be long.
pub fn opens_book(line: &[u8]) -> bool
    ensures { result ≡ opens_book_of line.now }
{
    after_spaces(line)
        .strip_prefix(b"book")
        .is_some_and(|rest| ends_word(rest))
}

// A line as text; only plain text can be read.
fn plain_text(line: &[u8]) -> Result<&str, Unreadable>
    ensures { MatchResult result (λ text. (is_plain line.now ≡ true) × (text.now ≡ line.now)) (λ why. (is_plain line.now ≡ false) × (why ≡ Unreadable.NotAscii)) }
{
    if !line.is_ascii() {
        return Err(Unreadable::NotAscii);
    }
    from_utf8(line).map_err(|_| Unreadable::NotAscii)
}

// What a line says, which holds no line feed: nothing where it has no words, or a command.
pub fn read_line(heap: Global, line: &[u8]) -> Result<Option<Command>, ReadError<Unreadable>>
    ensures { Gives (λ said. said) (λ why. why) result (says_of line.now) }
{
    let text = plain_text(line)?;
    let words = words(heap, text)?;
    if words.is_empty() {
        return Ok(None);
    }
    Ok(Some(command(&words)?))
}
