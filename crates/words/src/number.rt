// Numbers as a script writes them.
ghost use Rattle.std.specs.Prelude.{◌≡◌};
ghost use Rattle.words.specs.Numbers.{read_number};

// The number that decimal digits write, leading zeros allowed, if it is at most `most`; a sign is no digit.
pub fn number(word: &str, most: u64) -> Option<u64>
    ensures { result ≡ read_number word.now most }
{
    if word.starts_with('+') {
        return None;
    }
    word.parse::<u64>().ok().filter(|value| *value <= most)
}

// A number of a book or a day: at most 2^32 - 1.
pub fn short_number(word: &str) -> Option<u32>
    ensures { result ≡ read_number word.now 4294967295 }
{
    let value = number(word, u64::from(u32::MAX))?;
    u32::try_from(value).ok()
}
