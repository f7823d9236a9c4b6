// Whole scripts.
use script::error::ReadError;
use script::reading::{Fault, Line, script};
use std::alloc::Global;
use std::test::Fail;

// The lines that say a command.
fn read(heap: Global, lines: Vec<Line>) -> Result<String, Fail> {
    let mut told = String::new(heap);
    for line in lines {
        write!(told, "{};", line.number)?;
    }
    Ok(told)
}

// The lines that say none.
fn unread(heap: Global, faults: Vec<Fault>) -> Result<String, Fail> {
    let mut told = String::new(heap);
    for fault in faults {
        write!(told, "{}: {};", fault.line, fault.why)?;
    }
    Ok(told)
}

static SCRIPTS: [(&[u8], &str); 13] = [
    (
        b"# a day\n\nbook 8 standard\n   \nday# now\ncash 0",
        "3;5;6;",
    ),
    (b"book 8 standard\n\n", "1;"),
    (b"", "1: no book is made;"),
    (b"\n# nothing\n", "1: no book is made;"),
    (b"\nday\nday\n", "2: no book is made;"),
    (b"cut\nclear\n", "1: unknown word;2: unknown word;"),
    (b"\ncut\n", "1: no book is made;2: unknown word;"),
    (b"cut\nbook 8 standard\nday", "1: unknown word;"),
    (
        b"day\nbook 8 standard",
        "1: no book is made;2: the book is made too late;",
    ),
    (
        b"book 8 standard\nday 1\nbook 8 standard",
        "2: a word too many;3: a second book;",
    ),
    (b"book x standard\nday\n", "1: not a number that fits;"),
    (b"book 8 \xff\nday\n", "1: not plain text;"),
    (
        b"book 8\nbook 8 standard\n",
        "1: a word is missing;2: a second book;",
    ),
];

#[test]
fn scripts(rt: HostRuntime) -> Result<(), Fail> {
    for (text, told) in &SCRIPTS {
        let said = match script(rt.alloc(), text) {
            Ok(lines) => read(rt.alloc(), lines)?,
            Err(ReadError::Text(faults)) => unread(rt.alloc(), faults)?,
            Err(ReadError::Memory(error)) => return Err(error.into()),
        };
        assert_eq!(rt; said.as_str(), *told, "{}", *told);
    }
    Ok(())
}
