// The lines of a script.
use kinds::terms::Style;
use margin::rule::Right;
use script::command::{BaseRule, Command, Question, RuleName};
use script::error::ReadError;
use script::line::{opens_book, read_line};
use session::orders::{Deposit, OptionListing, Order};
use std::test::Fail;
use words::slip::Shown;

fn said(rt: &HostRuntime, line: &str) -> Result<Command, Fail> {
    match read_line(rt.alloc(), line.as_bytes()) {
        Ok(Some(command)) => Ok(command),
        Err(ReadError::Memory(error)) => Err(error.into()),
        _ => Err(Fail::new(line)),
    }
}

// Why a line cannot be read.
fn told(rt: &HostRuntime, line: &str) -> Result<&'static str, Fail> {
    match read_line(rt.alloc(), line.as_bytes()) {
        Err(ReadError::Text(why)) => Ok(why.reason()),
        Err(ReadError::Memory(error)) => Err(error.into()),
        Ok(Some(_)) => Ok("a command"),
        Ok(None) => Ok("nothing"),
    }
}

static QUESTIONS: [(&str, Question); 10] = [
    ("cash 1", Question::Cash(1)),
    ("margin 1", Question::Margin(1)),
    ("frozen 1", Question::Frozen(1)),
    ("available 1", Question::Available(1)),
    (
        "holding 1 2",
        Question::Holding {
            account: 1,
            contract: 2,
        },
    ),
    ("contract 1", Question::Contract(1)),
    ("drawlots 1", Question::DrawLots(1)),
    ("drawcash", Question::DrawCash),
    ("  day   # which?", Question::Day),
    ("statement", Question::Statement),
];

#[test]
fn questions(rt: HostRuntime) -> Result<(), Fail> {
    for (line, question) in &QUESTIONS {
        assert_eq!(rt; said(&rt, line)?, Command::Ask(*question), "{}", *line);
    }
    Ok(())
}

static BOOKS: [(&str, RuleName); 4] = [
    ("book 8 standard", RuleName::Base(BaseRule::Standard)),
    ("book 8 flat 70", RuleName::Base(BaseRule::Flat(70))),
    (
        "book 8 addon 5 standard",
        RuleName::AddOn {
            addition: 5,
            base: BaseRule::Standard,
        },
    ),
    (
        "book 8 addon 5 flat 70",
        RuleName::AddOn {
            addition: 5,
            base: BaseRule::Flat(70),
        },
    ),
];

#[test]
fn books(rt: HostRuntime) -> Result<(), Fail> {
    for (line, rule) in &BOOKS {
        let made = Command::Book {
            number: 8,
            rule: *rule,
        };
        assert_eq!(rt; said(&rt, line)?, made, "{}", *line);
    }
    Ok(())
}

#[test]
fn calls(rt: HostRuntime) -> Result<(), Fail> {
    assert_eq!(rt;
        said(&rt, "@8.1 deposit 3 0100# paid in")?,
        Command::Call {
            slip: Some(Shown { book: 8, day: 1 }),
            order: Order::Deposit(Deposit {
                account: 3,
                amount: 100
            }),
        }
    );
    assert_eq!(rt;
        said(&rt, "option 1 2 put european 3 4 5 6")?,
        Command::Call {
            slip: None,
            order: Order::ListOption(OptionListing {
                number: 1,
                future: 2,
                right: Right::Put,
                style: Style::European,
                strike: 3,
                tick: 4,
                last_day: 5,
                price: 6,
            }),
        }
    );
    Ok(())
}

static LINES: [(&str, &str); 20] = [
    ("   # nothing", "nothing"),
    ("withdraw 1 2", "a command"),
    ("future 1 2 3 4 5", "a command"),
    ("option 1 2 call american 3 4 5 6", "a command"),
    ("@8.1 cash 0", "no slip here"),
    ("@8.1 book 8 standard", "no slip here"),
    ("@8 deposit 0 100", "not a slip"),
    ("@8.1 @8.1 deposit 0 100", "not a slip"),
    ("@8.1", "a word is missing"),
    ("deposit 0", "a word is missing"),
    ("book 8", "a word is missing"),
    ("deposit 0 100 1", "a word too many"),
    ("day 1", "a word too many"),
    ("deposit 0 1a", "not a number that fits"),
    ("book 4294967296 standard", "not a number that fits"),
    ("book 8 addon 5 addon 5 standard", "unknown word"),
    ("option 4 0 Put american 1 1 1 1", "unknown word"),
    ("deposit\t0 100", "unknown word"),
    ("day\r", "unknown word"),
    ("day # caf\u{e9}", "not plain text"),
];

#[test]
fn lines(rt: HostRuntime) -> Result<(), Fail> {
    for (line, why) in &LINES {
        assert_eq!(rt; told(&rt, line)?, *why, "{}", *line);
    }
    Ok(())
}

static OTHERS: [&str; 9] = [
    "trade 0 1 1 0 1 open open",
    "net 0 0 1",
    "request 4 0 exercise service 1",
    "cancel 0",
    "cut",
    "price 0 1",
    "draw 4",
    "lay 1 list",
    "clear",
];

#[test]
fn other_words(rt: HostRuntime) -> Result<(), Fail> {
    for line in &OTHERS {
        assert_eq!(rt; told(&rt, line)?, "unknown word", "{}", *line);
    }
    Ok(())
}

static OPENINGS: [(&str, bool); 7] = [
    ("book", true),
    ("  book x", true),
    ("book#", true),
    ("books", false),
    ("boo", false),
    ("# book", false),
    ("book\t", false),
];

#[test]
fn book_lines(rt: HostRuntime) {
    for (line, is) in &OPENINGS {
        assert_eq!(rt; opens_book(line.as_bytes()), *is, "{}", *line);
    }
}
