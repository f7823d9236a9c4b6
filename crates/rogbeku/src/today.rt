// Where a book stands.
ghost use Rattle.std.specs.Prelude.{◌≡◌, Some};
ghost use Rattle.ledger.specs.View.{view};
ghost use Rattle.rogbeku.specs.Today.{today_text, today_of};

use book::book::Book;
use ledger::records::Stage;
use margin::rule::MarginRule;
use std::fmt;

// The book's number, its day and the stage of the day.
#[derive(Clone, Copy)]
pub struct Today {
    book: u32,
    day: u32,
    stage: Stage,
}

impl fmt::Display for Today {
    ghost output = { λ today. Some (today_text today) };

    fn fmt<W: fmt::Write>(&self, f: &mut fmt::Formatter<W>) -> fmt::Result {
        write!(
            f,
            "book {} day {} stage {}",
            self.book, self.day, self.stage
        )
    }
}

impl Today {
    pub fn of<R: MarginRule>(book: &Book<R>) -> Today
        ensures { result ≡ today_of (view book.now.state) }
    {
        Today {
            book: book.number(),
            day: book.day(),
            stage: book.stage(),
        }
    }
}
