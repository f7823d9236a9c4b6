// A book's record, and what every book keeps true of it.
ghost use Rattle.ledger.specs.Kept.{Kept};
ghost use Rattle.ledger.specs.Read.{read};

use crate::records::Record;

// Whatever changes it keeps the invariant of books, which stands in its type.
#[derive(Clone, Copy)]
pub struct State {
    pub held: Record,
    pub ghost kept: { Kept (read held) },
}
