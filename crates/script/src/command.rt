// What a line of a script can say.
use session::orders::Order;
use words::slip::Shown;

// A margin rule with no addition; sums in fen.
#[derive(Clone, Copy, PartialEq, Eq, Debug)]
pub enum BaseRule {
    Standard,
    Flat(u64),
}

// The margin rule that a book is made with.
#[derive(Clone, Copy, PartialEq, Eq, Debug)]
pub enum RuleName {
    Base(BaseRule),
    AddOn { addition: u64, base: BaseRule },
}

// What a question asks about.
#[derive(Clone, Copy, PartialEq, Eq, Debug)]
pub enum Question {
    Cash(u64),
    Margin(u64),
    Frozen(u64),
    Available(u64),
    Holding { account: u64, contract: u64 },
    Contract(u64),
    DrawLots(u64),
    DrawCash,
    Day,
    Statement,
}

// What one line asks for.
#[derive(Clone, Copy, PartialEq, Eq, Debug)]
pub enum Command {
    Book { number: u32, rule: RuleName },
    Call { slip: Option<Shown>, order: Order },
    Ask(Question),
}
