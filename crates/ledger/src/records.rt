// The records inside a book. A call's fields are 64 bits wide, so that any number can be brought and named in a refusal;
// the records are as narrow as the limits allow. Money is in fen. A number becomes a place by `as`: Rust has no `From` there,
// and a cast that loses bits is refused. A contract's number says its kind, as members write it and
// the definitions read it: an enum would be made of it at each use. The tables are of fixed size,
// on no heap; each is a struct of its own, as a generic one can't hold an array of its parameter.
ghost use Rattle.std.specs.Prelude.{◌≡◌, ◌<◌, Some, length, slice_set};
ghost use Rattle.ledger.specs.Words.{stage_word};

use kinds::terms::{FutureTerms, Holding, OptionTerms};
use std::fmt;

// A holding in each of the twenty contracts: futures 0 to 3, options 4 to 19.
#[derive(Clone, Copy)]
pub struct Holdings {
    pub rows: [Holding; 20],
}

impl Holdings {
    // Changes the holding in one contract, and no other.
    pub fn put(&mut self, contract: usize, holding: Holding)
        requires { contract < 20 }
        ensures { self.new.rows ≡ slice_set self.old.rows contract holding }
    {
        self.rows[contract] = holding;
    }
}

// An account's cash and its holdings.
#[derive(Clone, Copy)]
pub struct Account {
    pub cash: i128,
    pub holdings: Holdings,
}

// A listed contract: its terms, the price carried for it in fen a unit, and its margin rate in fen a lot.
#[derive(Clone, Copy)]
pub struct Contract<T> {
    pub terms: T,
    pub carried: u32,
    pub rate: u64,
}

// The sixteen option rows: row 0 is option 4.
#[derive(Clone, Copy)]
pub struct OptionTable {
    pub rows: [Option<Contract<OptionTerms>>; 16],
}

impl OptionTable {
    // Lists an option in a row; every other row stays.
    pub fn put(&mut self, row: usize, option: Contract<OptionTerms>)
        requires { row < 16 }
        ensures { self.new.rows ≡ slice_set self.old.rows row (Some option) }
    {
        self.rows[row] = Some(option);
    }
}

// What a request asks for.
#[derive(Clone, Copy, PartialEq, Eq)]
pub enum Wish {
    Exercise,
    Abandon,
}

// An instruction freezes what it needs when it is accepted; a service request freezes nothing.
#[derive(Clone, Copy, PartialEq, Eq)]
pub enum Channel {
    Instruction,
    Service,
}

// A live request. A place of the day's table that no request has taken is `None`.
#[derive(Clone, Copy)]
pub struct Request {
    pub option: u32,
    pub account: u32,
    pub wish: Wish,
    pub channel: Channel,
    pub lots: u32,
}

// The stage of a day: trading, then after the cut, and in between while a draw is open.
#[derive(Clone, Copy, PartialEq, Eq, Debug)]
pub enum Stage {
    Trading,
    Cut,
    Draw,
}

impl Stage {
    // Its word.
    pub fn word(self) -> &'static str
        ensures { result.now ≡ stage_word self }
    {
        match self {
            Stage::Trading => "trading",
            Stage::Cut => "cut",
            Stage::Draw => "draw",
        }
    }
}

impl fmt::Display for Stage {
    ghost output = { λ stage. Some (stage_word stage) };

    fn fmt<W: fmt::Write>(&self, f: &mut fmt::Formatter<W>) -> fmt::Result {
        f.write_str(self.word())
    }
}

// The day's request table. That it has its places stands in its type, as every array of this size does, so that no reader has to ask.
#[derive(Clone, Copy)]
pub struct RequestTable {
    pub places: [Option<Request>; 256],
    pub ghost whole: { length places ≡ 256 },
}

// What a slip bears: the book's number, the day and the stage that it was given for.
#[derive(Clone, Copy)]
pub struct Slip {
    pub number: u32,
    pub day: u32,
    pub stage: Stage,
}

// What buyers have given up and sellers do not have yet, while a draw is open: lots and cash, as an account has them. It is no account,
// so it has a type of its own.
#[derive(Clone, Copy)]
pub struct OpenDraw {
    pub cash: i128,
    pub holdings: Holdings,
}

// All that a book holds, whatever stands in it.
#[derive(Clone, Copy)]
pub struct Record {
    pub number: u32,
    pub day: u32,
    pub stage: Stage,
    pub accounts: [Account; 32],
    pub futures: [Option<Contract<FutureTerms>>; 4],
    pub options: OptionTable,
    pub requests: RequestTable,
    pub draw: Option<OpenDraw>,
}

// What a call that was carried out tells.
#[derive(Clone, Copy, PartialEq, Eq, Debug)]
pub enum Reply {
    Done,
}

pub const NO_LOTS: Holding = Holding { long: 0, short: 0 };

pub const OPENED: Account = Account {
    cash: 0,
    holdings: Holdings {
        rows: [NO_LOTS; 20],
    },
};
