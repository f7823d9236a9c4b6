// The refusals: every reason for which a call is turned down, with the number, the layer and the place that it is told by.
#![tactic(auto)]

ghost use Rattle.std.specs.Prelude.{◌≡◌, Some};
ghost use Rattle.refusals.specs.Told.{told};
ghost use Rattle.refusals.specs.Words.{layer_word, refusal_text};

use std::error::Error;
use std::fmt;

// The layer of the book that turned the call down.
#[derive(Clone, Copy, PartialEq, Eq, Debug)]
pub enum Layer {
    Day,
    Book,
    Holding,
    Funds,
}

impl Layer {
    // Its word.
    pub fn word(self) -> &'static str
        ensures { result.now ≡ layer_word self }
    {
        match self {
            Layer::Day => "day",
            Layer::Book => "book",
            Layer::Holding => "holding",
            Layer::Funds => "funds",
        }
    }
}

impl fmt::Display for Layer {
    ghost output = { λ layer. Some (layer_word layer) };

    fn fmt<W: fmt::Write>(&self, f: &mut fmt::Formatter<W>) -> fmt::Result {
        f.write_str(self.word())
    }
}

// Each case holds its place: the number of a book, an account, a contract or a request, or the rank of a field.
#[derive(Clone, Copy, PartialEq, Eq, Debug)]
pub enum Refusal {
    // the slip's book number, day or stage is not the book's; the slip's book number
    WrongSlip(u64),
    // no such account or contract, or a contract of another kind, or one account on both sides; that number
    NoSuch(u64),
    // a field outside its limits or off its tick, or a list that is too short; the field's rank
    OutOfLimits(u64),
    // a listing at a number in use, or no room for another request; the number
    Occupied(u64),
    // not on this day; the option, or 0
    WrongDay(u64),
    // more lots than are free or held, or an opening past the limit of a holding; the account
    BeyondHolding(u64),
    // available funds would fall below 0; the account
    ShortOfFunds(u64),
    // cash or futures lots beyond the range that the book carries; the account
    BeyondRange(u64),
    // a step of the evening repeated, or before the step that it needs; the contract
    OutOfTurn(u64),
    // a request that is not live; the request
    NotLive(u64),
}

impl Refusal {
    pub fn number(&self) -> u32
        ensures { result ≡ (told self.now).number }
    {
        match self {
            Refusal::WrongSlip(_) => 1,
            Refusal::NoSuch(_) => 2,
            Refusal::OutOfLimits(_) => 3,
            Refusal::Occupied(_) => 4,
            Refusal::WrongDay(_) => 5,
            Refusal::BeyondHolding(_) => 6,
            Refusal::ShortOfFunds(_) => 7,
            Refusal::BeyondRange(_) => 8,
            Refusal::OutOfTurn(_) => 9,
            Refusal::NotLive(_) => 10,
        }
    }

    pub fn layer(&self) -> Layer
        ensures { result ≡ (told self.now).layer }
    {
        match self {
            Refusal::WrongSlip(_) | Refusal::WrongDay(_) | Refusal::OutOfTurn(_) => Layer::Day,
            Refusal::NoSuch(_)
            | Refusal::OutOfLimits(_)
            | Refusal::Occupied(_)
            | Refusal::NotLive(_) => Layer::Book,
            Refusal::BeyondHolding(_) => Layer::Holding,
            Refusal::ShortOfFunds(_) | Refusal::BeyondRange(_) => Layer::Funds,
        }
    }

    pub fn place(&self) -> u64
        ensures { result ≡ (told self.now).place }
    {
        match self {
            Refusal::WrongSlip(place)
            | Refusal::NoSuch(place)
            | Refusal::OutOfLimits(place)
            | Refusal::Occupied(place)
            | Refusal::WrongDay(place)
            | Refusal::BeyondHolding(place)
            | Refusal::ShortOfFunds(place)
            | Refusal::BeyondRange(place)
            | Refusal::OutOfTurn(place)
            | Refusal::NotLive(place) => *place,
        }
    }
}

impl fmt::Display for Refusal {
    ghost output = { λ refusal. Some (refusal_text refusal) };

    fn fmt<W: fmt::Write>(&self, f: &mut fmt::Formatter<W>) -> fmt::Result {
        write!(
            f,
            "refused {} {} {}",
            self.number(),
            self.layer(),
            self.place()
        )
    }
}

impl Error for Refusal {}
