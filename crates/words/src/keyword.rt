// The words that a script's commands are spelt with, in lower case.
ghost use Rattle.std.specs.Prelude.{◌≡◌};
ghost use Rattle.words.specs.Reasons.{unknown_of};
ghost use Rattle.words.specs.Keywords.{opening_of, right_of, style_of, rule_word_of};

use crate::unreadable::Unreadable;
use crate::word::Word;
use kinds::terms::Style;
use margin::rule::Right;

// A call of the session.
#[derive(Clone, Copy)]
pub enum CallWord {
    Deposit,
    Withdraw,
    Future,
    Option,
}

// A question, by its word.
#[derive(Clone, Copy)]
pub enum QuestionWord {
    Cash,
    Margin,
    Frozen,
    Available,
    Holding,
    Contract,
    DrawLots,
    DrawCash,
    Day,
    Statement,
}

// What the word says that a command opens with.
#[derive(Clone, Copy)]
pub enum Opening {
    Book,
    Call(CallWord),
    Question(QuestionWord),
}

// A margin rule, by its word.
#[derive(Clone, Copy)]
pub enum RuleWord {
    Standard,
    Flat,
    AddOn,
}

// Why a word is no keyword; a missing one is empty.
fn unknown(word: &str) -> Unreadable
    ensures { result ≡ unknown_of word.now }
{
    match word.as_bytes() {
        [] => Unreadable::MissingWord,
        [b'@', ..] => Unreadable::NotSlip,
        _ => Unreadable::UnknownWord,
    }
}

impl Word for Opening {
    ghost meaning = { opening_of };

    fn read(word: &str) -> Result<Opening, Unreadable> {
        match word {
            "book" => Ok(Opening::Book),
            "deposit" => Ok(Opening::Call(CallWord::Deposit)),
            "withdraw" => Ok(Opening::Call(CallWord::Withdraw)),
            "future" => Ok(Opening::Call(CallWord::Future)),
            "option" => Ok(Opening::Call(CallWord::Option)),
            "cash" => Ok(Opening::Question(QuestionWord::Cash)),
            "margin" => Ok(Opening::Question(QuestionWord::Margin)),
            "frozen" => Ok(Opening::Question(QuestionWord::Frozen)),
            "available" => Ok(Opening::Question(QuestionWord::Available)),
            "holding" => Ok(Opening::Question(QuestionWord::Holding)),
            "contract" => Ok(Opening::Question(QuestionWord::Contract)),
            "drawlots" => Ok(Opening::Question(QuestionWord::DrawLots)),
            "drawcash" => Ok(Opening::Question(QuestionWord::DrawCash)),
            "day" => Ok(Opening::Question(QuestionWord::Day)),
            "statement" => Ok(Opening::Question(QuestionWord::Statement)),
            _ => Err(unknown(word)),
        }
    }
}

impl Word for Right {
    ghost meaning = { right_of };

    fn read(word: &str) -> Result<Right, Unreadable> {
        match word {
            "call" => Ok(Right::Call),
            "put" => Ok(Right::Put),
            _ => Err(unknown(word)),
        }
    }
}

impl Word for Style {
    ghost meaning = { style_of };

    fn read(word: &str) -> Result<Style, Unreadable> {
        match word {
            "american" => Ok(Style::American),
            "european" => Ok(Style::European),
            _ => Err(unknown(word)),
        }
    }
}

impl Word for RuleWord {
    ghost meaning = { rule_word_of };

    fn read(word: &str) -> Result<RuleWord, Unreadable> {
        match word {
            "standard" => Ok(RuleWord::Standard),
            "flat" => Ok(RuleWord::Flat),
            "addon" => Ok(RuleWord::AddOn),
            _ => Err(unknown(word)),
        }
    }
}
