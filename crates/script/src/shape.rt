// The shape of each command: which words follow the one that it opens with.
ghost use Rattle.std.specs.Prelude.{◌≡◌, ◌<◌, map};
ghost use Rattle.words.specs.Words.{bytes};
ghost use Rattle.script.specs.Shapes.{one_number, two_numbers, future_of, option_of, order_of, ruled, rule_of, alone_of, question_of};

use crate::command::{BaseRule, Question, RuleName};
use session::orders::{Deposit, FutureListing, OptionListing, Order, Withdrawal};
use words::keyword::{CallWord, QuestionWord, RuleWord};
use words::unreadable::Unreadable;
use words::word::{end, read_at};

// An account, or a contract. It is a function apart from `two`: an array of as many numbers would name none of them.
fn one(words: &[&str]) -> Result<u64, Unreadable>
    ensures { result ≡ one_number (map bytes words.now) }
{
    let number = read_at(words, 1)?;
    end(words, 2)?;
    Ok(number)
}

// An account, with an amount or a contract.
fn two(words: &[&str]) -> Result<(u64, u64), Unreadable>
    ensures { result ≡ two_numbers (map bytes words.now) }
{
    let first = read_at(words, 1)?;
    let second = read_at(words, 2)?;
    end(words, 3)?;
    Ok((first, second))
}

// future NUMBER SIZE TICK RATE PRICE
pub fn future_listing(words: &[&str]) -> Result<FutureListing, Unreadable>
    ensures { result ≡ future_of (map bytes words.now) }
{
    let listing = FutureListing {
        number: read_at(words, 1)?,
        units: read_at(words, 2)?,
        tick: read_at(words, 3)?,
        ratio: read_at(words, 4)?,
        price: read_at(words, 5)?,
    };
    end(words, 6)?;
    Ok(listing)
}

// option NUMBER FUTURE call|put american|european STRIKE TICK LASTDAY PRICE
pub fn option_listing(words: &[&str]) -> Result<OptionListing, Unreadable>
    ensures { result ≡ option_of (map bytes words.now) }
{
    let listing = OptionListing {
        number: read_at(words, 1)?,
        future: read_at(words, 2)?,
        right: read_at(words, 3)?,
        style: read_at(words, 4)?,
        strike: read_at(words, 5)?,
        tick: read_at(words, 6)?,
        last_day: read_at(words, 7)?,
        price: read_at(words, 8)?,
    };
    end(words, 9)?;
    Ok(listing)
}

// Any call, by the word that it opens with: deposit ACCOUNT AMOUNT, withdraw ACCOUNT AMOUNT, or a listing
pub fn order(call: CallWord, words: &[&str]) -> Result<Order, Unreadable>
    ensures { result ≡ order_of call (map bytes words.now) }
{
    match call {
        CallWord::Deposit => {
            let (account, amount) = two(words)?;
            Ok(Order::Deposit(Deposit { account, amount }))
        }
        CallWord::Withdraw => {
            let (account, amount) = two(words)?;
            Ok(Order::Withdraw(Withdrawal { account, amount }))
        }
        CallWord::Future => future_listing(words).map(Order::ListFuture),
        CallWord::Option => option_listing(words).map(Order::ListOption),
    }
}

// What follows the word of a rule with no addition, which is read already: nothing, or SUM, with which the line ends.
fn base_rule(words: &[&str], place: usize, word: RuleWord) -> Result<BaseRule, Unreadable>
    requires { place < 5 }
    ensures { result ≡ ruled (map bytes words.now) place word }
{
    match word {
        RuleWord::Standard => {
            end(words, place + 1)?;
            Ok(BaseRule::Standard)
        }
        RuleWord::Flat => {
            let sum = read_at(words, place + 1)?;
            end(words, place + 2)?;
            Ok(BaseRule::Flat(sum))
        }
        RuleWord::AddOn => Err(Unreadable::UnknownWord),
    }
}

// book NUMBER standard, book NUMBER flat SUM, or book NUMBER addon A before one of these rules
pub fn rule(words: &[&str]) -> Result<RuleName, Unreadable>
    ensures { result ≡ rule_of (map bytes words.now) }
{
    let word = read_at(words, 2)?;
    match word {
        RuleWord::Standard | RuleWord::Flat => base_rule(words, 2, word).map(RuleName::Base),
        RuleWord::AddOn => {
            let addition = read_at(words, 3)?;
            let base = base_rule(words, 4, read_at(words, 4)?)?;
            Ok(RuleName::AddOn { addition, base })
        }
    }
}

// A question of one word.
fn alone(question: Question, words: &[&str]) -> Result<Question, Unreadable>
    ensures { result ≡ alone_of question (map bytes words.now) }
{
    end(words, 1)?;
    Ok(question)
}

// Any question, by the word that it opens with.
pub fn question(question: QuestionWord, words: &[&str]) -> Result<Question, Unreadable>
    ensures { result ≡ question_of question (map bytes words.now) }
{
    match question {
        QuestionWord::Cash => one(words).map(Question::Cash),
        QuestionWord::Margin => one(words).map(Question::Margin),
        QuestionWord::Frozen => one(words).map(Question::Frozen),
        QuestionWord::Available => one(words).map(Question::Available),
        QuestionWord::Holding => {
            let (account, contract) = two(words)?;
            Ok(Question::Holding { account, contract })
        }
        QuestionWord::Contract => one(words).map(Question::Contract),
        QuestionWord::DrawLots => one(words).map(Question::DrawLots),
        QuestionWord::DrawCash => alone(Question::DrawCash, words),
        QuestionWord::Day => alone(Question::Day, words),
        QuestionWord::Statement => alone(Question::Statement, words),
    }
}
