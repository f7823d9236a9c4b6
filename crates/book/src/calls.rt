// Written calls: any values, and a slip that bears any numbers.
ghost use Rattle.std.specs.Prelude.{◌≡◌};
ghost use Rattle.ledger.specs.View.{view};
ghost use Rattle.book.specs.Acts.{act, stepped, Performed};

use crate::book::Book;
use crate::slips::TradingSlip;
use ledger::records::Reply;
use margin::rule::MarginRule;
use refusals::Refusal;
use session::orders::Order;

// A call as it is written down: the book number and the day on the slip that it shows, and what it asks for.
#[derive(Clone, Copy)]
pub struct Call {
    pub book: u32,
    pub day: u32,
    pub order: Order,
}

// The answer to a written call.
pub type Answer = Result<Reply, Refusal>;

impl<R: MarginRule> Book<R> {
    // Carries out one written call.
    pub fn perform(&mut self, call: &Call) -> Answer
        ensures performs { Performed (stepped (R.MarginRule.meaning self.old.rule) (view self.old.state) (act call.now)) self.old.state self.new.state result }
        ensures rule { self.new.rule ≡ self.old.rule }
    {
        let slip = TradingSlip::bearing(call.book, call.day);
        match call.order {
            Order::Deposit(order) => self.deposit(&slip, order)?,
            Order::Withdraw(order) => self.withdraw(&slip, order)?,
            Order::ListFuture(order) => self.list_future(&slip, order)?,
            Order::ListOption(order) => self.list_option(&slip, order)?,
        }
        Ok(Reply::Done)
    }
}
