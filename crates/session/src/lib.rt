// The calls of the trading session, over the record of a book: for each the check of its rows, and the call, which changes the book where no row refuses it.
#![tactic(auto)]

pub mod deposit;
pub mod limits;
pub mod list_future;
pub mod list_option;
pub mod orders;
pub mod payment;
pub mod withdraw;
