// The book: the public calls and questions. The promise of each is an equation for every input.
#![tactic(auto)]

pub mod book;
pub mod calls;
pub mod slips;
