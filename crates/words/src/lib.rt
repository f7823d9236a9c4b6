// The words of a script: numbers, slips, keywords, and why a word cannot be read.
#![tactic(auto)]

pub mod keyword;
pub mod number;
pub mod slip;
pub mod unreadable;
pub mod word;
