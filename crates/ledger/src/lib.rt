// What a book holds, what it stands for, and what is read off it. The calls that change it are in the layers above.
#![tactic(auto)]

pub mod account;
pub mod funds;
pub mod listed;
pub mod making;
pub mod questions;
pub mod records;
pub mod setters;
pub mod slip;
pub mod state;
