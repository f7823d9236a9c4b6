// Margin rules: what a lot of a future, and a short lot of an option, has to be backed by.
#![tactic(auto)]

pub mod add_on;
pub mod flat;
mod lots;
pub mod rule;
pub mod standard;
pub mod unmade;
