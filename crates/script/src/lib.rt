// The reader of a script: the commands that its lines say, or why a line says none.
#![tactic(auto)]

pub mod command;
pub mod error;
pub mod line;
pub mod opening;
pub mod parser;
pub mod reading;
pub mod shape;
