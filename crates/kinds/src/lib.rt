// Contract kinds: what a lot of each moves in cash, what a holding of it has to be backed by, and on which side an option's parties enter its future.
#![tactic(auto)]

pub mod future;
pub mod kind;
pub mod option;
pub mod rate;
pub mod right;
pub mod side;
pub mod terms;
