// The batches of the cases, and what is told of them.
#![tactic(auto)]

pub mod batches;
pub mod telling;
