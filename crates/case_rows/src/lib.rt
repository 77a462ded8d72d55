// The rows of the cases: their words and numbers, a yard's words, and the text of an answer.
#![tactic(auto)]

pub mod keys;
pub mod reading;
pub mod writing;
pub mod yards;
