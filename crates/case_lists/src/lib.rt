// The lists and the floods that questions answer, as the text of a row.
#![tactic(auto)]

pub mod items;
