// Yards made by rows: the tables of a state by name, and drafts.
#![tactic(auto)]

pub mod drafting;
pub mod tables;
