// The lines of a script are written: what answers a batch, and what a script ends by.
#![tactic(auto)]

mod answering;
mod lines;

pub use answering::answer;
pub use lines::{Line, Place, flush, put};
