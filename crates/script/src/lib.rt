// The script: records read from bytes, and lines written as bytes.
#![tactic(auto)]

mod kinds;
mod lines;
mod records;

pub use kinds::{Moved, Step, step_len};
pub use lines::{batch_line, cell_line, end_line, entered_line, left_line, open_line, wrong_line};
pub use records::step;
