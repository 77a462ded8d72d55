// Stored yard settings: records in a lent slice, read for a grid, written at the end, and kept down to each grid's last.
#![tactic(auto)]

mod bytes;
mod keeper;
mod kinds;
mod reader;
mod records;
mod table;
mod writer;

pub use keeper::keep_last;
pub use kinds::{Fault, ReadError, Settings, WriteError};
pub use reader::{read_v1, read_v2};
pub use writer::write;
