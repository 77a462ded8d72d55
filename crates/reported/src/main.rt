// Reports at the ends of what is allowed, and what each makes in its frame.
#![tactic(auto)]

mod cases;
mod shown;

use std::io;

fn main(rt: HostRuntime) -> io::Result<()> {
    let zero = 0.0;
    cases::all(&rt, 0.0 / zero, 1.0 / zero)
}
