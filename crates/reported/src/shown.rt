// An answer in a line: numbers in decimals, floats by their bits.
use metres::Placing;
use refusal::Refusal;
use std::num::f64_to_bits_with_nan;
use std::{fmt, io};

// A float by its bits.
#[derive(Clone, Copy)]
struct Bits {
    of: f64,
}

impl fmt::Display for Bits {
    fn fmt<W: fmt::Write>(&self, f: &mut fmt::Formatter<W>) -> fmt::Result {
        let x = self.of;
        // A NaN alone differs from itself.
        if x != x {
            return write!(f, "nan");
        }
        let bits = f64_to_bits_with_nan(x);
        write!(f, "{bits:016x}")
    }
}

fn event(rt: &impl Print, e: Placing) -> io::Result<()> {
    let c = e.cell.coord;
    let x = Bits { of: e.offsets.x };
    let y = Bits { of: e.offsets.y };
    let z = Bits { of: e.offsets.z };
    print!(rt; "event entity {} grid {}", e.entity, e.cell.grid)?;
    print!(rt; " cell {} {} {} offset {x} {y} {z}", c.x, c.y, c.z)?;
    match e.margin {
        None => println!(rt; " fix"),
        Some(err) => {
            let bits = Bits { of: err };
            println!(rt; " within {bits}")
        }
    }
}

pub fn line(rt: &impl Print, a: Result<Option<Placing>, Refusal>) -> io::Result<()> {
    match a {
        Ok(Some(e)) => event(rt, e),
        Ok(None) => println!(rt; "no event"),
        Err(r) => println!(rt; "refused {} at {} axis {}", r.number(), r.at(), r.axis()),
    }
}
