// Ten thousand records are written and each grid's last is kept, to be timed from outside: of as many grids, and of a hundred.
#![tactic(auto)]

use settings::{ReadError, Settings};
use std::io;

// A record of a grid is written behind the first n bytes; the new length, or n where there is no room.
fn add(s: &mut [u8], n: usize, grid: u64) -> usize {
    let a = Settings {
        edge: 4,
        kind: 26,
        x: 100,
        y: -50,
        z: 0,
    };
    settings::write(s, n, grid, a).unwrap_or(n)
}

// How the grids of the records lie.
#[derive(Clone, Copy)]
enum Pattern {
    // 10,000 near one another.
    Near,
    // 10,000 far apart.
    Far,
    // A hundred, again and again.
    Few,
}

// The grid of record i.
fn grid(pattern: Pattern, i: u64) -> u64 {
    let k = i % 10_000;
    match pattern {
        Pattern::Near => k,
        Pattern::Far => k * 1_000_000_006,
        Pattern::Few => k % 100 * 40_000,
    }
}

// Ten thousand records are written.
fn fill(s: &mut [u8], pattern: Pattern) -> usize {
    (0..10_000).fold(0, |n, i| add(s, n, grid(pattern, i)))
}

// They are written, and each grid's last is kept.
fn run(rt: &impl Print, s: &mut [u8], scratch: &mut [u64], pattern: Pattern) -> io::Result<()> {
    let n = fill(s, pattern);
    match settings::keep_last(s, n, scratch) {
        Ok(kept) => println!(rt; "{n} bytes, kept {kept}"),
        Err(ReadError::Overlong) => println!(rt; "{n} overlong"),
        Err(ReadError::Faulty(_, at)) => println!(rt; "{n} faulty at {at}"),
    }
}

fn main(rt: HostRuntime) -> io::Result<()> {
    let mut s = [0; 240_000];
    let mut scratch = [0; 40_000];
    for pattern in [Pattern::Near, Pattern::Far, Pattern::Few] {
        run(&rt, &mut s, &mut scratch, pattern)?;
    }
    Ok(())
}
