// Plays the cases of the files that its arguments name, and tells under each heading how many rows asked and how many answers differed.
#![tactic(auto)]

mod files;
mod playing;

use case_batches::telling::Report;
use playing::Bench;
use std::env::{Env, FillError};
use std::io;

fn main(rt: HostRuntime) -> io::Result<()> {
    let mut report = Report::new();
    let mut bench = Bench::new();
    let mut out = rt.stdout();
    for i in 1..usize::MAX {
        let mut name = [0u8; 4096];
        let n = match rt.arg(i, &mut name) {
            Ok(n) => n,
            Err(FillError::TooLong) => 0,
            Err(FillError::NotPresent) => break,
        };
        files::play_file(&rt, &mut out, &mut report, &mut bench, &name[..n])?;
    }
    report.tell_all(&mut out)
}
