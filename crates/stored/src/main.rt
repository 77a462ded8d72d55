// Stored settings at the ends of what is allowed: the calls of standard input's rows, what each answers, and the bytes after it.
#![tactic(auto)]

mod calls;
mod playing;
mod shown;

use script_reader::read_full;
use std::io;

fn main(rt: HostRuntime) -> io::Result<()> {
    let mut text = [0u8; 65536];
    let n = read_full(&mut rt.stdin(), &mut text)?;
    playing::play(&mut rt.stdout(), &text[..n])
}
