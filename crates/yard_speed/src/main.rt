// Runs updates in a yard, to be timed from outside. Each line of standard input is a letter and a count:
// `f` batches of one event and `F` batches of 1,024 events in a full yard, `s` and `S` the same in a small one, and `c` tests of the
// full yard's consistency. A line with the count 0 makes the yard alone. Touching means 26 neighbours; the next letter of the alphabet
// asks for the same where it means 6: `g`, `G`, `t`, `T` and `d`.
#![tactic(auto)]

mod events;
mod work;

use layout::{CELL_COUNT, EMPTIED_COUNT, ENTITY_COUNT, GROUP_COUNT, NEXT_ID, OCCUPIED_COUNT};
use script_reader::read_full;
use std::io;
use std::io::Input;
use work::{Job, Yard};

// A count with one byte more: another digit at its end, or the count itself.
fn with_byte(count: u64, b: u8) -> u64 {
    if b.is_ascii_digit() {
        count % 1_000_000_000 * 10 + u64::from(b - b'0')
    } else {
        count
    }
}

// What a line asks for is done, and told in a line.
fn do_line(rt: &impl Print, yard: &mut Yard, letter: u8, line: &[u8]) -> io::Result<()> {
    let count = line.iter().fold(0, |count, b| with_byte(count, *b));
    let accepted = yard.run_all(Job::of(letter), count);
    let state = &yard.state;
    let entities = state[ENTITY_COUNT];
    let cells = state[CELL_COUNT];
    let entered = state[OCCUPIED_COUNT];
    let left = state[EMPTIED_COUNT];
    let groups = state[GROUP_COUNT];
    let next = state[NEXT_ID];
    let checksum = yard.checksum();
    rt.write_all(&[letter])?;
    print!(rt;
        " {count}: accepted {accepted}, entities {entities}, cells {cells}, new {entered}, left {left}"
    )?;
    println!(rt; ", groups {groups}, next id {next}, checksum {checksum}")
}

// All lines are done, up to an empty one.
fn do_all(rt: &impl Print, yard: &mut Yard, text: &[u8]) -> io::Result<()> {
    for line in text.split(|b| *b < b' ') {
        let Some(letter) = line.first() else {
            return Ok(());
        };
        do_line(rt, yard, *letter, line)?;
    }
    Ok(())
}

fn main(rt: HostRuntime) -> io::Result<()> {
    let mut text = [0u8; 4096];
    let n = read_full(&mut rt.reader(), &mut text)?;
    let mut yard = Yard::new();
    do_all(&rt, &mut yard, &text[..n])
}
