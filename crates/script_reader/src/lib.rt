// The records of a script are read, batch by batch.
#![tactic(auto)]

ghost use Rattle.std.specs.Prelude.{◌≡◌, ◌+◌, ◌<◌, ◌≤◌, length, take, IfOk};
ghost use Rattle.std.specs.Io.{ReadsAtMost};
ghost use Rattle.std.specs.Io.KnownBytes.{Consumes, IsAtEnd};
ghost use Rattle.script.specs.Records.{step_len};
ghost use Rattle.script_reader.specs.Places.{Reads, Counts, Gathers, MovesOn};

use layout::{MOST_EVENTS, MOVE_WIDTH};
use script::{Moved, Step, step, step_len};
use std::io;
use std::io::Read;

// How many words the moves of a batch have at most.
pub const MOVES_LEN: usize = MOVE_WIDTH * MOST_EVENTS;

// Bytes `at` to `end` of the buffer are still to be read; the buffer's first byte is number `base` of the input; `last` says that the
// input has no bytes behind the buffer's.
// `last` is a flag of its own, as `step` takes it beside the bytes.
#[derive(Clone, Copy, Debug, PartialEq, Eq)]
pub struct Reader {
    pub at: usize,
    pub end: usize,
    pub base: u64,
    pub last: bool,
}

// How many removals and moves are kept of a batch, and whether there were more than are kept; the counts tell of those that are kept
// either way.
#[derive(Clone, Copy, Debug, PartialEq, Eq)]
pub struct Events {
    pub removals: usize,
    pub moves: usize,
    pub over: bool,
}

// Why the records of a batch end.
#[derive(Clone, Copy, Debug, PartialEq, Eq)]
pub enum Ending {
    // By a record that runs the batch.
    Run,
    // By a wrong mark or a cut record.
    Bad,
    // By the end of the input.
    Out,
}

// What is read of a batch.
#[derive(Clone, Copy, Debug, PartialEq, Eq)]
pub struct Gathered {
    pub reader: Reader,
    pub events: Events,
    // None while the records do not end yet.
    pub ending: Option<Ending>,
}

// Nothing is read yet.
pub fn first_reader() -> Reader
    ensures { (result.at ≡ 0) × (result.end ≡ 0) }
{
    Reader {
        at: 0,
        end: 0,
        base: 0,
        last: false,
    }
}

// The number of the next byte in the input, from 0.
pub fn offset(r: Reader) -> u64 {
    r.base.wrapping_add(r.at as u64)
}

// What stands next in the buffer; its bytes are among those still to be read.
fn next_step(input: &[u8], r: Reader) -> Step
    requires { Reads (length input.now) r }
    ensures { r.at + step_len result ≤ r.end }
{
    let at = r.at;
    let end = r.end;
    step(&input[at..end], r.last)
}

// A record of n bytes is passed.
fn passed(r: Reader, n: usize) -> Reader
    requires { r.at + n ≤ r.end }
    ensures { (result.at ≡ r.at + n) × (result.end ≡ r.end) }
{
    Reader { at: r.at + n, ..r }
}

// The n bytes from a place on come to the front.
fn to_front(bytes: &mut [u8], from: usize, n: usize)
    requires { from + n ≤ length bytes.old }
{
    bytes.copy_within(from..from + n, 0);
}

// Bytes are read until the buffer is full or the input ends; the answer is how many there are. After an error the bytes that were read
// stand at the buffer's start, and are not counted.
pub fn read_full<R: Read>(from: &mut R, buf: &mut [u8]) -> io::Result<usize>
    ensures bound { ReadsAtMost result buf.new }
    ensures ok { IfOk result (λ n. Consumes (R.remaining from.old) (R.remaining from.new) (take n buf.new)) }
    ensures end { IfOk result (λ n. n < length buf.old → IsAtEnd (R.remaining from.new)) }
    ensures moves { MovesOn (R.remaining from.old) (R.remaining from.new) }
{
    let mut done = 0;
    // A while: how many bytes a read gives is known only behind it.
    while done < buf.len() {
        let n = from.read(&mut buf[done..])?;
        if n == 0 {
            break;
        }
        done += n;
    }
    Ok(done)
}

// The bytes that are still to be read come to the front, and more are read behind them. After an error those that were read before it are
// lost.
fn refill<R: Read>(from: &mut R, input: &mut [u8], r: Reader) -> io::Result<Reader>
    requires { Reads (length input.old) r }
    ensures ok { IfOk result (λ next. Reads (length input.old) next) }
    ensures moves { MovesOn (R.remaining from.old) (R.remaining from.new) }
{
    let at = r.at;
    let left = r.end - at;
    to_front(input, at, left);
    let got = read_full(from, &mut input[left..])?;
    let end = left + got;
    Ok(Reader {
        at: 0,
        end,
        base: offset(r),
        last: end < input.len(),
    })
}

// A removal is kept where there is room for it.
fn add_removal(removals: &mut [u64; MOST_EVENTS], v: Events, entity: u64) -> Events
    requires { Counts v }
    ensures { Counts result }
{
    let n = v.removals;
    if n + v.moves >= MOST_EVENTS {
        return Events { over: true, ..v };
    }
    removals[n] = entity;
    Events {
        removals: n + 1,
        ..v
    }
}

// A move is kept, in five words, where there is room for it.
fn add_move(moves: &mut [u64; MOVES_LEN], v: Events, to: Moved) -> Events
    requires { Counts v }
    ensures { Counts result }
{
    let m = v.moves;
    if v.removals + m >= MOST_EVENTS {
        return Events { over: true, ..v };
    }
    let at = MOVE_WIDTH * m;
    moves[at..at + MOVE_WIDTH].copy_from_slice(&[to.entity, to.grid, to.x, to.y, to.z]);
    Events { moves: m + 1, ..v }
}

// One record is read, or more bytes are. After an error nothing is kept of the batch.
fn take<R: Read>(
    from: &mut R,
    input: &mut [u8],
    removals: &mut [u64; MOST_EVENTS],
    moves: &mut [u64; MOVES_LEN],
    g: Gathered,
) -> io::Result<Gathered>
    requires { Gathers (length input.old) g }
    ensures ok { IfOk result (λ next. Gathers (length input.old) next) }
    ensures moves { MovesOn (R.remaining from.old) (R.remaining from.new) }
{
    let r = g.reader;
    let v = g.events;
    let s = next_step(input, r);
    let next = Gathered {
        reader: passed(r, step_len(s)),
        events: v,
        ending: None,
    };
    Ok(match s {
        Step::Remove(e) => Gathered {
            events: add_removal(removals, v, e),
            ..next
        },
        Step::Move(m) => Gathered {
            events: add_move(moves, v, m),
            ..next
        },
        Step::Run => Gathered {
            ending: Some(Ending::Run),
            ..next
        },
        Step::Bad => Gathered {
            ending: Some(Ending::Bad),
            ..next
        },
        Step::More => Gathered {
            reader: refill(from, input, r)?,
            ..next
        },
        Step::Done => Gathered {
            ending: Some(Ending::Out),
            ..next
        },
    })
}

// The records of a batch are read. The turns come to a number that no input uses up, so the loop is seen to end.
// After an error nothing is kept of the batch, and reading does not go on.
pub fn gather<R: Read>(
    from: &mut R,
    input: &mut [u8],
    removals: &mut [u64; MOST_EVENTS],
    moves: &mut [u64; MOVES_LEN],
    r: Reader,
) -> io::Result<Gathered>
    requires { Reads (length input.old) r }
    ensures ok { IfOk result (λ g. Gathers (length input.old) g) }
    ensures moves { MovesOn (R.remaining from.old) (R.remaining from.new) }
{
    let mut g = Gathered {
        reader: r,
        events: Events {
            removals: 0,
            moves: 0,
            over: false,
        },
        ending: None,
    };
    for _turns in 0..u64::MAX {
        if g.ending.is_some() {
            break;
        }
        g = take(from, input, removals, moves, g)?;
    }
    Ok(g)
}
