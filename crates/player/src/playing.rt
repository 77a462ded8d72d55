// The batches of a script are played, and the yard is told after each.
ghost use Rattle.std.specs.Prelude.{◌+◌, ◌*◌, ◌≤◌, length, IfOk};
ghost use Rattle.layout.specs.Widths.{move_width};
ghost use Rattle.script_reader.specs.Places.{Counts, MovesOn};
ghost use Rattle.script_writer.specs.Written.{Grows};
ghost use Rattle.player.specs.Places.{Plays};

use fresh::fresh;
use layout::{MOST_EVENTS, MOVE_WIDTH, STATE_LEN};
use refusal::Refusal;
use script_reader::{Ending, Events, MOVES_LEN, Reader, first_reader, gather, offset};
use script_writer::{Line, answer, flush, put};
use std::io;
use std::io::{Input, Print, Read, Write};
use table::write_row;
use yard::update;

// What touching means in the yard of a script: all 26 neighbours.
const SCRIPT_KIND: u64 = 26;

// Where reading and writing stand between two batches, the number of the next batch, and whether there may be one.
// `going` is a flag and no Option, as `used` is asked for behind the last batch too.
#[derive(Clone, Copy, Debug, PartialEq, Eq)]
pub struct Progress {
    pub reader: Reader,
    pub number: u64,
    pub used: usize,
    pub going: bool,
}

// The first n removals and behind them the first m moves, of five words each, come to the front of a batch's words.
fn join(batch: &mut [u64], removals: &[u64], n: usize, moves: &[u64], m: usize)
    requires { (n ≤ length removals.now) × (move_width * m ≤ length moves.now) × (n + move_width * m ≤ length batch.old) }
{
    write_row(batch, 0, &removals[..n]);
    write_row(batch, n, &moves[..MOVE_WIDTH * m]);
}

// The batch updates the state, its removals first; one of which not all events are kept is refused.
// Words and counts stand apart, as `gather` fills the words and answers the counts.
fn run(
    state: &mut [u64],
    removals: &[u64; MOST_EVENTS],
    moves: &[u64; MOVES_LEN],
    v: Events,
) -> Result<(), Refusal>
    requires { Counts v }
{
    if v.over {
        return Err(Refusal::TooManyEvents);
    }
    let n = v.removals;
    let m = v.moves;
    let mut batch = [0; MOST_EVENTS + MOVES_LEN];
    join(&mut batch, removals, n, moves, m);
    update(state, &batch, n as u64, m as u64)
}

// The line after which a script stops where its input ends: `open batch` where events were read, else `end`.
fn last_line(v: Events) -> Line {
    if v.removals > 0 || v.moves > 0 {
        Line::Open
    } else {
        Line::End
    }
}

// A batch is read and answered. Where reading fails, the lines in the buffer are written out first. After an error the batch may have
// updated the state, and its lines are not all written.
// What is lent comes one by one: a struct of it would be made for this call alone.
fn turn<R: Read, W: Write>(
    from: &mut R,
    to: &mut W,
    state: &mut [u64; STATE_LEN],
    input: &mut [u8],
    output: &mut [u8],
    p: Progress,
) -> io::Result<Progress>
    requires { Plays (length input.old) (length output.old) p }
    ensures ok { IfOk result (λ next. Plays (length input.old) (length output.old) next) }
    ensures moves { MovesOn (R.remaining from.old) (R.remaining from.new) }
    ensures grows { Grows (W.contents to.old) (W.contents to.new) }
{
    let mut removals = [0; MOST_EVENTS];
    let mut moves = [0; MOVES_LEN];
    let number = p.number;
    let used = p.used;
    let g = match gather(from, input, &mut removals, &mut moves, p.reader) {
        Ok(g) => g,
        Err(e) => {
            flush(to, output, used)?;
            return Err(e);
        }
    };
    let reader = g.reader;
    let events = g.events;
    let stopped = Progress {
        reader,
        going: false,
        ..p
    };
    Ok(match g.ending {
        Some(Ending::Run) => {
            let code = run(state, &removals, &moves, events)
                .err()
                .map_or(0, Refusal::number);
            Progress {
                reader,
                number: number.wrapping_add(1),
                used: answer(to, state, output, used, number, code)?,
                going: true,
            }
        }
        Some(Ending::Bad) => Progress {
            used: put(to, output, used, Line::Wrong(offset(reader)))?,
            ..stopped
        },
        None | Some(Ending::Out) => Progress {
            used: put(to, output, used, last_line(events))?,
            ..stopped
        },
    })
}

// All batches are read and answered. The turns come to a number that no input uses up, so the loop is seen to end.
// After an error in reading the answers to the batches that were played are written; after one in writing some may not be.
fn play_all<R: Read, W: Write>(
    from: &mut R,
    to: &mut W,
    state: &mut [u64; STATE_LEN],
    input: &mut [u8],
    output: &mut [u8],
) -> io::Result<()>
    ensures moves { MovesOn (R.remaining from.old) (R.remaining from.new) }
    ensures grows { Grows (W.contents to.old) (W.contents to.new) }
{
    let mut p = Progress {
        reader: first_reader(),
        number: 1,
        used: 0,
        going: true,
    };
    for _turns in 0..u64::MAX {
        if !p.going {
            break;
        }
        p = turn(from, to, state, input, output, p)?;
    }
    flush(to, output, p.used)
}

// The script on standard input is played in a fresh yard, whose first id is 0. It ends early where a read or a write fails.
pub fn play(rt: &(impl Input + Print)) -> io::Result<()> {
    let mut state = [0; STATE_LEN];
    let mut input = [0; 65536];
    let mut output = [0; 65536];
    // A state of this length and kind is never refused.
    let _ = fresh(&mut state, 0, SCRIPT_KIND);
    let mut from = rt.reader();
    let mut to = io::writer(rt);
    play_all(&mut from, &mut to, &mut state, &mut input, &mut output)
}
