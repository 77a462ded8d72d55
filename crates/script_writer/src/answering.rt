// The lines that answer a batch.
ghost use Rattle.std.specs.Prelude.{◌+◌, ◌*◌, ◌≤◌, length, IfOk};
ghost use Rattle.model.specs.Update.{most_cells};
ghost use Rattle.layout.specs.Widths.{net_width, id_width};
ghost use Rattle.script_writer.specs.Written.{Grows};

use crate::lines::{Line, Place, put};
use layout::{
    CELL_ID, EMPTIED, EMPTIED_COUNT, ID_COUNT, ID_WIDTH, IDS, MOST_CELLS, NET_WIDTH, OCCUPIED,
    OCCUPIED_COUNT, STATE_LEN,
};
use std::io;
use std::io::Write;

// A header's word as a number of rows.
fn rows(n: u64) -> usize
    ensures { result ≤ most_cells }
{
    n.min(MOST_CELLS as u64) as usize
}

// The cell whose row stands at at; its coordinates are stored 2^31 above those meant.
fn place(state: &[u64], at: usize) -> Place
    requires { at + net_width ≤ length state.now }
{
    Place {
        grid: state[at],
        x: component::signed_word(state[at + 3]),
        y: component::signed_word(state[at + 2]),
        z: component::signed_word(state[at + 1]),
    }
}

// The lines of the n rows of a net list, which stand from a place on. After an error some of them may have been put.
fn put_net<W: Write, F: Fn(Place) -> Line>(
    to: &mut W,
    state: &[u64],
    from: usize,
    n: usize,
    line: F,
    output: &mut [u8],
    used: usize,
) -> io::Result<usize>
    requires rows { (from + net_width * n ≤ length state.now) × (used ≤ length output.old) }
    requires line { F.IsAlwaysCallable line }
    ensures ok { IfOk result (λ u. u ≤ length output.old) }
    ensures grows { Grows (W.contents to.old) (W.contents to.new) }
{
    let mut u = used;
    for i in 0..n {
        u = put(to, output, u, line(place(state, from + NET_WIDTH * i)))?;
    }
    Ok(u)
}

// The lines of the n cells with an id, whose rows stand from a place on. After an error some of them may have been put.
// `put_net` does not do it too: it would take the width of a row, and a closure that reads the state with a fact of where it may.
fn put_ids<W: Write>(
    to: &mut W,
    state: &[u64],
    from: usize,
    n: usize,
    output: &mut [u8],
    used: usize,
) -> io::Result<usize>
    requires { (from + id_width * n ≤ length state.now) × (used ≤ length output.old) }
    ensures ok { IfOk result (λ u. u ≤ length output.old) }
    ensures grows { Grows (W.contents to.old) (W.contents to.new) }
{
    let mut u = used;
    for i in 0..n {
        let at = from + ID_WIDTH * i;
        u = put(
            to,
            output,
            u,
            Line::Cell(place(state, at), state[at + CELL_ID]),
        )?;
    }
    Ok(u)
}

// The lines of a batch: the first alone where it is refused, by a code that may be any number, else those of both net lists and of all cells too. After an error some of
// them may have been put.
pub fn answer<W: Write>(
    to: &mut W,
    state: &[u64; STATE_LEN],
    output: &mut [u8],
    used: usize,
    number: u64,
    code: u64,
) -> io::Result<usize>
    requires { used ≤ length output.old }
    ensures ok { IfOk result (λ u. u ≤ length output.old) }
    ensures grows { Grows (W.contents to.old) (W.contents to.new) }
{
    let entered = rows(state[OCCUPIED_COUNT]);
    let left = rows(state[EMPTIED_COUNT]);
    let cells = rows(state[ID_COUNT]);
    let a = put(to, output, used, Line::Batch(number, code))?;
    if code != 0 {
        return Ok(a);
    }
    let b = put_net(to, state, OCCUPIED, entered, Line::Entered, output, a)?;
    let c = put_net(to, state, EMPTIED, left, Line::Left, output, b)?;
    put_ids(to, state, IDS, cells, output, c)
}
