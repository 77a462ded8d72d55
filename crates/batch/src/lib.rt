// A batch in words: the removals first, one word each, then the moves, five words each: entity, grid, x, y, z.
#![tactic(auto)]

ghost use Rattle.std.specs.Prelude.{◌≡◌, ◌+◌, ◌*◌, ◌≤◌, length, drop, ltb};
ghost use Rattle.layout.specs.Widths.{move_width};
ghost use Rattle.batch.specs.Words.{move_at, moves_in, batch_of, too_short, early};
ghost use Rattle.refusal.specs.Forms.{outcome};
ghost use Rattle.batch.specs.Places.{first_out, batch_refusal};

use component::{Cell, stored_word};
use layout::{MOST_EVENTS, MOST_NEXT_ID, MOVE_WIDTH, state_len};
use refusal::Refusal;

// The cell of the move whose words stand at at.
pub fn move_cell(batch: &[u64], at: usize) -> Cell
    requires { at + move_width ≤ length batch.now }
    ensures { result ≡ (move_at batch.now at).1 }
{
    Cell {
        grid: batch[at + 1],
        z: stored_word(batch[at + 4]),
        y: stored_word(batch[at + 3]),
        x: stored_word(batch[at + 2]),
    }
}

// Whether the words are too few for so many events; a count so large that the words needed pass 2^64 is one.
fn lacks_words(len: usize, removals: u64, moves: u64) -> bool
    ensures { result ≡ ltb len (removals + move_width * moves) }
{
    let n = len as u64;
    if n < removals {
        return true;
    }
    (n - removals) / (MOVE_WIDTH as u64) < moves
}

// 1: whether the state's words are too few, or the batch's.
pub fn too_short(state: &[u64], batch: &[u64], removals: u64, moves: u64) -> bool
    ensures { result ≡ too_short state.now batch.now removals moves }
{
    !(state_len() <= state.len()) | lacks_words(batch.len(), removals, moves)
}

// 4 by the first move that goes out of range.
fn first_out(batch: &[u64], from: usize, moves: usize) -> Result<(), Refusal>
    requires { from + move_width * moves ≤ length batch.now }
    ensures { outcome result ≡ first_out 0 (moves_in moves (drop from batch.now)) }
{
    for i in 0..moves {
        let c = move_cell(batch, from + MOVE_WIDTH * i);
        if !component::stored_in_range(c) {
            let axis = component::stored_bad_axis(c);
            return Err(Refusal::OutOfRange(i as u64, axis));
        }
    }
    Ok(())
}

// 3, 4 and 5 in that order: too many events, a coordinate out of range with its place, too few ids left.
pub fn early_refusal(next: u64, batch: &[u64], removals: usize, moves: usize) -> Result<(), Refusal>
    requires { removals + move_width * moves ≤ length batch.now }
    ensures { outcome result ≡ batch_refusal (batch_of batch.now removals moves) (early next (batch_of batch.now removals moves)) }
{
    if removals + moves > MOST_EVENTS {
        return Err(Refusal::TooManyEvents);
    }
    first_out(batch, removals, moves)?;
    if next > MOST_NEXT_ID {
        return Err(Refusal::FewIds);
    }
    Ok(())
}
