// Events as moves: what a report makes, in the words of a batch.
#![tactic(auto)]

ghost use Rattle.std.specs.Prelude.{◌≡◌, ◌+◌, leb};
ghost use Rattle.layout.specs.Widths.{move_width};
ghost use Rattle.refusal.specs.Forms.{outcome};
ghost use Rattle.moves.specs.Words.{moved};

use layout::MOVE_WIDTH;
use metres::Placing;
use refusal::Refusal;

// Whether five words from a place on lie within so many.
fn has_room(len: usize, at: usize) -> bool
    ensures { result ≡ leb (at + move_width) len }
{
    MOVE_WIDTH <= len && at <= len - MOVE_WIDTH
}

// The move that an event makes stands at a place of a batch; or it is refused by 1, and nothing is written, where the batch ends before.
pub fn put_move(batch: &mut [u64], at: usize, e: Placing) -> Result<(), Refusal>
    ensures { (outcome result, batch.new) ≡ moved batch.old at e }
{
    if !has_room(batch.len(), at) {
        return Err(Refusal::TooShort);
    }
    let mut words = [e.entity, 0, 0, 0, 0];
    neighbourhood::write_cell(&mut words, 1, component::stored(e.cell));
    table::write_row(batch, at, &words);
    Ok(())
}
