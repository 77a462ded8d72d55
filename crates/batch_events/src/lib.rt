// The events of a batch, played one after the other on the tables of a map, up to the first that breaks a limit.
#![tactic(auto)]

ghost use Rattle.std.specs.Prelude.{◌≡◌, true, List, ◌+◌, ◌*◌, ◌≤◌, length, drop};
ghost use Rattle.model.specs.Lists.{all};
ghost use Rattle.model.specs.Cells.{Cell, touch_at};
ghost use Rattle.model.specs.Occupancy.{Occupancy, play, events};
ghost use Rattle.layout.specs.Widths.{move_width};
ghost use Rattle.refusal.specs.Forms.{plain, outcome};
ghost use Rattle.batch.specs.Words.{moves_in, batch_of};
ghost use Rattle.map.specs.Tables.{HeldIn, Kept};
ghost use Rattle.batch_events.specs.Events.{in_range, event_at, EventFits};
ghost use Rattle.batch_events.specs.Playing.{judged, ReadyIn, OutcomeIn};

use batch::move_cell;
use layout::{MOST_CELLS, MOST_ENTITIES, MOVE_WIDTH};
use map::{Counts, Tables};
use refusal::Refusal;

// Whether too many entities stand, or too many cells are occupied.
#[tactic(auto, unfolding(crate::specs::Playing::judged))]
fn judge(n: Counts) -> Result<(), Refusal>
    ensures { outcome result ≡ plain (judged n) }
{
    if n.entities > MOST_ENTITIES {
        return Err(Refusal::TooManyEntities);
    }
    if n.cells > MOST_CELLS {
        return Err(Refusal::TooManyCells);
    }
    Ok(())
}

// Event k of a batch: the removals come first, one word each, then the moves, five words each.
fn play_event(tables: &mut Tables<'_>, batch: &[u64], removals: usize, k: usize)
    requires { (was : List Cell) × (o : Occupancy) × ReadyIn tables.old was o × EventFits batch.now removals k }
    ensures kept { Kept tables.old tables.new }
    ensures held { (o : Occupancy) → HeldIn tables.old o → HeldIn tables.new (play (touch_at tables.old.kind) o (event_at batch.now removals k)) }
{
    if k < removals {
        tables.play_removal(batch[k]);
    } else {
        let at = removals + MOVE_WIDTH * (k - removals);
        let c = move_cell(batch, at);
        tables.play_move(batch[at], c);
    }
}

// The events of a batch, up to the first that breaks a limit; each is judged on what it leaves.
pub fn play_batch(
    tables: &mut Tables<'_>,
    batch: &[u64],
    removals: usize,
    moves: usize,
) -> Result<(), Refusal>
    requires { (was : List Cell) × (o : Occupancy) × ReadyIn tables.old was o × (removals + move_width * moves ≤ length batch.now) × (all in_range (moves_in moves (drop removals batch.now)) ≡ true) }
    ensures kept { Kept tables.old tables.new }
    ensures ends { (was : List Cell) (o : Occupancy) → ReadyIn tables.old was o → OutcomeIn tables.new (outcome result) was o (events (batch_of batch.now removals moves)) }
{
    for i in 0..removals + moves {
        play_event(tables, batch, removals, i);
        judge(tables.counts)?;
    }
    Ok(())
}
