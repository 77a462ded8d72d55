// The calls that make, test and change a state in lent memory: a fresh state, the test of consistency, and the update.
#![tactic(auto)]

ghost use Rattle.std.specs.Prelude.{◌≡◌};
ghost use Rattle.refusal.specs.Forms.{outcome};
ghost use Rattle.yard.specs.Update.{update_of};

use batch::{early_refusal, too_short};
pub use consistent::consistent;
pub use fresh::fresh;
use layout::NEXT_ID;
use refusal::Refusal;
use updating::apply_batch;

// A batch of removals, one word each, and moves, five words each, updates the state; the first refusal that holds, with its place, leaves
// the state as found.
pub fn update(state: &mut [u64], batch: &[u64], removals: u64, moves: u64) -> Result<(), Refusal>
    ensures { (outcome result, state.new) ≡ update_of state.old batch.now removals moves }
{
    if too_short(state, batch, removals, moves) {
        return Err(Refusal::TooShort);
    }
    consistent(state)?;
    let r = removals as usize;
    let m = moves as usize;
    early_refusal(state[NEXT_ID], batch, r, m)?;
    apply_batch(state, batch, r, m)
}
