// A fresh state.
#![tactic(auto)]

ghost use Rattle.std.specs.Prelude.{◌≡◌};
ghost use Rattle.refusal.specs.Forms.{outcome};
ghost use Rattle.fresh.specs.Answer.{fresh_of};

use layout::{KIND, MOST_NEXT_ID, NEXT_ID, state_len};
use refusal::Refusal;
use table::write_zeros;

// A state with no entity, whose first id and kind of touching are given, in the first words of a slice.
// The kind is a number, as a caller gives it: a number that is no kind is refused.
pub fn fresh(state: &mut [u64], first_id: u64, kind: u64) -> Result<(), Refusal>
    ensures { (outcome result, state.new) ≡ fresh_of state.old first_id kind }
{
    let n = state_len();
    if state.len() < n {
        return Err(Refusal::TooShort);
    }
    if !kinds::is_kind(kind) {
        return Err(Refusal::UnknownKind);
    }
    if first_id > MOST_NEXT_ID {
        return Err(Refusal::FewIds);
    }
    write_zeros(state, 0, n);
    state[NEXT_ID] = first_id;
    state[KIND] = kind;
    Ok(())
}
