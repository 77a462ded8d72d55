// A state in lent words, written part by part: the header and the tables, one behind the other.
#![tactic(auto)]

ghost use Rattle.std.specs.Prelude.{◌≡◌, List, ◌++◌, ℕ, ◌+◌, ◌≤◌, length, take};
ghost use Rattle.table.specs.Moves.{over};
ghost use Rattle.layout.specs.Widths.{header_len};
ghost use Rattle.layout.specs.State.{entities_len, cells_len, net_len, ids_len, groups_len, ids_from, state_len};
ghost use Rattle.writing.specs.Parts.{front_words, Begun};

use layout::{
    CELLS, CELLS_LEN, EMPTIED, ENTITIES, ENTITIES_LEN, GROUPS, GROUPS_LEN, IDS, IDS_LEN, NET_LEN,
    OCCUPIED,
};
use table::write_row;

// The first len words of a table come over those of a state.
fn store(state: &mut [u64], at: usize, src: &[u64], len: usize)
    requires { (len ≤ length src.now) × (at + len ≤ length state.old) }
    ensures { state.new ≡ over state.old at (take len src.now) }
{
    write_row(state, at, &src[..len]);
}

// The header, the map and both net lists are written.
// Each part is an argument, as an update has each in an array of its own in fixed memory.
pub fn write_front(
    state: &mut [u64],
    head: &[u64],
    ents: &[u64],
    cells: &[u64],
    occ: &[u64],
    emp: &[u64],
)
    requires { (state_len ≤ length state.old) × (length head.now ≡ header_len) × (entities_len ≤ length ents.now) × (cells_len ≤ length cells.now) × (net_len ≤ length occ.now) × (net_len ≤ length emp.now) }
    ensures { Begun state.old state.new (front_words head.now ents.now cells.now occ.now emp.now) ids_from }
{
    write_row(state, 0, head);
    store(state, ENTITIES, ents, ENTITIES_LEN);
    store(state, CELLS, cells, CELLS_LEN);
    store(state, OCCUPIED, occ, NET_LEN);
    store(state, EMPTIED, emp, NET_LEN);
}

// The cells with an id and the groups are written.
pub fn write_back(state: &mut [u64], ids: &[u64], groups: &[u64])
    requires { (state_len ≤ length state.old) × (ids_len ≤ length ids.now) × (groups_len ≤ length groups.now) }
    ensures { (w p : List ℕ) → Begun w state.old p ids_from → Begun w state.new ((p ++ take ids_len ids.now) ++ take groups_len groups.now) state_len }
{
    store(state, IDS, ids, IDS_LEN);
    store(state, GROUPS, groups, GROUPS_LEN);
}
