// The words of the state: every limit, width and place, the state cut into its tables, and the numbers that stand for neighbours.
#![tactic(auto)]

ghost use Rattle.std.specs.Prelude.{◌≡◌, true, ◌-◌, ◌<◌, get_or};
ghost use Rattle.layout.specs.Widths.{header_len};
ghost use Rattle.layout.specs.State.{state_len, spare_words, entity_words, cell_words, occupied_words, emptied_words, id_words, group_words};
ghost use Rattle.layout.specs.Points.{long_enough};
ghost use Rattle.layout.specs.Rows.{or_self, neighbour_of};

use component::{Cell, adjacent};

// The most entities, occupied cells and events of a batch, and the largest next id that leaves 2,048.
pub const MOST_ENTITIES: usize = 4096;

pub const MOST_CELLS: usize = 1024;

pub const MOST_EVENTS: usize = 1024;

pub const MOST_NEXT_ID: u64 = 18446744073709549567;

// The words of the header: how many rows each table has, the next id, and what touching means; those from SPARE to its end are zero.
pub const ENTITY_COUNT: usize = 0;

pub const CELL_COUNT: usize = 1;

pub const OCCUPIED_COUNT: usize = 2;

pub const EMPTIED_COUNT: usize = 3;

pub const ID_COUNT: usize = 4;

pub const GROUP_COUNT: usize = 5;

pub const NEXT_ID: usize = 6;

pub const KIND: usize = 7;

pub const SPARE: usize = 8;

pub const HEADER_LEN: usize = 16;

// An entity's row: the entity, then its cell.
pub const ENTITY_WIDTH: usize = 5;

pub const ENTITY_CELL: usize = 1;

// An occupied cell's row: the cell, then its mask.
pub const CELL_WIDTH: usize = 5;

pub const CELL_MASK: usize = 4;

// A net list's row: the cell.
pub const NET_WIDTH: usize = 4;

// The row of a cell with an id: the cell, then the id.
pub const ID_WIDTH: usize = 5;

pub const CELL_ID: usize = 4;

// A group's row: the id, the grid, the cell count, the entity count, the low corner and the high corner, x, y, z each.
pub const GROUP_WIDTH: usize = 10;

pub const GROUP_GRID: usize = 1;

pub const GROUP_CELLS: usize = 2;

pub const GROUP_ENTITIES: usize = 3;

pub const GROUP_LOW: usize = 4;

pub const GROUP_HIGH: usize = 7;

// A row of the crowd, which an update keeps beside the state: the cell, then how many stand in it.
pub const CROWD_WIDTH: usize = 5;

pub const CROWD_COUNT: usize = 4;

// A cell in an answer: the grid, x, y, z.
pub const ANSWER_WIDTH: usize = 4;

// A move's row in a batch: the entity, the grid, x, y, z.
pub const MOVE_WIDTH: usize = 5;

// How many words each table has.
pub const ENTITIES_LEN: usize = ENTITY_WIDTH * MOST_ENTITIES;

pub const CELLS_LEN: usize = CELL_WIDTH * MOST_CELLS;

pub const NET_LEN: usize = NET_WIDTH * MOST_CELLS;

pub const IDS_LEN: usize = ID_WIDTH * MOST_CELLS;

pub const GROUPS_LEN: usize = GROUP_WIDTH * MOST_CELLS;

// Where each table begins in a state.
pub const ENTITIES: usize = HEADER_LEN;

pub const CELLS: usize = ENTITIES + ENTITIES_LEN;

pub const OCCUPIED: usize = CELLS + CELLS_LEN;

pub const EMPTIED: usize = OCCUPIED + NET_LEN;

pub const IDS: usize = EMPTIED + NET_LEN;

pub const GROUPS: usize = IDS + IDS_LEN;

// How many words a state has, which is where the last table ends.
pub const STATE_LEN: usize = GROUPS + GROUPS_LEN;

// How many words a state has.
pub fn state_len() -> usize
    ensures { result ≡ state_len }
{
    STATE_LEN
}

// A word of the header, as a number of rows.
pub fn count_at(state: &[u64], k: usize) -> usize
    requires { (long_enough state.now ≡ true) × (k < header_len) }
    ensures { result ≡ get_or state.now k 0 }
{
    state[k] as usize
}

// Here and below each part has a function by its name, for any words that are long enough: an enum of parts, or a type for such words, would have callers build one first.

// The words of the header that have no name.
pub fn spare_words(state: &[u64]) -> &[u64]
    requires { long_enough state.now ≡ true }
    ensures { result.now ≡ spare_words state.now }
{
    &state[SPARE..HEADER_LEN]
}

// The words of the entities.
pub fn entity_words(state: &[u64]) -> &[u64]
    requires { long_enough state.now ≡ true }
    ensures { result.now ≡ entity_words state.now }
{
    &state[ENTITIES..CELLS]
}

// The words of the occupied cells.
pub fn cell_words(state: &[u64]) -> &[u64]
    requires { long_enough state.now ≡ true }
    ensures { result.now ≡ cell_words state.now }
{
    &state[CELLS..OCCUPIED]
}

// The words of the newly occupied cells.
pub fn occupied_words(state: &[u64]) -> &[u64]
    requires { long_enough state.now ≡ true }
    ensures { result.now ≡ occupied_words state.now }
{
    &state[OCCUPIED..EMPTIED]
}

// The words of the newly emptied cells.
pub fn emptied_words(state: &[u64]) -> &[u64]
    requires { long_enough state.now ≡ true }
    ensures { result.now ≡ emptied_words state.now }
{
    &state[EMPTIED..IDS]
}

// The words of the cells with an id.
pub fn id_words(state: &[u64]) -> &[u64]
    requires { long_enough state.now ≡ true }
    ensures { result.now ≡ id_words state.now }
{
    &state[IDS..GROUPS]
}

// The words of the groups.
pub fn group_words(state: &[u64]) -> &[u64]
    requires { long_enough state.now ≡ true }
    ensures { result.now ≡ group_words state.now }
{
    &state[GROUPS..STATE_LEN]
}

// The neighbour of c with a number from 1; c itself where there is none.
pub fn neighbour_of(c: Cell, n: u64) -> Cell
    ensures { result ≡ neighbour_of c n }
{
    adjacent(c, 1, n.saturating_sub(1)).unwrap_or(c)
}
