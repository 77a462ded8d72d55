// The questions: what a lent state answers. A state that is too short is refused by 1, one that is not consistent by 2 with its first
// broken point, a cell out of range by 4 with its position and axis, and an answer longer than the slice for it by 8, in that order.
#![tactic(auto)]

ghost use Rattle.std.specs.Prelude.{◌≡◌, IfOk};
ghost use Rattle.refusal.specs.Forms.{outcome};
ghost use Rattle.told.specs.Told.{told_of, found_told};
ghost use Rattle.consistent.specs.Answer.{passed};
ghost use Rattle.lists.specs.Told.{listing_told};
ghost use Rattle.floods.specs.Told.{flooding_told};
ghost use Rattle.ask.specs.Answers.{cell_refusal, cells_refusal, kind_of, where_of, id_of, count_of, group_of, ids_of, occupied_of, emptied_of, entities_of, nearby_of, cube_of, flood_of, path_of};
ghost use Rattle.ask.specs.Laws.Ways.{ranged};

use component::CellId;
use consistent::{Checked, checked};
pub use floods::{Flooded, Visited};
pub use lists::Listed;
pub use lookups::{Shown, corners};
use refusal::Refusal;

// 4 for a cell that is out of range, with its position.
fn in_range(at: u64, cell: CellId) -> Result<(), Refusal>
    ensures { outcome result ≡ ranged at cell }
{
    if component::in_range(cell.coord) {
        return Ok(());
    }
    Err(Refusal::OutOfRange(at, component::bad_axis(cell.coord)))
}

// The state that is asked about a cell: 1 and 2 by the state, and 4 for a cell that is out of range.
fn checked_at(state: &[u64], cell: CellId) -> Result<Checked<'_>, Refusal>
    ensures answer { passed result ≡ cell_refusal state.now cell }
    ensures same { IfOk result (λ s. s.words.now ≡ state.now) }
{
    let state = checked(state)?;
    in_range(0, cell)?;
    Ok(state)
}

// The same of a first cell, and then 4 for a second one that is out of range.
fn checked_between(state: &[u64], from: CellId, to: CellId) -> Result<Checked<'_>, Refusal>
    ensures answer { passed result ≡ cells_refusal state.now from to }
    ensures same { IfOk result (λ s. s.words.now ≡ state.now) }
{
    let state = checked_at(state, from)?;
    in_range(1, to)?;
    Ok(state)
}

// What touching means in the state: 6, 18 or 26.
pub fn kind_of(state: &[u64]) -> Result<u64, Refusal>
    ensures { told_of result ≡ kind_of state.now }
{
    let state = checked(state)?;
    Ok(state.words[layout::KIND])
}

// Where an entity stands.
pub fn where_is(state: &[u64], entity: u64) -> Result<Option<CellId>, Refusal>
    ensures { found_told result ≡ where_of state.now entity }
{
    let state = checked(state)?;
    let (rows, n) = state.entities();
    Ok(lookups::find_entity(rows, n, entity))
}

// The id of a cell.
pub fn id_of(state: &[u64], cell: CellId) -> Result<Option<u64>, Refusal>
    ensures { found_told result ≡ id_of state.now cell }
{
    let state = checked_at(state, cell)?;
    let (rows, n) = state.ids();
    Ok(lookups::find_id(rows, n, component::stored(cell)))
}

// How many neighbours of a cell are occupied.
pub fn neighbour_count(state: &[u64], cell: CellId) -> Result<Option<u32>, Refusal>
    ensures { found_told result ≡ count_of state.now cell }
{
    let state = checked_at(state, cell)?;
    let (rows, n) = state.cells();
    Ok(lookups::find_count(rows, n, component::stored(cell)))
}

// A group by id.
pub fn group(state: &[u64], id: u64) -> Result<Option<Shown>, Refusal>
    ensures { found_told result ≡ group_of state.now id }
{
    let state = checked(state)?;
    let (rows, n) = state.groups();
    Ok(lookups::find_group(rows, n, id))
}

// The ids, ascending.
pub fn ids(state: &[u64], answer: &mut [u64]) -> Result<Listed, Refusal>
    ensures { (listing_told result, answer.new) ≡ ids_of state.now answer.old }
{
    let state = checked(state)?;
    let (rows, n) = state.groups();
    lists::give_ids(rows, n, answer)
}

// Here and below C asks for each net list by a call of its own; what the two share is `give_net`.

// The newly occupied cells, ascending.
pub fn newly_occupied(state: &[u64], answer: &mut [u64]) -> Result<Listed, Refusal>
    ensures { (listing_told result, answer.new) ≡ occupied_of state.now answer.old }
{
    let state = checked(state)?;
    let (rows, n) = state.occupied();
    lists::give_net(rows, n, answer)
}

// The newly emptied cells, ascending.
pub fn newly_emptied(state: &[u64], answer: &mut [u64]) -> Result<Listed, Refusal>
    ensures { (listing_told result, answer.new) ≡ emptied_of state.now answer.old }
{
    let state = checked(state)?;
    let (rows, n) = state.emptied();
    lists::give_net(rows, n, answer)
}

// The entities of a cell, ascending.
pub fn entities_in(state: &[u64], cell: CellId, answer: &mut [u64]) -> Result<Listed, Refusal>
    ensures { (listing_told result, answer.new) ≡ entities_of state.now cell answer.old }
{
    let state = checked_at(state, cell)?;
    let (rows, n) = state.entities();
    lists::give_entities(rows, n, component::stored(cell), answer)
}

// A cell, then the occupied cells that it touches, in cell order.
pub fn nearby(state: &[u64], cell: CellId, answer: &mut [u64]) -> Result<Listed, Refusal>
    ensures { (listing_told result, answer.new) ≡ nearby_of state.now cell answer.old }
{
    let state = checked_at(state, cell)?;
    let (rows, n) = state.cells();
    lists::give_nearby(rows, n, component::stored(cell), answer)
}

// The centre first, then its neighbours of a radius in order, occupied ones only.
pub fn cube(state: &[u64], cell: CellId, radius: u8, answer: &mut [u64]) -> Result<Listed, Refusal>
    ensures { (listing_told result, answer.new) ≡ cube_of state.now cell radius answer.old }
{
    let state = checked_at(state, cell)?;
    let (rows, n) = state.cells();
    lists::give_cube(rows, n, component::stored(cell), radius, answer)
}

// A flood from a seed to a depth, up to a budget of cells.
pub fn flood(
    state: &[u64],
    seed: CellId,
    depth: Option<i32>,
    budget: u64,
    answer: &mut [u64],
) -> Result<Flooded, Refusal>
    ensures { (flooding_told result, answer.new) ≡ flood_of state.now seed depth budget answer.old }
{
    let state = checked_at(state, seed)?;
    let (rows, n) = state.cells();
    floods::give_flood(rows, n, component::stored(seed), depth, budget, answer)
}

// The path from one cell to another, both included: the fewest cells, and among as few the first in cell order. Where there is none that is
// told by 12, before 8.
pub fn path(state: &[u64], from: CellId, to: CellId, answer: &mut [u64]) -> Result<Listed, Refusal>
    ensures { (listing_told result, answer.new) ≡ path_of state.now from to answer.old }
{
    let state = checked_between(state, from, to)?;
    let (rows, n) = state.cells();
    lists::give_path(
        rows,
        n,
        component::stored(from),
        component::stored(to),
        answer,
    )
}
