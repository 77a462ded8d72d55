// Whether a lent state is consistent, and if not by which point: the points of consistency in their order, 9 first.
#![tactic(auto)]

mod tables;

ghost use Rattle.std.specs.Prelude.{◌≡◌, true, IfOk};
ghost use Rattle.layout.specs.Points.{point1, point2, point3, point4, point5, point6, point7, point8, point9, first_broken};
ghost use Rattle.refusal.specs.Forms.{outcome};
ghost use Rattle.consistent.specs.Answer.{broken_number, passed, state_refusal};

use layout::{KIND, NEXT_ID, spare_words};
use refusal::{Point, Refusal};
pub use tables::Checked;
use tables::Long;

// 9. Whether the stored kind of touching is 6, 18 or 26.
fn kind_known(state: &Long<'_>) -> bool
    ensures { result ≡ point9 state.now.words.now }
{
    kinds::is_kind(state.words[KIND])
}

// 1. Whether the entities are distinct, they and the occupied cells within number.
fn entities_within(state: &Long<'_>) -> bool
    ensures { result ≡ point1 state.now.words.now }
{
    let spare = spare_words(state.words);
    let (ents, n) = state.entities();
    let (_, m) = state.cells();
    points_check::entities_right(spare, ents, n, m)
}

// 2. Whether the cells with an id, each held once, are exactly those an entity stands in, and so are the occupied cells.
fn cells_exact(state: &Long<'_>) -> bool
    requires { point1 state.now.words.now ≡ true }
    ensures { result ≡ point2 state.now.words.now }
{
    let (ents, n) = state.entities();
    let (cells, m) = state.cells();
    let (ids, k) = state.ids();
    points_check::cells_right(ents, n, cells, m, ids, k)
}

// 3. Whether each mask has exactly the bits of touching occupied cells.
fn masks_exact(state: &Long<'_>) -> bool
    requires { point2 state.now.words.now ≡ true }
    ensures { result ≡ point3 state.now.words.now }
{
    let (cells, m) = state.cells();
    masks_check::masks_right(state.words[KIND], cells, m)
}

// 4. Whether ids are shared exactly by joined cells.
fn ids_shared(state: &Long<'_>) -> bool
    requires { (point2 state.now.words.now ≡ true) × (point3 state.now.words.now ≡ true) }
    ensures { result ≡ point4 state.now.words.now }
{
    let (cells, m) = state.cells();
    let (ids, _) = state.ids();
    parts_check::parts_right(cells, ids, m)
}

// 5. Whether there is one group record for each id that a cell has and no other, its grid, corners and counts exact.
fn records_exact(state: &Long<'_>) -> bool
    requires { (point1 state.now.words.now ≡ true) × (point2 state.now.words.now ≡ true) }
    ensures { result ≡ point5 state.now.words.now }
{
    let (ents, n) = state.entities();
    let (ids, k) = state.ids();
    let (groups, g) = state.groups();
    points_check::records_right(ents, n, ids, k, groups, g)
}

// 6. Whether every id is below the next id.
fn ids_below_next(state: &Long<'_>) -> bool
    requires { point2 state.now.words.now ≡ true }
    ensures { result ≡ point6 state.now.words.now }
{
    let (ids, k) = state.ids();
    points_check::ids_below(ids, k, state.words[NEXT_ID])
}

// 7. Whether the coordinates are in range.
fn coordinates_in_range(state: &Long<'_>) -> bool
    requires { point1 state.now.words.now ≡ true }
    ensures { result ≡ point7 state.now.words.now }
{
    let (ents, n) = state.entities();
    let (occ, k) = state.occupied();
    let (emp, l) = state.emptied();
    points_check::coordinates_right(ents, n, occ, k, emp, l)
}

// 8. Whether both net lists ascend strictly, have at most 1,024 cells each, the first occupied, the second not.
fn nets_in_order(state: &Long<'_>) -> bool
    requires { point2 state.now.words.now ≡ true }
    ensures { result ≡ point8 state.now.words.now }
{
    let (cells, m) = state.cells();
    let (occ, k) = state.occupied();
    let (emp, l) = state.emptied();
    points_check::nets_right(cells, m, occ, k, emp, l)
}

// The first broken point: 9 before 1 to 8.
fn first_broken(state: &Long<'_>) -> Option<Point>
    ensures { broken_number result ≡ first_broken state.now.words.now }
{
    if !kind_known(state) {
        return Some(Point::Kind);
    }
    if !entities_within(state) {
        return Some(Point::Entities);
    }
    if !cells_exact(state) {
        return Some(Point::Cells);
    }
    if !masks_exact(state) {
        return Some(Point::Masks);
    }
    if !ids_shared(state) {
        return Some(Point::Ids);
    }
    if !records_exact(state) {
        return Some(Point::Records);
    }
    if !ids_below_next(state) {
        return Some(Point::NextId);
    }
    if !coordinates_in_range(state) {
        return Some(Point::Coordinates);
    }
    if !nets_in_order(state) {
        return Some(Point::Nets);
    }
    None
}

// 1 for a state that is too short, 2 with its first broken point for one that is not consistent, else its words with what is now known of them.
pub fn checked(state: &[u64]) -> Result<Checked<'_>, Refusal>
    ensures answer { passed result ≡ state_refusal state.now }
    ensures same { IfOk result (λ s. s.words.now ≡ state.now) }
{
    if state.len() < layout::state_len() {
        return Err(Refusal::TooShort);
    }
    match first_broken(&Long { words: state }) {
        Some(point) => Err(Refusal::Broken(point)),
        None => Ok(Checked { words: state }),
    }
}

// The same, where the words alone are asked about.
pub fn consistent(state: &[u64]) -> Result<(), Refusal>
    ensures { outcome result ≡ state_refusal state.now }
{
    checked(state)?;
    Ok(())
}
