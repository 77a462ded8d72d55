// The points of consistency that go along rows, each over the tables that it speaks of.
// The words of a table and the number of its rows are two arguments, as in `table`.
#![tactic(auto)]

ghost use Rattle.std.specs.Prelude.{◌≡◌, true, false, cond, not, ◌+◌, ◌*◌, ◌≤◌, length, ltb};
ghost use Rattle.std.specs.Option.{MatchOption};
ghost use Rattle.model.specs.Lists.{all, has, equal, keys, values};
ghost use Rattle.model.specs.Cells.{same, cell_in_range};
ghost use Rattle.model.specs.Update.{most_cells};
ghost use Rattle.table.specs.Rows.{cell_at, table4, is_table4};
ghost use Rattle.layout.specs.Widths.{entity_width, cell_width, net_width, id_width};
ghost use Rattle.layout.specs.Rows.{entities_in, net_in, ids_in};
ghost use Rattle.layout.specs.State.{groups_len};
ghost use Rattle.points_check.specs.Lines.{cells_at};
ghost use Rattle.points_check.specs.Marks.{Counted};
ghost use Rattle.points_check.specs.Points.{entities_right, standing_in, cells_right, records_right, coordinates_right, nets_right};

use component::Cell;
use layout::{
    CELL_ID, CELL_WIDTH, ENTITY_CELL, ENTITY_WIDTH, GROUPS_LEN, ID_WIDTH, MOST_CELLS,
    MOST_ENTITIES, NET_WIDTH,
};
use table::{cell_at, contains, find, is_table, zero_from};

// 1. Whether n entities are distinct, they and the m occupied cells within number, and the spare words zero.
pub fn entities_right(spare: &[u64], ents: &[u64], n: usize, m: usize) -> bool
    ensures { result ≡ entities_right spare.now ents.now n m }
{
    let zero = zero_from(spare, 0);
    let rows = is_table::<u64>(ents, ENTITY_WIDTH, n);
    zero & ((n <= MOST_ENTITIES) & ((m <= MOST_CELLS) & rows))
}

// Whether n rows of ids have the same cells as n rows of cells.
fn same_cells(cells: &[u64], ids: &[u64], n: usize) -> bool
    requires { (cell_width * n ≤ length cells.now) × (id_width * n ≤ length ids.now) }
    ensures { result ≡ equal same (keys (table4 id_width n ids.now)) (keys (table4 cell_width n cells.now)) }
{
    (0..n).all(|i| cell_at(ids, ID_WIDTH * i) == cell_at(cells, CELL_WIDTH * i))
}

// How many entities stand in each row's cell; nothing where some entity's cell has no row.
fn count_rows(ents: &[u64], n: usize, cells: &[u64], m: usize) -> Option<[u64; MOST_CELLS]>
    requires { (is_table4 cell_width m cells.now ≡ true) × (entity_width * n ≤ length ents.now) × (m ≤ most_cells) }
    ensures { MatchOption result (all (has same (keys (table4 cell_width m cells.now))) (values (entities_in n ents.now)) ≡ false) (λ counts. (all (has same (keys (table4 cell_width m cells.now))) (values (entities_in n ents.now)) ≡ true) × Counted (values (entities_in n ents.now)) (λ j. cell_at cells.now (cell_width * j)) m counts × (length counts ≡ most_cells)) }
{
    let mut counts = [0u64; MOST_CELLS];
    for i in 0..n {
        let c = cell_at(ents, ENTITY_WIDTH * i + ENTITY_CELL);
        match find(cells, CELL_WIDTH, m, c) {
            Ok(j) => counts[j] += 1,
            Err(_) => return None,
        }
    }
    Some(counts)
}

// Whether the cells of m rows are exactly those that the entities stand in.
fn stood_in(ents: &[u64], n: usize, cells: &[u64], m: usize) -> bool
    requires { (is_table4 cell_width m cells.now ≡ true) × (entity_width * n ≤ length ents.now) × (m ≤ most_cells) }
    ensures { result ≡ equal same (keys (table4 cell_width m cells.now)) (standing_in n ents.now) }
{
    match count_rows(ents, n, cells, m) {
        Some(counts) => !counts[..m].contains(&0),
        None => false,
    }
}

// 2. Whether the rows of k cells with an id and those of m occupied cells, each held once, are exactly the cells that n entities stand in.
pub fn cells_right(ents: &[u64], n: usize, cells: &[u64], m: usize, ids: &[u64], k: usize) -> bool
    requires { (entity_width * n ≤ length ents.now) × (m ≤ most_cells) × (cell_width * most_cells ≤ length cells.now) × (id_width * most_cells ≤ length ids.now) }
    ensures { result ≡ cells_right ents.now n cells.now m ids.now k }
{
    if m != k {
        return false;
    }
    if !is_table::<Cell>(cells, CELL_WIDTH, m) {
        return false;
    }
    if !is_table::<Cell>(ids, ID_WIDTH, m) {
        return false;
    }
    if !same_cells(cells, ids, m) {
        return false;
    }
    stood_in(ents, n, cells, m)
}

// 5. Whether the rows of g groups are the records of the cells with an id: one for each id, its grid, corners and counts exact.
pub fn records_right(
    ents: &[u64],
    n: usize,
    ids: &[u64],
    k: usize,
    groups: &[u64],
    g: usize,
) -> bool
    requires { (entity_width * n ≤ length ents.now) × (is_table4 id_width k ids.now ≡ true) × (k ≤ most_cells) × (length groups.now ≡ groups_len) × (all (has same (keys (table4 id_width k ids.now))) (values (entities_in n ents.now)) ≡ true) }
    ensures { result ≡ records_right ents.now n ids.now k groups.now g }
{
    let Some(counts) = count_rows(ents, n, ids, k) else {
        return false;
    };
    let mut built = [0u64; GROUPS_LEN];
    let r = partition::build_records(ids, k, &counts, &mut built);
    if r != g {
        return false;
    }
    built.as_slice() == groups
}

// 6. Whether the ids of n rows are below the next id.
pub fn ids_below(ids: &[u64], n: usize, next: u64) -> bool
    requires { id_width * n ≤ length ids.now }
    ensures { result ≡ all (λ g. ltb g next) (values (ids_in n ids.now)) }
{
    (0..n).all(|i| ids[ID_WIDTH * i + CELL_ID] < next)
}

// Whether the cells at one place of n rows of width w are in range.
fn cells_in_range(s: &[u64], w: usize, at: usize, n: usize) -> bool
    requires { (at + 4 ≤ w) × (w * n ≤ length s.now) }
    ensures { result ≡ all cell_in_range (cells_at s.now w at n) }
{
    (0..n).all(|i| component::stored_in_range(cell_at(s, w * i + at)))
}

// Whether each of n cells is among those of m rows; or, where `wanted` is not set, none is.
fn all_held(net: &[u64], n: usize, cells: &[u64], m: usize, wanted: bool) -> bool
    requires { (is_table4 cell_width m cells.now ≡ true) × (net_width * n ≤ length net.now) }
    ensures { result ≡ all (λ c. cond wanted (has same (keys (table4 cell_width m cells.now)) c) (not (has same (keys (table4 cell_width m cells.now)) c))) (net_in n net.now) }
{
    (0..n).all(|i| contains(cells, CELL_WIDTH, m, cell_at(net, NET_WIDTH * i)) == wanted)
}

// 7. Whether the cells of n entities, and of the rows that each net list has, are in range.
pub fn coordinates_right(
    ents: &[u64],
    n: usize,
    occ: &[u64],
    k: usize,
    emp: &[u64],
    l: usize,
) -> bool
    requires { (entity_width * n ≤ length ents.now) × (length occ.now ≡ net_width * most_cells) × (length emp.now ≡ net_width * most_cells) }
    ensures { result ≡ coordinates_right ents.now n occ.now k emp.now l }
{
    cells_in_range(ents, ENTITY_WIDTH, ENTITY_CELL, n)
        & (cells_in_range(occ, NET_WIDTH, 0, k.min(MOST_CELLS))
            & cells_in_range(emp, NET_WIDTH, 0, l.min(MOST_CELLS)))
}

// 8. Whether both net lists ascend strictly, have at most 1,024 cells each, the first occupied, the second not.
pub fn nets_right(cells: &[u64], m: usize, occ: &[u64], k: usize, emp: &[u64], l: usize) -> bool
    requires { (is_table4 cell_width m cells.now ≡ true) × (length occ.now ≡ net_width * most_cells) × (length emp.now ≡ net_width * most_cells) }
    ensures { result ≡ nets_right cells.now m occ.now k emp.now l }
{
    if !is_table::<Cell>(occ, NET_WIDTH, k) {
        return false;
    }
    if !is_table::<Cell>(emp, NET_WIDTH, l) {
        return false;
    }
    all_held(occ, k, cells, m, true) & all_held(emp, l, cells, m, false)
}
