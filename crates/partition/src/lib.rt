// Groups of touching cells: the cells that have an id, row by row in lent words, and the rules that keep them.
// A kind of touching is a number here and not an enum: each answer is promised for every number.
#![tactic(auto)]

ghost use Rattle.std.specs.Prelude.{◌≡◌, ℕ, ◌+◌, ◌*◌, ◌<◌, ◌≤◌, List, [], ◌∷◌, length, get_or, take, drop, replicate, T, ltb, eqb};
ghost use Rattle.table.specs.Moves.{over};
ghost use Rattle.model.specs.Lists.{all, has, get, put, run};
ghost use Rattle.model.specs.Cells.{Cell, below, cell_in_range, touch_at};
ghost use Rattle.model.specs.Groups.{Ids, Groups, Group, size, largest_group, merge, found_at, rule1, rule2, records};
ghost use Rattle.layout.specs.Rows.{ids_in};
ghost use Rattle.layout.specs.Widths.{id_width, net_width, group_width, group_cells, group_entities};
ghost use Rattle.partition.specs.Held.{HeldTable, HeldRows, HeldIds, HeldCells, HeldGroups, HeldCounts, grown, corner_cell, grown_words, few, joined, words_of, row_in, Sifted};

use arrayvec::ArrayVec;
use component::Cell;
use kinds::has_offset;
use layout::{
    CELL_ID, GROUP_CELLS, GROUP_ENTITIES, GROUP_GRID, GROUP_HIGH, GROUP_LOW, GROUP_WIDTH, ID_WIDTH,
    NET_WIDTH, neighbour_of,
};
use table::{cell_at, contains, find, find_near, index, put, write_zeros};

// The number of rows goes beside the words: each method of a struct that held both would have to say that it still lends the same words.

// A corner of the group record at at, whose coordinates stand from first on, as a cell of the group's grid.
fn corner_at(groups: &[u64], at: usize, first: usize) -> Cell
    requires { (at + group_width ≤ length groups.now) × (first + 3 ≤ group_width) }
    ensures { result ≡ corner_cell groups.now at first }
{
    Cell {
        grid: groups[at + GROUP_GRID],
        z: groups[at + (first + 2)],
        y: groups[at + (first + 1)],
        x: groups[at + first],
    }
}

// The words of the group record at at, with the cell c more, in which m entities stand.
fn grown_row(groups: &[u64], at: usize, c: Cell, m: u64) -> [u64; GROUP_WIDTH]
    requires { (at + group_width ≤ length groups.now) × (get_or groups.now (at + group_cells) 0 < 9223372036854775808) × (get_or groups.now (at + group_entities) 0 < 9223372036854775808) × (m < 9223372036854775808) }
    ensures { result ≡ grown_words groups.now at c m }
{
    let low = corner_at(groups, at, GROUP_LOW);
    let high = corner_at(groups, at, GROUP_HIGH);
    let lower = Cell::min(low, c);
    let higher = Cell::max(high, c);
    [
        groups[at],
        groups[at + GROUP_GRID],
        groups[at + GROUP_CELLS] + 1,
        groups[at + GROUP_ENTITIES] + m,
        lower.x,
        lower.y,
        lower.z,
        higher.x,
        higher.y,
        higher.z,
    ]
}

// The cell c, in which m entities stand, is counted in the record of the group g; the answer is the new number of records.
fn count_cell(groups: &mut [u64], k: usize, c: Cell, m: u64, g: u64) -> usize
    requires { (l : List (ℕ × Group)) × HeldGroups groups.old k l × few l × (group_width * k + group_width ≤ length groups.old) × (m < 9223372036854775808) }
    ensures { (l : List (ℕ × Group)) → HeldGroups groups.old k l → HeldGroups groups.new result (put ltb g (grown (get eqb l g) c m) l) }
{
    let row = match find(groups, GROUP_WIDTH, k, g) {
        Ok(i) => grown_row(groups, GROUP_WIDTH * i, c, m),
        Err(_) => [g, c.grid, 1, m, c.x, c.y, c.z, c.x, c.y, c.z],
    };
    put::<u64>(groups, k, &row)
}

// The group records of the cells with ids are written, with the entities that are counted in each cell; the answer is the number of records.
pub fn build_records(ids: &[u64], n: usize, counts: &[u64], groups: &mut [u64]) -> usize
    requires { (e : List (ℕ × Cell)) × (t : Ids) × HeldTable ids.now n t × HeldCounts counts.now ids.now n e × (length e < 9223372036854775808) × (groups.old ≡ replicate (length groups.old) 0) × (group_width * n ≤ length groups.old) }
    ensures { (e : List (ℕ × Cell)) (t : Ids) → HeldTable ids.now n t → HeldCounts counts.now ids.now n e → HeldGroups groups.new result (records e t) }
{
    let mut k = 0;
    for i in 0..n {
        k = count_cell(
            groups,
            k,
            cell_at(ids, ID_WIDTH * i),
            counts[i],
            ids[ID_WIDTH * i + CELL_ID],
        );
    }
    k
}

// The ids at the neighbours of c at the kind, in order.
pub fn found_at(ids: &[u64], n: usize, kind: u64, c: Cell) -> ArrayVec<u64, 26>
    requires { (t : Ids) × HeldRows ids.now n t × T (cell_in_range c) }
    ensures { (t : Ids) → HeldRows ids.now n t → result.items ≡ found_at (touch_at kind) t c }
{
    let mut found = ArrayVec::new();
    let mut near = 0;
    for k in 0..26u64 {
        if has_offset(kind, k) {
            let p = find_near(ids, ID_WIDTH, n, neighbour_of(c, k + 1), near);
            near = index(p);
            if let Ok(i) = p {
                found.push(ids[ID_WIDTH * i + CELL_ID]);
            }
        }
    }
    found
}

// How many cells the group g has.
fn group_size(ids: &[u64], n: usize, g: u64) -> usize
    requires { id_width * n ≤ length ids.now }
    ensures { result ≡ size (ids_in n ids.now) g }
{
    let mut m = 0;
    for i in 0..n {
        if ids[ID_WIDTH * i + CELL_ID] == g {
            m += 1;
        }
    }
    m
}

// The largest of the groups found; among equals the earliest.
fn largest(ids: &[u64], n: usize, found: &[u64]) -> u64
    requires { (id_width * n ≤ length ids.now) × (1 ≤ length found.now) }
    ensures { result ≡ largest_group (ids_in n ids.now) (get_or found.now 0 0) (drop 1 found.now) }
{
    let mut best = found[0];
    for &g in &found[1..] {
        if group_size(ids, n, best) < group_size(ids, n, g) {
            best = g;
        }
    }
    best
}

// All of the groups found become the group `into`.
fn merge(ids: &mut [u64], n: usize, found: &[u64], into: u64)
    requires { (t : Ids) × HeldRows ids.old n t }
    ensures { (t : Ids) → HeldRows ids.old n t → HeldRows ids.new n (merge into found.now t) }
{
    for i in 0..n {
        if found.contains(&ids[ID_WIDTH * i + CELL_ID]) {
            ids[ID_WIDTH * i + CELL_ID] = into;
        }
    }
}

// The cell c takes the id g; the answer is the new number of rows.
fn push(ids: &mut [u64], n: usize, c: Cell, g: u64) -> usize
    requires { (t : Ids) × HeldRows ids.old n t × T (cell_in_range c) × (id_width * n + id_width ≤ length ids.old) }
    ensures { (result ≤ n + 1) × ((t : Ids) → HeldRows ids.old n t → HeldRows ids.new result (put below c g t)) }
{
    let row = [c.grid, c.z, c.y, c.x, g];
    put::<Cell>(ids, n, &row)
}

// How many rows there are, and the next id.
#[derive(Clone, Copy)]
pub struct Numbered {
    pub count: usize,
    pub next: u64,
}

// Whether the groups found are all the same.
fn all_same(found: &[u64]) -> bool
    requires { 1 ≤ length found.now }
    ensures { result ≡ all (eqb (get_or found.now 0 0)) found.now }
{
    let first = found[0];
    found.iter().all(|g| first == *g)
}

// The cell c joins the first of the groups found, and all found merge; the answer is the new number of rows.
fn join(ids: &mut [u64], n: usize, c: Cell, found: &[u64]) -> usize
    requires { (t : Ids) × HeldRows ids.old n t × T (cell_in_range c) × (id_width * n + id_width ≤ length ids.old) × (1 ≤ length found.now) }
    ensures { (result ≤ n + 1) × ((t : Ids) → HeldRows ids.old n t → HeldRows ids.new result (joined t c found.now)) }
{
    let r = push(ids, n, c, found[0]);
    if !all_same(found) {
        let into = largest(ids, r, found);
        merge(ids, r, found, into);
    }
    r
}

// Rule 1, for one newly occupied cell.
fn rule1(ids: &mut [u64], held: Numbered, kind: u64, c: Cell) -> Numbered
    requires { (s : Groups) × HeldIds ids.old held.count held.next s × T (cell_in_range c) × (id_width * held.count + id_width ≤ length ids.old) × (held.next < 18446744073709551615) }
    ensures { (result.count ≤ held.count + 1) × (result.next ≤ held.next + 1) × ((s : Groups) → HeldIds ids.old held.count held.next s → HeldIds ids.new result.count result.next (rule1 (touch_at kind) s c)) }
{
    let found = found_at(ids, held.count, kind, c);
    if found.is_empty() {
        return Numbered {
            count: push(ids, held.count, c, held.next),
            next: held.next + 1,
        };
    }
    Numbered {
        count: join(ids, held.count, c, &found),
        next: held.next,
    }
}

// Rule 1 for m newly occupied cells, in order.
pub fn rules1(
    ids: &mut [u64],
    mut held: Numbered,
    kind: u64,
    occupied: &[u64],
    m: usize,
) -> Numbered
    requires { (s : Groups) × (l : List Cell) × HeldIds ids.old held.count held.next s × HeldCells occupied.now m l × (id_width * held.count + id_width * m ≤ length ids.old) × (held.next + m < 18446744073709551616) }
    ensures { (result.count ≤ held.count + m) × (result.next ≤ held.next + m) × ((s : Groups) (l : List Cell) → HeldIds ids.old held.count held.next s → HeldCells occupied.now m l → HeldIds ids.new result.count result.next (run (rule1 (touch_at kind)) s l)) }
{
    for i in 0..m {
        held = rule1(ids, held, kind, cell_at(occupied, NET_WIDTH * i));
    }
    held
}

// Row i is copied to row j.
fn copy_row(ids: &mut [u64], i: usize, j: usize)
    requires { (j ≤ i) × (id_width * i + id_width ≤ length ids.old) }
    ensures { ids.new ≡ over ids.old (id_width * j) (words_of (row_in ids.old i ∷ [])) }
{
    let at = ID_WIDTH * i;
    ids.copy_within(at..at + ID_WIDTH, ID_WIDTH * j);
}

// The rows of cells that are not emptied are moved to the front; the answer is their number.
fn sift(ids: &mut [u64], n: usize, emptied: &[u64], m: usize) -> usize
    requires { (t : Ids) × (l : List Cell) × HeldRows ids.old n t × HeldCells emptied.now m l }
    ensures { (result ≤ n) × (drop (id_width * result) ids.new ≡ drop (id_width * result) ids.old) × ((t : Ids) (l : List Cell) → HeldRows ids.old n t → HeldCells emptied.now m l → Sifted ids.new n result l t) }
{
    let mut j = 0;
    for i in 0..n {
        if !contains(emptied, NET_WIDTH, m, cell_at(ids, ID_WIDTH * i)) {
            copy_row(ids, i, j);
            j += 1;
        }
    }
    j
}

// Rule 2: all newly emptied cells leave their groups; the answer is the new number of rows.
pub fn rule2(ids: &mut [u64], n: usize, emptied: &[u64], m: usize) -> usize
    requires { (t : Ids) × (l : List Cell) × HeldRows ids.old n t × HeldCells emptied.now m l }
    ensures { (result ≤ n) × ((kind next : ℕ) (s : Groups) (l : List Cell) → HeldIds ids.old n next s → HeldCells emptied.now m l → HeldIds ids.new result next (rule2 (touch_at kind) l s)) }
{
    let r = sift(ids, n, emptied, m);
    write_zeros(ids, ID_WIDTH * r, ID_WIDTH * (n - r));
    r
}
