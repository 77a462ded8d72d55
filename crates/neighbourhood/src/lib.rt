// What is looked up in the table of occupied cells: a cell and those that its mask tells of, the occupied cells of a cube, floods.
// The words of the rows and their number are two arguments, as in `table`; marks and queue are the caller's, as no heap is used.
#![tactic(auto)]

ghost use Rattle.std.specs.Prelude.{◌≡◌, true, List, ◌++◌, ℕ, ◌+◌, ◌-◌, ◌*◌, ◌≤◌, ◌<◌, length, take, drop};
ghost use Rattle.component.specs.Stored.{biased};
ghost use Rattle.model.specs.Lists.{keep, keys, gather};
ghost use Rattle.model.specs.Cells.{Cell as CellOf, touch_at, shift};
ghost use Rattle.model.specs.Masks.{leads_to};
ghost use Rattle.model.specs.Places.{offset_at};
ghost use Rattle.model.specs.Flood.{near_on, within_depth};
ghost use Rattle.table.specs.Rows.{is_table4, table4};
ghost use Rattle.table.specs.Moves.{over};
ghost use Rattle.layout.specs.Widths.{cell_width, answer_width};
ghost use Rattle.neighbourhood.specs.Rows.{Lands, row_cell, row_near, row_for, onward};
ghost use Rattle.neighbourhood.specs.Fronts.{front, pushed, Followable};
ghost use Rattle.neighbourhood.specs.Standing.{Cells, Floodable, Flooded, OutsideMarked};
ghost use Rattle.neighbourhood.specs.Beside.{are_near, beside, plane_start};
ghost use Rattle.neighbourhood.specs.Answers.{answer_words, filled, NearbyAsked, Nearby, Queued, cells_of_rows};

use component::{Cell, signed_word};
use layout::{ANSWER_WIDTH, CELL_MASK, CELL_WIDTH};
use table::{find, find_near, index};

// The row of an occupied cell, looked for from a row that may be any.
fn row_of(cells: &[u64], n: usize, c: Cell, near: usize) -> usize
    requires { is_table4 cell_width n cells.now ≡ true }
    ensures { result ≡ row_for cells.now n c }
{
    index(find_near(cells, CELL_WIDTH, n, c, near))
}

// n after the step d on an axis: one down for 0, the same for 1, one up for 2.
// No enum stands for d, a digit of a place in the block of 27, which is counted with.
fn axis_to(n: u64, d: u64) -> u64
    requires { (0 < n + d) × (n + d ≤ 18446744073709551616) }
    ensures { result ≡ n + d - 1 }
{
    if d == 0 { n - 1 } else { n + (d - 1) }
}

// The cell that bit k of a mask of c tells of, whose place in the block of 27 leaves out the centre.
fn near_of(c: Cell, k: u64) -> Cell
    requires { (k < 26) × Lands c (offset_at k) }
    ensures { result ≡ shift c (offset_at k) }
{
    let j = component::step(k, 13);
    Cell {
        grid: c.grid,
        z: axis_to(c.z, j / 3 / 3),
        y: axis_to(c.y, j / 3 % 3),
        x: axis_to(c.x, j % 3),
    }
}

// The occupied cell that bit k of the mask of row i tells of.
fn near_cell(cells: &[u64], n: usize, i: usize, k: u64) -> Cell
    requires { (cell_width * n ≤ length cells.now) × (i < n) × (k < 26) × ((kind : ℕ) × (leads_to (touch_at kind) (keys (table4 cell_width n cells.now)) (row_cell cells.now i) (offset_at k) ≡ true)) }
    ensures { result ≡ row_near cells.now i k }
{
    near_of(table::cell_at(cells, CELL_WIDTH * i), k)
}

// The row of that cell, looked for from a row that may be any.
pub fn next_row(cells: &[u64], n: usize, i: usize, k: u64, near: usize) -> usize
    requires { (is_table4 cell_width n cells.now ≡ true) × (i < n) × (k < 26) × ((kind : ℕ) × (leads_to (touch_at kind) (keys (table4 cell_width n cells.now)) (row_cell cells.now i) (offset_at k) ≡ true)) }
    ensures { result ≡ row_for cells.now n (row_near cells.now i k) }
{
    row_of(cells, n, near_cell(cells, n, i, k), near)
}

// The unmarked rows that row i leads to are marked and queued, in cell order; the answer is the new end of the queue.
fn follow(
    cells: &[u64],
    n: usize,
    i: usize,
    label: u64,
    marks: &mut [u64],
    queue: &mut [u64],
    end: usize,
) -> usize
    requires { Followable cells.now n i label (front end marks.old queue.old) }
    ensures { front result marks.new queue.new ≡ pushed label (front end marks.old queue.old) (onward cells.now n i) }
{
    let m = cells[CELL_WIDTH * i + CELL_MASK];
    let mut near = i;
    let mut e = end;
    for k in 0..26 {
        if mask::has(m, k) {
            let j = next_row(cells, n, i, k, near);
            near = j;
            if marks[j] == 0 {
                marks[j] = label;
                queue[e] = j as u64;
                e += 1;
            }
        }
    }
    e
}

// The flood from the row seed over the unmarked rows: first in, first out, each row marked when queued, with a step more than the row
// that leads to it, touching cells taken in cell order.
pub fn flood_rows(
    cells: &[u64],
    n: usize,
    seed: usize,
    label: u64,
    step: u64,
    marks: &mut [u64],
    queue: &mut [u64],
) -> usize
    requires { Floodable cells.now n seed label step marks.old queue.old }
    ensures { (kind : ℕ) (t : List (CellOf × ℕ)) → Cells kind cells.now n t → Flooded kind cells.now n seed label step marks.old queue.old result marks.new queue.new }
{
    marks[seed] = label;
    queue[0] = seed as u64;
    let mut e = 1;
    let mut h = 0;
    // A range or an iterator would be fixed before the loop, and the queue grows in it.
    while h < e {
        let i = queue[h] as usize;
        let next = marks[i] + step;
        e = follow(cells, n, i, next, marks, queue, e);
        h += 1;
    }
    e
}

// The four words of a cell are written at at.
pub fn write_cell(answer: &mut [u64], at: usize, c: Cell)
    requires { at + answer_width ≤ length answer.old }
    ensures { answer.new ≡ over answer.old at (answer_words c) }
{
    let row = [c.grid, signed_word(c.x), signed_word(c.y), signed_word(c.z)];
    table::write_row(answer, at, &row);
}

// The cell of a row and then the occupied cells that it touches, in cell order, are written; the answer is how many.
pub fn nearby_into(cells: &[u64], n: usize, row: usize, answer: &mut [u64]) -> usize
    requires { NearbyAsked cells.now n row answer.old }
    ensures { (kind : ℕ) (t : List (CellOf × ℕ)) → Cells kind cells.now n t → Nearby kind cells.now row answer.old result answer.new t }
{
    let m = cells[CELL_WIDTH * row + CELL_MASK];
    write_cell(answer, 0, table::cell_at(cells, CELL_WIDTH * row));
    let mut e = 1;
    for k in 0..26 {
        if mask::has(m, k) {
            let d = near_cell(cells, n, row, k);
            write_cell(answer, ANSWER_WIDTH * e, d);
            e += 1;
        }
    }
    e
}

// Whether two numbers are at most r apart.
fn are_near(r: u64, m: u64, n: u64) -> bool
    ensures { result ≡ are_near r m n }
{
    m.abs_diff(n) <= r
}

// Whether d is of c's grid, at most r from it on each axis, and another cell.
fn is_beside(r: u64, c: Cell, d: Cell) -> bool
    ensures { result ≡ beside r c d }
{
    let g = d.grid == c.grid;
    let z = are_near(r, c.z, d.z);
    let y = are_near(r, c.y, d.y);
    let x = are_near(r, c.x, d.x);
    g & (z & (y & (x & (c != d))))
}

// The first row that is not before the plane z of a grid.
fn plane_row(cells: &[u64], n: usize, grid: u64, z: u64) -> usize
    requires { is_table4 cell_width n cells.now ≡ true }
    ensures { result ≡ row_for cells.now n (plane_start grid z) }
{
    let first = Cell {
        grid,
        z,
        y: 0,
        x: 0,
    };
    index(find(cells, CELL_WIDTH, n, first))
}

// The occupied cells beside c come to stand in words behind the first from cells; the answer is how many stand there then. Rows ascend
// by grid and plane, so that only those of the planes from z - r to z + r are looked at.
pub fn cube_into(cells: &[u64], n: usize, c: Cell, r: u64, words: &mut [u64], from: usize) -> usize
    requires { (is_table4 cell_width n cells.now ≡ true) × (c.z + r < 18446744073709551615) × (answer_width * (from + n) ≤ length words.old) }
    ensures { (result ≤ from + n) × (take (answer_width * result) words.new ≡ take (answer_width * from) words.old ++ gather answer_words (keep (beside r c) (keys (table4 cell_width n cells.now)))) × (drop (answer_width * result) words.new ≡ drop (answer_width * result) words.old) }
{
    let first = plane_row(cells, n, c.grid, c.z.saturating_sub(r));
    let end = plane_row(cells, n, c.grid, c.z + r + 1);
    let mut k = from;
    for i in first..end {
        let d = table::cell_at(cells, CELL_WIDTH * i);
        if is_beside(r, c, d) {
            write_cell(words, ANSWER_WIDTH * k, d);
            k += 1;
        }
    }
    k
}

// The cells of the first count rows are written, in their order.
// The count stands beside the rows, as the clause speaks of the first count rows, and what `floods` promises rests on it.
pub fn flood_into(cells: &[u64], n: usize, rows: &[u64], count: usize, answer: &mut [u64])
    requires { Queued cells.now n rows.now count × (answer_width * count ≤ length answer.old) }
    ensures { answer.new ≡ filled answer.old (cells_of_rows cells.now rows.now count) }
{
    for (k, row) in rows[..count].iter().enumerate() {
        let c = table::cell_at(cells, CELL_WIDTH * *row as usize);
        write_cell(answer, ANSWER_WIDTH * k, c);
    }
}

// Whether two coordinates differ by at most the depth, either sign; no two differ by at most a negative one.
fn is_near(d: u64, m: u64, n: u64) -> bool
    ensures { result ≡ near_on d m n }
{
    let zero = component::bias(0);
    d >= zero && are_near(d - zero, m, n)
}

// Whether a cell is within the depth of the seed on every axis.
fn is_within(d: u64, seed: Cell, c: Cell) -> bool
    ensures { result ≡ within_depth d seed c }
{
    is_near(d, seed.x, c.x) & (is_near(d, seed.y, c.y) & is_near(d, seed.z, c.z))
}

// The rows that are not within the depth of the row seed are marked, so that a flood takes them as walls.
pub fn mark_outside(cells: &[u64], n: usize, seed: usize, depth: i32, marks: &mut [u64])
    requires { (cell_width * n ≤ length cells.now) × (seed < n) × (n ≤ length marks.old) }
    ensures { OutsideMarked cells.now n (row_cell cells.now seed) (biased depth) marks.old marks.new }
{
    let d = component::bias(depth);
    let s = table::cell_at(cells, CELL_WIDTH * seed);
    for i in 0..n {
        if !is_within(d, s, table::cell_at(cells, CELL_WIDTH * i)) {
            marks[i] = 1;
        }
    }
}
