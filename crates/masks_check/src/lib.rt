// Whether each mask has exactly the bits of the occupied cells that touch at a kind.
// The words of a table and the number of its rows are two arguments, as in `table`.
// A kind of touching is a number here and not an enum: each answer is promised for every number.
#![tactic(auto)]

ghost use Rattle.std.specs.Prelude.{◌≡◌, true, ◌+◌, ◌-◌, ◌*◌, ◌≤◌, length};
ghost use Rattle.component.specs.Touch.{touches};
ghost use Rattle.model.specs.Lists.{all, keys};
ghost use Rattle.model.specs.Cells.{touch_at};
ghost use Rattle.model.specs.Masks.{mask_of};
ghost use Rattle.model.specs.Places.{slot};
ghost use Rattle.table.specs.Rows.{table4, is_table4};
ghost use Rattle.layout.specs.Widths.{cell_width};
ghost use Rattle.layout.specs.Rows.{cells_in};
ghost use Rattle.masks_check.specs.Rows.{row_right};

use component::Cell;
use kinds::touching_at;
use layout::{CELL_MASK, CELL_WIDTH};
use std::cmp::Ordering;
use table::cell_at;

// The step on an axis from a to b, which are close: 0 down, 1 staying, 2 up.
// No enum stands for it, a digit of a place in the block of 27, which is counted with.
fn axis_step(a: u64, b: u64) -> u64
    requires { (a ≤ b + 1) × (b ≤ a + 1) }
    ensures { (result ≡ b + 1 - a) × (result ≤ 2) }
{
    match b.cmp(&a) {
        Ordering::Less => 0,
        Ordering::Equal => 1,
        Ordering::Greater => 2,
    }
}

// The bit of d in the mask of c, which it touches.
fn slot_of(c: Cell, d: Cell) -> u64
    requires { touches c d ≡ true }
    ensures { (result ≡ slot c d) × (result ≤ 26) }
{
    let z = axis_step(c.z, d.z);
    let y = axis_step(c.y, d.y);
    let x = axis_step(c.x, d.x);
    let p = (z * 3 + y) * 3 + x;
    if p < 13 { p } else { p - 1 }
}

// The mask of c at the kind among the cells of m rows, by a look at each of them, whatever its coordinates.
fn scanned(kind: u64, cells: &[u64], m: usize, c: Cell) -> u64
    requires { cell_width * m ≤ length cells.now }
    ensures { result ≡ mask_of (touch_at kind) (keys (table4 cell_width m cells.now)) c }
{
    let mut bits = 0;
    for i in 0..m {
        let d = cell_at(cells, CELL_WIDTH * i);
        if touching_at(kind, c, d) {
            bits = mask::set(bits, slot_of(c, d));
        }
    }
    bits
}

// The mask of c at the kind among the cells of m rows.
fn mask_of(kind: u64, cells: &[u64], m: usize, c: Cell) -> u64
    requires { is_table4 cell_width m cells.now ≡ true }
    ensures { result ≡ mask_of (touch_at kind) (keys (table4 cell_width m cells.now)) c }
{
    if component::has_room(c, 1) {
        map::note(cells, m, kind, c)
    } else {
        scanned(kind, cells, m, c)
    }
}

// Whether the mask of each of m rows is right at the kind.
pub fn masks_right(kind: u64, cells: &[u64], m: usize) -> bool
    requires { is_table4 cell_width m cells.now ≡ true }
    ensures { result ≡ all (row_right kind (keys (table4 cell_width m cells.now))) (cells_in m cells.now) }
{
    (0..m).all(|i| {
        let c = cell_at(cells, CELL_WIDTH * i);
        cells[CELL_WIDTH * i + CELL_MASK] == mask_of(kind, cells, m, c)
    })
}
