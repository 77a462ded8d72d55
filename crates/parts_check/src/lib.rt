// Whether ids are shared exactly by joined cells.
// The words of a table and the number of its rows are two arguments, as in `table`.
#![tactic(auto)]

ghost use Rattle.std.specs.Prelude.{◌≡◌, ℕ, ◌*◌, ◌≤◌, ◌<◌, length, List};
ghost use Rattle.model.specs.Lists.{all, keys, count};
ghost use Rattle.model.specs.Cells.{Cell as CellOf, touch_at};
ghost use Rattle.model.specs.Shared.{shared_in};
ghost use Rattle.neighbourhood.specs.Standing.{Cells, HasTable};
ghost use Rattle.table.specs.Rows.{table4};
ghost use Rattle.model.specs.Update.{most_cells};
ghost use Rattle.layout.specs.Widths.{cell_width, id_width};
ghost use Rattle.layout.specs.Rows.{ids_in};
ghost use Rattle.parts_check.specs.Parts.{Labelled};
ghost use Rattle.parts_check.specs.Agree.{agree_at, first_agrees, Partable};

use layout::{CELL_ID, ID_WIDTH, MOST_CELLS};

// Each row is marked with one more than the first row of its connected part.
fn mark_parts(cells: &[u64], m: usize, marks: &mut [u64], queue: &mut [u64])
    requires { Partable cells.now m marks.old queue.old }
    ensures { (kind : ℕ) (t : List (CellOf × ℕ)) → Cells kind cells.now m t → Labelled kind cells.now m t m marks.new }
{
    for i in 0..m {
        if marks[i] == 0 {
            neighbourhood::flood_rows(cells, m, i, i as u64 + 1, 0, marks, queue);
        }
    }
}

// Whether each of m rows has the id of row i exactly if it has the mark of row i.
fn row_agrees(ids: &[u64], m: usize, marks: &[u64], i: usize) -> bool
    requires { (i < m) × (id_width * m ≤ length ids.now) × (m ≤ length marks.now) }
    ensures { result ≡ all (agree_at ids.now marks.now i) (count 0 m) }
{
    (0..m).all(|j| {
        (ids[ID_WIDTH * i + CELL_ID] == ids[ID_WIDTH * j + CELL_ID]) == (marks[i] == marks[j])
    })
}

// Whether the first row of each part agrees with all rows.
fn firsts_agree(ids: &[u64], m: usize, marks: &[u64]) -> bool
    requires { (id_width * m ≤ length ids.now) × (m ≤ length marks.now) }
    ensures { result ≡ all (first_agrees ids.now m marks.now) (count 0 m) }
{
    (0..m).all(|i| marks[i] != i as u64 + 1 || row_agrees(ids, m, marks, i))
}

// Whether the ids of m rows are shared exactly by joined cells.
pub fn parts_right(cells: &[u64], ids: &[u64], m: usize) -> bool
    requires { HasTable cells.now m × (keys (table4 id_width m ids.now) ≡ keys (table4 cell_width m cells.now)) × (id_width * m ≤ length ids.now) × (m ≤ most_cells) }
    ensures { (kind : ℕ) (t : List (CellOf × ℕ)) → Cells kind cells.now m t → result ≡ shared_in (touch_at kind) (ids_in m ids.now) }
{
    let mut marks = [0u64; MOST_CELLS];
    let mut queue = [0u64; MOST_CELLS];
    mark_parts(cells, m, &mut marks, &mut queue);
    firsts_agree(ids, m, &marks)
}
