// The path that is shown between two cells, over the rows of the occupied cells.
// The words of a table and the number of its rows are two arguments, as in `table`.
#![tactic(auto)]

ghost use Rattle.std.specs.Prelude.{◌≡◌, List, ℕ, ◌*◌, ◌≤◌, ◌<◌, length};
ghost use Rattle.std.proofs.Math.Option.{none};
ghost use Rattle.std.specs.Option.{MatchOption};
ghost use Rattle.model.specs.Cells.{Cell as CellOf};
ghost use Rattle.model.specs.Update.{most_cells};
ghost use Rattle.layout.specs.Widths.{answer_width};
ghost use Rattle.neighbourhood.specs.Standing.{Cells, HasTable, Levels};
ghost use Rattle.path.specs.Walks.{next_row, Steppable, Walkable, Walked, shown_rows};

use layout::{ANSWER_WIDTH, CELL_MASK, CELL_WIDTH, MOST_CELLS};

// The first row that row i leads to and that is one step nearer.
fn next_step(cells: &[u64], n: usize, marks: &[u64], i: usize) -> usize
    requires { Steppable cells.now n marks.now i }
    ensures { result ≡ next_row cells.now n marks.now i }
{
    let m = cells[CELL_WIDTH * i + CELL_MASK];
    let nearer = marks[i] - 1;
    let mut near = i;
    for k in 0..26 {
        if mask::has(m, k) {
            near = neighbourhood::next_row(cells, n, i, k, near);
            if marks[near] == nearer {
                return near;
            }
        }
    }
    i
}

// The cells of the path from a row to the row that the marks count from are written; the answer is how many, 0 from an unmarked row.
fn path_into(cells: &[u64], n: usize, marks: &[u64], from: usize, answer: &mut [u64]) -> usize
    requires { (to : ℕ) × Walkable cells.now n marks.now from to answer.old }
    ensures { (kind : ℕ) (t : List (CellOf × ℕ)) → Cells kind cells.now n t → (to : ℕ) → to < n → Levels cells.now n to marks.now → Walked kind cells.now n from to answer.old result answer.new t }
{
    let count = marks[from] as usize;
    let mut i = from;
    for k in 0..count {
        let c = table::cell_at(cells, CELL_WIDTH * i);
        neighbourhood::write_cell(answer, ANSWER_WIDTH * k, c);
        i = next_step(cells, n, marks, i);
    }
    count
}

// The cells of the path between two rows are written; the answer is how many, or none where no path leads: nothing is written then.
pub fn path_rows(
    cells: &[u64],
    n: usize,
    from: usize,
    to: usize,
    answer: &mut [u64],
) -> Option<usize>
    requires { HasTable cells.now n × (from < n) × (to < n) × (n ≤ most_cells) × (answer_width * n ≤ length answer.old) }
    ensures { (kind : ℕ) (t : List (CellOf × ℕ)) → Cells kind cells.now n t → MatchOption result ((shown_rows kind cells.now t from to ≡ none) × (answer.new ≡ answer.old)) (λ k. Walked kind cells.now n from to answer.old k answer.new t × (0 < k)) }
{
    let mut marks = [0u64; MOST_CELLS];
    let mut queue = [0u64; MOST_CELLS];
    neighbourhood::flood_rows(cells, n, to, 1, 1, &mut marks, &mut queue);
    if marks[from] == 0 {
        return None;
    }
    Some(path_into(cells, n, &marks, from, answer))
}
