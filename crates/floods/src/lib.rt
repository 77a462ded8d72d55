// A flood over the rows of the occupied cells, given in a slice; the state is not known here.
// The words of a table and the number of its rows are two arguments, as in `table`.
#![tactic(auto)]

ghost use Rattle.std.specs.Prelude.{◌≡◌, true, ℕ, ◌≤◌, ◌<◌, min, length};
ghost use Rattle.model.specs.Lists.{has, keys};
ghost use Rattle.model.specs.Cells.{same, touch_at};
ghost use Rattle.model.specs.Flood.{whole_flood, flood_cells, flood as flood_by};
ghost use Rattle.model.specs.Update.{most_cells};
ghost use Rattle.layout.specs.Rows.{cells_in};
ghost use Rattle.neighbourhood.specs.Rows.{row_cell};
ghost use Rattle.neighbourhood.specs.Standing.{Cells, open_cells};
ghost use Rattle.lists.specs.Parts.{having};
ghost use Rattle.floods.specs.Told.{flooding_told, flooded, depth_of};
ghost use Rattle.floods.specs.Parts.{NoneMarked, FloodAsked, Visits};

use component::Cell;
use layout::{ANSWER_WIDTH, CELL_WIDTH, MOST_CELLS};
use refusal::Refusal;

// How many cells a flood gives, and whether that was all of it.
#[derive(Clone, Copy, Debug, PartialEq, Eq)]
pub struct Visited {
    pub number: usize,
    pub was_all: bool,
}

// Whether the seed of a flood was found, and what the flood gives: nothing is all of it where it was not.
#[derive(Clone, Copy, Debug, PartialEq, Eq)]
pub struct Flooded {
    pub found: bool,
    pub visited: Visited,
}

// The rows that the depth leaves out, where there is one, are marked; the marks are scratch, and only which rows are open is promised.
fn leave_out(cells: &[u64], n: usize, seed: usize, depth: Option<i32>, marks: &mut [u64])
    requires { ((kind : ℕ) × Cells kind cells.now n (cells_in n cells.now)) × (seed < n) × (n ≤ length marks.old) × NoneMarked n marks.old }
    ensures { open_cells cells.now n marks.new ≡ flood_cells (depth_of depth) (row_cell cells.now seed) (keys (cells_in n cells.now)) }
{
    if let Some(d) = depth {
        neighbourhood::mark_outside(cells, n, seed, d, marks);
    }
}

// The rows of the flood from a row come to stand in the queue; the answer is how many. A depth may leave out the first itself. Marks and
// the rest of the queue are scratch.
fn queue_flood(
    cells: &[u64],
    n: usize,
    seed: usize,
    depth: Option<i32>,
    marks: &mut [u64],
    queue: &mut [u64],
) -> usize
    requires { FloodAsked cells.now n seed marks.old queue.old }
    ensures { (kind : ℕ) → Cells kind cells.now n (cells_in n cells.now) → Visits cells.now n queue.new result (whole_flood (touch_at kind) (flood_cells (depth_of depth) (row_cell cells.now seed) (keys (cells_in n cells.now))) (row_cell cells.now seed)) }
{
    leave_out(cells, n, seed, depth, marks);
    // 0 is how many rows are queued.
    if marks[seed] != 0 {
        return 0;
    }
    neighbourhood::flood_rows(cells, n, seed, 1, 0, marks, queue)
}

// The flood from a row that is there.
fn flood_from(
    cells: &[u64],
    n: usize,
    seed: usize,
    depth: Option<i32>,
    budget: u64,
    answer: &mut [u64],
) -> Result<Flooded, Refusal>
    requires { ((kind : ℕ) × Cells kind cells.now n (cells_in n cells.now)) × (seed < n) × (n ≤ most_cells) }
    ensures { (kind : ℕ) → Cells kind cells.now n (cells_in n cells.now) → (flooding_told result, answer.new) ≡ flooded true (flood_by (touch_at kind) (having (cells_in n cells.now)).occupancy (row_cell cells.now seed) (depth_of depth) budget) answer.old }
{
    let mut marks = [0u64; MOST_CELLS];
    let mut queue = [0u64; MOST_CELLS];
    let whole = queue_flood(cells, n, seed, depth, &mut marks, &mut queue);
    let number = budget.min(whole as u64) as usize;
    if answer.len() < ANSWER_WIDTH * number {
        return Err(Refusal::TooLong(ANSWER_WIDTH * number));
    }
    neighbourhood::flood_into(cells, n, &queue, number, answer);
    let was_all = whole as u64 <= budget;
    Ok(Flooded {
        found: true,
        visited: Visited { number, was_all },
    })
}

// The flood from a cell, by the rows of the occupied cells; an unoccupied seed gives nothing, and that is all of it.
pub fn give_flood(
    cells: &[u64],
    n: usize,
    c: Cell,
    depth: Option<i32>,
    budget: u64,
    answer: &mut [u64],
) -> Result<Flooded, Refusal>
    requires { ((kind : ℕ) × Cells kind cells.now n (cells_in n cells.now)) × (n ≤ most_cells) }
    ensures { (kind : ℕ) → Cells kind cells.now n (cells_in n cells.now) → (flooding_told result, answer.new) ≡ flooded (has same (keys (cells_in n cells.now)) c) (flood_by (touch_at kind) (having (cells_in n cells.now)).occupancy c (depth_of depth) budget) answer.old }
{
    match table::find(cells, CELL_WIDTH, n, c) {
        Ok(i) => flood_from(cells, n, i, depth, budget, answer),
        Err(_) => Ok(Flooded {
            found: false,
            visited: Visited {
                number: 0,
                was_all: true,
            },
        }),
    }
}
