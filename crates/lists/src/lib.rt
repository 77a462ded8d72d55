// Lists that are made of the rows of one table, and given in a slice; the state is not known here.
// The words of a table and the number of its rows are two arguments, as in `table`.
#![tactic(auto)]

ghost use Rattle.std.specs.Prelude.{◌≡◌, true, ℕ, ◌*◌, ◌≤◌, ◌<◌, length, take};
ghost use Rattle.component.specs.Range.{cell_in_range};
ghost use Rattle.model.specs.Lists.{keys};
ghost use Rattle.model.specs.Cells.{touch_at};
ghost use Rattle.model.specs.Questions.{nearby_by, cube as cube_by};
ghost use Rattle.model.specs.Update.{most_entities, most_cells};
ghost use Rattle.model.specs.Shortest.{shown_path};
ghost use Rattle.table.specs.Rows.{table1};
ghost use Rattle.table.specs.Moves.{over};
ghost use Rattle.layout.specs.Widths.{entity_width, net_width, group_width, answer_width};
ghost use Rattle.layout.specs.Rows.{entities_in, cells_in, net_in, groups_in};
ghost use Rattle.neighbourhood.specs.Standing.{Cells};
ghost use Rattle.neighbourhood.specs.Answers.{filled};
ghost use Rattle.path.specs.Walks.{shown_rows};
ghost use Rattle.lists.specs.Told.{listing_told, listed, listed_numbers, listed_cells, there, path_from};
ghost use Rattle.lists.specs.Parts.{having, standing_in, any_of};

use component::Cell;
use layout::{
    ANSWER_WIDTH, CELL_WIDTH, ENTITY_CELL, ENTITY_WIDTH, GROUP_WIDTH, MOST_CELLS, MOST_ENTITIES,
    NET_WIDTH,
};
use refusal::Refusal;

// Whether what was asked for was found, and how many the list holds: a cube holds cells about a centre that is not occupied.
#[derive(Clone, Copy, Debug, PartialEq, Eq)]
pub struct Listed {
    pub found: bool,
    pub count: usize,
}

// A list is given if the slice for it is long enough: whether it was found, how many it holds, and its words.
fn give(found: bool, count: usize, words: &[u64], answer: &mut [u64]) -> Result<Listed, Refusal>
    ensures { (listing_told result, answer.new) ≡ listed found count words.now answer.old }
{
    if answer.len() < words.len() {
        return Err(Refusal::TooLong(words.len()));
    }
    table::write_row(answer, 0, words);
    Ok(Listed { found, count })
}

// The keys of the groups' rows come to stand in words.
// Here and below an index counts the rows: behind an adapter of `iter_mut` a proof knows the length of the slice alone.
fn keys_into(rows: &[u64], n: usize, words: &mut [u64])
    requires { (group_width * n ≤ length rows.now) × (n ≤ length words.old) }
    ensures { words.new ≡ over words.old 0 (keys (table1 group_width n rows.now)) }
{
    for i in 0..n {
        words[i] = rows[GROUP_WIDTH * i];
    }
}

// The ids, by the rows of the groups.
pub fn give_ids(rows: &[u64], n: usize, answer: &mut [u64]) -> Result<Listed, Refusal>
    requires { (group_width * n ≤ length rows.now) × (n ≤ most_cells) }
    ensures { (listing_told result, answer.new) ≡ listed_numbers (there (keys (groups_in n rows.now))) answer.old }
{
    let mut words = [0u64; MOST_CELLS];
    keys_into(rows, n, &mut words);
    give(true, n, &words[..n], answer)
}

// The cells of a net list's rows come to stand in words.
fn net_into(rows: &[u64], n: usize, words: &mut [u64])
    requires { (net_width * n ≤ length rows.now) × (answer_width * n ≤ length words.old) }
    ensures { words.new ≡ filled words.old (net_in n rows.now) }
{
    for i in 0..n {
        let c = table::cell_at(rows, NET_WIDTH * i);
        neighbourhood::write_cell(words, ANSWER_WIDTH * i, c);
    }
}

// A net list, by its rows.
pub fn give_net(rows: &[u64], n: usize, answer: &mut [u64]) -> Result<Listed, Refusal>
    requires { (net_width * n ≤ length rows.now) × (n ≤ most_cells) }
    ensures { (listing_told result, answer.new) ≡ listed_cells (there (net_in n rows.now)) answer.old }
{
    let mut words = [0u64; ANSWER_WIDTH * MOST_CELLS];
    net_into(rows, n, &mut words);
    give(true, n, &words[..ANSWER_WIDTH * n], answer)
}

// The entities whose rows have the cell c come to stand in words; the answer is how many.
fn entities_into(rows: &[u64], n: usize, c: Cell, words: &mut [u64]) -> usize
    requires { (entity_width * n ≤ length rows.now) × (n ≤ length words.old) }
    ensures { (result ≡ length (standing_in (entities_in n rows.now) c)) × (words.new ≡ over words.old 0 (standing_in (entities_in n rows.now) c)) }
{
    let mut k = 0;
    for i in 0..n {
        if c == table::cell_at(rows, ENTITY_WIDTH * i + ENTITY_CELL) {
            words[k] = rows[ENTITY_WIDTH * i];
            k += 1;
        }
    }
    k
}

// The entities of a cell, by the rows of the entities; the cell is occupied if there are any.
pub fn give_entities(rows: &[u64], n: usize, c: Cell, answer: &mut [u64]) -> Result<Listed, Refusal>
    requires { (entity_width * n ≤ length rows.now) × (n ≤ most_entities) }
    ensures { (listing_told result, answer.new) ≡ listed_numbers (any_of (standing_in (entities_in n rows.now) c)) answer.old }
{
    let mut words = [0u64; MOST_ENTITIES];
    let k = entities_into(rows, n, c, &mut words);
    give(k != 0, k, &words[..k], answer)
}

// A cell and the occupied cells that it touches, by the rows of the occupied cells.
pub fn give_nearby(cells: &[u64], n: usize, c: Cell, answer: &mut [u64]) -> Result<Listed, Refusal>
    requires { (kind : ℕ) × Cells kind cells.now n (cells_in n cells.now) }
    ensures { (kind : ℕ) → Cells kind cells.now n (cells_in n cells.now) → (listing_told result, answer.new) ≡ listed_cells (nearby_by (touch_at kind) (having (cells_in n cells.now)) c) answer.old }
{
    let mut words = [0u64; ANSWER_WIDTH * MOST_CELLS];
    match table::find(cells, CELL_WIDTH, n, c) {
        Ok(i) => {
            let k = neighbourhood::nearby_into(cells, n, i, &mut words);
            give(true, k, &words[..ANSWER_WIDTH * k], answer)
        }
        Err(_) => give(false, 0, &[], answer),
    }
}

// The centre if it is occupied, then the occupied cells beside it, by the rows of the occupied cells.
pub fn give_cube(
    cells: &[u64],
    n: usize,
    c: Cell,
    radius: u8,
    answer: &mut [u64],
) -> Result<Listed, Refusal>
    requires { ((kind : ℕ) × Cells kind cells.now n (cells_in n cells.now)) × (cell_in_range c ≡ true) × (n ≤ most_cells) }
    ensures { (listing_told result, answer.new) ≡ listed_cells (cube_by (having (cells_in n cells.now)) c radius) answer.old }
{
    let mut words = [0u64; ANSWER_WIDTH * MOST_CELLS + ANSWER_WIDTH];
    let found = table::contains(cells, CELL_WIDTH, n, c);
    let mut from = 0;
    if found {
        neighbourhood::write_cell(&mut words, 0, c);
        from = 1;
    }
    let k = neighbourhood::cube_into(cells, n, c, radius as u64, &mut words, from);
    give(found, k, &words[..ANSWER_WIDTH * k], answer)
}

// The path between two rows that are there; 12 where none leads.
fn path_between(
    cells: &[u64],
    n: usize,
    from: usize,
    to: usize,
    answer: &mut [u64],
) -> Result<Listed, Refusal>
    requires { ((kind : ℕ) × Cells kind cells.now n (cells_in n cells.now)) × (from < n) × (to < n) × (n ≤ most_cells) }
    ensures { (kind : ℕ) → Cells kind cells.now n (cells_in n cells.now) → (listing_told result, answer.new) ≡ path_from (shown_rows kind cells.now (cells_in n cells.now) from to) answer.old }
{
    let mut words = [0u64; ANSWER_WIDTH * MOST_CELLS];
    let k = path::path_rows(cells, n, from, to, &mut words).ok_or(Refusal::NoPath)?;
    give(true, k, &words[..ANSWER_WIDTH * k], answer)
}

// The path between two cells, by the rows of the occupied cells; 12 also where an end is unoccupied.
pub fn give_path(
    cells: &[u64],
    n: usize,
    a: Cell,
    b: Cell,
    answer: &mut [u64],
) -> Result<Listed, Refusal>
    requires { ((kind : ℕ) × Cells kind cells.now n (cells_in n cells.now)) × (n ≤ most_cells) }
    ensures { (kind : ℕ) → Cells kind cells.now n (cells_in n cells.now) → (listing_told result, answer.new) ≡ path_from (shown_path (touch_at kind) (keys (cells_in n cells.now)) a b) answer.old }
{
    let (Ok(from), Ok(to)) = (
        table::find(cells, CELL_WIDTH, n, a),
        table::find(cells, CELL_WIDTH, n, b),
    ) else {
        return Err(Refusal::NoPath);
    };
    path_between(cells, n, from, to, answer)
}
