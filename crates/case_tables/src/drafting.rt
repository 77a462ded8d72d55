// A yard is drafted: row by row, each where docs/STATE.md says that it stands.
ghost use Rattle.std.specs.Prelude.{◌<◌};

use crate::tables::Table;
use case_rows::keys::Word;
use case_rows::reading::Row;
use case_rows::yards::Yard;
use component::{Cell, stored_word};
use layout::{GROUP_HIGH, GROUP_LOW, KIND, NEXT_ID, STATE_LEN};

// One row more of a table: the header counts it; the answer is where it stands.
fn new_row(draft: &mut Yard, table: Table) -> usize
    ensures { result < 100000 }
{
    let n = draft.get(table.count());
    draft.put(table.count(), n.wrapping_add(1));
    table.word_at(n as usize, 0)
}

// The cell of four numbers of a row.
pub fn cell_of(grid: u64, x: u64, y: u64, z: u64) -> Cell {
    Cell {
        grid,
        z: stored_word(z),
        y: stored_word(y),
        x: stored_word(x),
    }
}

// An entity in a cell.
fn entity(draft: &mut Yard, row: &Row) {
    let [entity, grid, x, y, z, ..] = row.numbers;
    let c = cell_of(grid, x, y, z);
    let at = new_row(draft, Table::Entities);
    draft.put_all(at, &[entity, c.grid, c.z, c.y, c.x]);
}

// An occupied cell with its id and its mask, which has a row of two tables.
fn cell(draft: &mut Yard, row: &Row) {
    let [grid, x, y, z, id, mask, ..] = row.numbers;
    let c = cell_of(grid, x, y, z);
    let at = new_row(draft, Table::Ids);
    draft.put_all(at, &[c.grid, c.z, c.y, c.x, id]);
    let to = new_row(draft, Table::Cells);
    draft.put_all(to, &[c.grid, c.z, c.y, c.x, mask]);
}

// A cell of one of the net lists.
fn net(draft: &mut Yard, row: &Row, table: Table) {
    let [grid, x, y, z, ..] = row.numbers;
    let c = cell_of(grid, x, y, z);
    let at = new_row(draft, table);
    draft.put_all(at, &[c.grid, c.z, c.y, c.x]);
}

// A group: id, grid, cell count, entity count, low corner, high corner.
fn record(draft: &mut Yard, row: &Row) {
    let [
        id,
        grid,
        cells,
        entities,
        lowx,
        lowy,
        lowz,
        highx,
        highy,
        highz,
        ..
    ] = row.numbers;
    let low = [stored_word(lowx), stored_word(lowy), stored_word(lowz)];
    let high = [stored_word(highx), stored_word(highy), stored_word(highz)];
    let at = new_row(draft, Table::Groups);
    draft.put_all(at, &[id, grid, cells, entities]);
    draft.put_all(at + GROUP_LOW, &low);
    draft.put_all(at + GROUP_HIGH, &high);
}

// No rows, the next id and the kind of touching; behind the state stand words of no meaning.
fn blank(draft: &mut Yard, next: u64, kind: u64) {
    draft.spoil(STATE_LEN);
    draft.put(NEXT_ID, next);
    draft.put(KIND, kind);
}

// A row that drafts a yard; whether it was one.
pub fn draft_row(draft: &mut Yard, row: &Row) -> bool {
    match row.words[0] {
        Word::Blank => blank(draft, row.numbers[0], row.numbers[1]),
        Word::Entity => entity(draft, row),
        Word::Cell => cell(draft, row),
        Word::Entered => net(draft, row, Table::Occupied),
        Word::Left => net(draft, row, Table::Emptied),
        Word::Record => record(draft, row),
        _ => return false,
    }
    true
}
