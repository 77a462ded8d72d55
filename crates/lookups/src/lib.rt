// Answers that one search in the rows of one table finds; the state is not known here.
// The words of a table and the number of its rows are two arguments, as in `table`.
#![tactic(auto)]

ghost use Rattle.std.specs.Prelude.{◌≡◌, true, ◌+◌, ◌≤◌, eqb, length};
ghost use Rattle.component.specs.Stored.{cell_id};
ghost use Rattle.model.specs.Lists.{get, each};
ghost use Rattle.model.specs.Cells.{same};
ghost use Rattle.model.specs.Questions.{ones_of};
ghost use Rattle.table.specs.Rows.{table4, is_table1, is_table4};
ghost use Rattle.layout.specs.Widths.{entity_width, cell_width, id_width, group_width};
ghost use Rattle.layout.specs.Rows.{id_of, corner_in, entities_in, cells_in, ids_in, groups_in};
ghost use Rattle.told.specs.Told.{maybe, seen};
ghost use Rattle.lookups.specs.Told.{corner_of, shown_of, corners_of};
ghost use Rattle.lookups.specs.Rows.{group_at};

use component::{Cell, CellCoord, CellId};
use layout::{
    CELL_ID, ENTITY_CELL, ENTITY_WIDTH, GROUP_CELLS, GROUP_ENTITIES, GROUP_GRID, GROUP_HIGH,
    GROUP_LOW, GROUP_WIDTH, ID_WIDTH,
};

// What is shown of a group: its grid, its cell count, its entity count, the low and the high corner.
#[derive(Clone, Copy, Debug, PartialEq, Eq)]
pub struct Shown {
    pub grid: u64,
    pub count: u64,
    pub entities: u64,
    pub low: CellCoord,
    pub high: CellCoord,
}

// Where an entity stands, by the rows of the entities.
pub fn find_entity(rows: &[u64], n: usize, entity: u64) -> Option<CellId>
    requires { is_table1 entity_width n rows.now ≡ true }
    ensures { maybe result ≡ seen cell_id (get eqb (entities_in n rows.now) entity) }
{
    let i = table::find(rows, ENTITY_WIDTH, n, entity).ok()?;
    let c = table::cell_at(rows, ENTITY_WIDTH * i + ENTITY_CELL);
    Some(component::cell_id(c))
}

// The number under a cell, in rows as the cells with an id have them; the occupied cells with their masks have such rows too.
fn number_under(rows: &[u64], n: usize, c: Cell) -> Option<u64>
    requires { is_table4 id_width n rows.now ≡ true }
    ensures { maybe result ≡ get same (each id_of (table4 id_width n rows.now)) c }
{
    let i = table::find(rows, ID_WIDTH, n, c).ok()?;
    Some(rows[ID_WIDTH * i + CELL_ID])
}

// The id of a cell, by the rows of the cells with an id.
pub fn find_id(rows: &[u64], n: usize, c: Cell) -> Option<u64>
    requires { is_table4 id_width n rows.now ≡ true }
    ensures { maybe result ≡ get same (ids_in n rows.now) c }
{
    number_under(rows, n, c)
}

// The neighbour count of a cell, by the rows of the occupied cells: the ones of its mask.
pub fn find_count(rows: &[u64], n: usize, c: Cell) -> Option<u32>
    requires { is_table4 cell_width n rows.now ≡ true }
    ensures { maybe result ≡ ones_of (get same (cells_in n rows.now) c) }
{
    number_under(rows, n, c).map(mask::count)
}

// The corner whose words x, y, z stand from at on.
fn corner_at(rows: &[u64], at: usize) -> CellCoord
    requires { at + 3 ≤ length rows.now }
    ensures { result ≡ corner_of (corner_in rows.now at) }
{
    let c = Cell {
        grid: 0,
        z: rows[at + 2],
        y: rows[at + 1],
        x: rows[at],
    };
    component::coord_of(c)
}

// The group whose words stand from at on.
fn shown_at(rows: &[u64], at: usize) -> Shown
    requires { at + group_width ≤ length rows.now }
    ensures { result ≡ shown_of (group_at rows.now at) }
{
    let low = corner_at(rows, at + GROUP_LOW);
    let high = corner_at(rows, at + GROUP_HIGH);
    Shown {
        grid: rows[at + GROUP_GRID],
        count: rows[at + GROUP_CELLS],
        entities: rows[at + GROUP_ENTITIES],
        low,
        high,
    }
}

// A group by id, by the rows of the groups.
pub fn find_group(rows: &[u64], n: usize, id: u64) -> Option<Shown>
    requires { is_table1 group_width n rows.now ≡ true }
    ensures { maybe result ≡ seen shown_of (get eqb (groups_in n rows.now) id) }
{
    let i = table::find(rows, GROUP_WIDTH, n, id).ok()?;
    Some(shown_at(rows, GROUP_WIDTH * i))
}

// The low and the high corner of a group, x, y, z of each.
pub fn corners(g: Shown) -> [[i32; 3]; 2]
    ensures { result ≡ corners_of g }
{
    let low = g.low;
    let high = g.high;
    [[low.x, low.y, low.z], [high.x, high.y, high.z]]
}
