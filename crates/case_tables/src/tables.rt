// The tables of a state, by name: a word of a row, and how many rows the header counts.
ghost use Rattle.std.specs.Prelude.{◌<◌};

use case_rows::keys::Word;
use case_rows::reading::Row;
use case_rows::yards::Yard;
use component::stored_word;
use layout::{
    CELL_COUNT, CELL_ID, CELL_MASK, CELL_WIDTH, CELLS, EMPTIED, EMPTIED_COUNT, ENTITIES,
    ENTITY_CELL, ENTITY_COUNT, ENTITY_WIDTH, GROUP_CELLS, GROUP_COUNT, GROUP_ENTITIES, GROUP_GRID,
    GROUP_HIGH, GROUP_LOW, GROUP_WIDTH, GROUPS, ID_COUNT, ID_WIDTH, IDS, KIND, MOST_ENTITIES,
    NET_WIDTH, NEXT_ID, OCCUPIED, OCCUPIED_COUNT, SPARE, STATE_LEN,
};

#[derive(Clone, Copy, Debug, PartialEq, Eq)]
pub enum Table {
    Entities,
    Cells,
    Occupied,
    Emptied,
    Ids,
    Groups,
}

impl Table {
    // The table that a word names.
    pub fn named(name: Word) -> Option<Table> {
        match name {
            Word::Entities => Some(Table::Entities),
            Word::Cells => Some(Table::Cells),
            Word::Occupied => Some(Table::Occupied),
            Word::Emptied => Some(Table::Emptied),
            Word::Ids => Some(Table::Ids),
            Word::Groups => Some(Table::Groups),
            _ => None,
        }
    }

    // Which word of the header counts the rows.
    pub fn count(self) -> usize {
        match self {
            Table::Entities => ENTITY_COUNT,
            Table::Cells => CELL_COUNT,
            Table::Occupied => OCCUPIED_COUNT,
            Table::Emptied => EMPTIED_COUNT,
            Table::Ids => ID_COUNT,
            Table::Groups => GROUP_COUNT,
        }
    }

    // Where the rows begin.
    fn from(self) -> usize
        ensures { result < 50000 }
    {
        match self {
            Table::Entities => ENTITIES,
            Table::Cells => CELLS,
            Table::Occupied => OCCUPIED,
            Table::Emptied => EMPTIED,
            Table::Ids => IDS,
            Table::Groups => GROUPS,
        }
    }

    // How many words a row has.
    fn width(self) -> usize
        ensures { result < 11 }
    {
        match self {
            Table::Entities => ENTITY_WIDTH,
            Table::Cells => CELL_WIDTH,
            Table::Occupied | Table::Emptied => NET_WIDTH,
            Table::Ids => ID_WIDTH,
            Table::Groups => GROUP_WIDTH,
        }
    }

    // Where a word of a row stands. No table has rows past the most entities, and no row sixteen words.
    pub fn word_at(self, row: usize, word: usize) -> usize
        ensures { result < 100000 }
    {
        self.from() + row % MOST_ENTITIES * self.width() + word % 16
    }
}

// Which word of a group's row a name stands for.
fn in_group(name: Word) -> usize {
    match name {
        Word::Grid => GROUP_GRID,
        Word::Count => GROUP_CELLS,
        Word::Entities => GROUP_ENTITIES,
        Word::LowX => GROUP_LOW,
        Word::LowY => GROUP_LOW + 1,
        Word::LowZ => GROUP_LOW + 2,
        Word::HighX => GROUP_HIGH,
        Word::HighY => GROUP_HIGH + 1,
        Word::HighZ => GROUP_HIGH + 2,
        _ => 0,
    }
}

// Which word of a cell a name stands for.
fn in_cell(name: Word) -> usize {
    match name {
        Word::Z => 1,
        Word::Y => 2,
        Word::X => 3,
        Word::Mask => CELL_MASK,
        Word::Id => CELL_ID,
        _ => 0,
    }
}

// Which word of a table's row a name stands for.
fn in_row(table: Option<Table>, name: Word) -> usize {
    match table {
        Some(Table::Groups) => in_group(name),
        Some(Table::Entities) if name != Word::Entity => ENTITY_CELL + in_cell(name) % 4,
        _ => in_cell(name),
    }
}

// Whether a name stands for a coordinate, which is told with its sign.
fn is_axis(name: Word) -> bool {
    matches!(
        name,
        Word::X
            | Word::Y
            | Word::Z
            | Word::LowX
            | Word::LowY
            | Word::LowZ
            | Word::HighX
            | Word::HighY
            | Word::HighZ
    )
}

// A word of a row is set: `set TABLE ROW NAME VALUE`, or `set TABLE ROW WORD VALUE` by the word's place; whether the table is known. In
// one that is not a word of a group is set.
fn set(yard: &mut Yard, row: &Row) -> bool {
    let [_, table_name, name] = row.words;
    let [n, second, third, ..] = row.numbers;
    let named = Table::named(table_name);
    let table = named.unwrap_or(Table::Groups);
    let i = n as usize;
    if name == Word::Nothing {
        yard.put(table.word_at(i, second as usize), third);
    } else {
        let v = if is_axis(name) {
            stored_word(second)
        } else {
            second
        };
        yard.put(table.word_at(i, in_row(named, name)), v);
    }
    named.is_some()
}

// The header comes to count so many rows of a table; whether the table is known. Else it counts groups.
fn count_rows(yard: &mut Yard, row: &Row) -> bool {
    let named = Table::named(row.words[1]);
    let table = named.unwrap_or(Table::Groups);
    yard.put(table.count(), row.numbers[0]);
    named.is_some()
}

// A row that changes the yard by hand; whether it was one, and a right one.
pub fn change(yard: &mut Yard, row: &Row) -> bool {
    let [n, v, ..] = row.numbers;
    match row.words[0] {
        Word::Fill => yard.words.fill(n),
        Word::Next => yard.put(NEXT_ID, n),
        Word::Kind => yard.put(KIND, n),
        Word::Spare => yard.put(SPARE.wrapping_add(n as usize), v),
        Word::Behind => yard.put(STATE_LEN.wrapping_add(n as usize), v),
        Word::Set => return set(yard, row),
        Word::Rows => return count_rows(yard, row),
        _ => return false,
    }
    true
}
