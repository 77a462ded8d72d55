// A question is asked, and its answer put down as text.
#![tactic(auto)]

use ask::{Flooded, Listed};
use case_answers::{put_group, put_kind, put_number, put_where};
use case_lists::items::{Answer, Shape, put_flood, put_list};
use case_rows::keys::Word;
use case_rows::reading::Row;
use case_rows::writing::{Text, put_refused};
use case_tables::drafting::cell_of;
use component::{CellId, stored_word};
use refusal::Refusal;
use std::io;
use std::io::Write;

// The cell that a question is about, and the second one: grid, x, y, z.
fn cell(row: &Row) -> CellId {
    let [grid, x, y, z, ..] = row.numbers;
    component::cell_id(cell_of(grid, x, y, z))
}

fn second_cell(row: &Row) -> CellId {
    let [_, _, _, _, grid, x, y, z, ..] = row.numbers;
    component::cell_id(cell_of(grid, x, y, z))
}

// A number in two's complement as a depth.
fn depth(n: u64) -> i32 {
    component::unbias(stored_word(n))
}

// The list that a question answers, of cells or of numbers.
fn list(state: &[u64], row: &Row, answer: &mut [u64]) -> Result<Listed, Refusal> {
    match row.words[0] {
        Word::Ids => ask::ids(state, answer),
        Word::Occupied => ask::newly_occupied(state, answer),
        Word::Emptied => ask::newly_emptied(state, answer),
        Word::Entities => ask::entities_in(state, cell(row), answer),
        Word::Nearby => ask::nearby(state, cell(row), answer),
        Word::Path => ask::path(state, cell(row), second_cell(row), answer),
        _ => ask::cube(state, cell(row), (row.numbers[4] % 256) as u8, answer),
    }
}

// The flood from a cell up to a budget, and up to a depth where one is given.
fn flood(state: &[u64], row: &Row, answer: &mut [u64]) -> Result<Flooded, Refusal> {
    let [_, _, _, _, budget, most, ..] = row.numbers;
    let deep = if row.words[2] == Word::Depth {
        Some(depth(most))
    } else {
        None
    };
    ask::flood(state, cell(row), deep, budget, answer)
}

// A list is asked for, with room for so many words.
fn put_asked_list(out: &mut Text, state: &[u64], row: &Row, room: usize) -> io::Result<()> {
    let mut answer = Answer::new();
    let Some(words) = answer.room(room) else {
        return write!(out, "no such room");
    };
    let r = list(state, row, words);
    let shape = match row.words[0] {
        Word::Ids | Word::Entities => Shape::Numbers,
        _ => Shape::Cells,
    };
    put_list(out, r, &answer, shape)
}

// A flood is asked for, with room for so many words. Its cells are put in cell order where that is asked for.
fn put_asked_flood(out: &mut Text, state: &[u64], row: &Row, room: usize) -> io::Result<()> {
    let mut answer = Answer::new();
    let Some(words) = answer.room(room) else {
        return write!(out, "no such room");
    };
    let r = flood(state, row, words);
    if let Ok(f) = r
        && row.words[2] == Word::Sorted
    {
        answer.sort_cells(f.visited.number);
    }
    put_flood(out, r, &answer)
}

// The id of a cell, where it has one and no question is refused.
fn id_of(state: &[u64], c: CellId) -> Option<u64> {
    ask::id_of(state, c).ok().flatten()
}

// Whether two cells share an id.
fn put_share(out: &mut Text, state: &[u64], row: &Row) -> io::Result<()> {
    let id = id_of(state, cell(row));
    if id.is_some() && id == id_of(state, second_cell(row)) {
        return write!(out, "yes");
    }
    write!(out, "no")
}

// The group of an id, or of a cell's id; no group has the greatest number for its id.
fn put_asked_group(out: &mut Text, state: &[u64], row: &Row) -> io::Result<()> {
    if row.words[1] == Word::Of {
        let id = id_of(state, cell(row)).unwrap_or(u64::MAX);
        return put_group(out, ask::group(state, id));
    }
    put_group(out, ask::group(state, row.numbers[0]))
}

// Whether a state is consistent.
fn put_consistent(out: &mut Text, state: &[u64]) -> io::Result<()> {
    match consistent::consistent(state) {
        Ok(()) => write!(out, "yes"),
        Err(no) => put_refused(out, no),
    }
}

// A question is asked of a state's words, with room for so many words of an answer.
pub fn put_asked(out: &mut Text, state: &[u64], row: &Row, room: usize) -> io::Result<()> {
    match row.words[0] {
        Word::Consistent => put_consistent(out, state),
        Word::Kind => put_kind(out, ask::kind_of(state)),
        Word::Where => put_where(out, ask::where_is(state, row.numbers[0])),
        Word::Id => put_number(out, ask::id_of(state, cell(row))),
        Word::Count => put_number(out, ask::neighbour_count(state, cell(row))),
        Word::Group => put_asked_group(out, state, row),
        Word::Share => put_share(out, state, row),
        Word::Flood => put_asked_flood(out, state, row, room),
        Word::Ids
        | Word::Occupied
        | Word::Emptied
        | Word::Entities
        | Word::Nearby
        | Word::Cube
        | Word::Path => put_asked_list(out, state, row, room),
        _ => write!(out, "no such question"),
    }
}
