// The words of a state cut into its tables: those that are long enough for one, and those that were found consistent.
#![tactic(auto)]

ghost use Rattle.std.specs.Prelude.{◌≡◌, ◌≤◌, ◌*◌, true, length};
ghost use Rattle.model.specs.Update.{most_entities, most_cells};
ghost use Rattle.table.specs.Rows.{is_table1, is_table4};
ghost use Rattle.layout.specs.Widths.{entity_width, net_width, id_width, group_width};
ghost use Rattle.layout.specs.Rows.{cells_in};
ghost use Rattle.layout.specs.State.{decode, entity_words, cell_words, occupied_words, emptied_words, id_words, group_words, entity_count, cell_count, occupied_count, emptied_count, id_count, group_count};
ghost use Rattle.layout.specs.Points.{long_enough, consistent_words};
ghost use Rattle.neighbourhood.specs.Standing.{Cells};

use layout::{
    CELL_COUNT, EMPTIED_COUNT, ENTITY_COUNT, GROUP_COUNT, ID_COUNT, OCCUPIED_COUNT, cell_words,
    count_at, emptied_words, entity_words, group_words, id_words, occupied_words,
};

// Words that are long enough for a state. Each table below is its words and how many rows it has.
#[derive(Clone, Copy)]
pub(crate) struct Long<'a> {
    pub(crate) words: &'a [u64],
    ghost long: { long_enough words.now ≡ true },
}

impl<'a> Long<'a> {
    // The entities.
    pub(crate) fn entities(&self) -> (&'a [u64], usize)
        ensures words { result.0.now ≡ entity_words self.now.words.now }
        ensures count { result.1 ≡ entity_count self.now.words.now }
    {
        (entity_words(self.words), count_at(self.words, ENTITY_COUNT))
    }

    // The occupied cells.
    pub(crate) fn cells(&self) -> (&'a [u64], usize)
        ensures words { result.0.now ≡ cell_words self.now.words.now }
        ensures count { result.1 ≡ cell_count self.now.words.now }
    {
        (cell_words(self.words), count_at(self.words, CELL_COUNT))
    }

    // The newly occupied cells.
    pub(crate) fn occupied(&self) -> (&'a [u64], usize)
        ensures words { result.0.now ≡ occupied_words self.now.words.now }
        ensures count { result.1 ≡ occupied_count self.now.words.now }
    {
        (
            occupied_words(self.words),
            count_at(self.words, OCCUPIED_COUNT),
        )
    }

    // The newly emptied cells.
    pub(crate) fn emptied(&self) -> (&'a [u64], usize)
        ensures words { result.0.now ≡ emptied_words self.now.words.now }
        ensures count { result.1 ≡ emptied_count self.now.words.now }
    {
        (
            emptied_words(self.words),
            count_at(self.words, EMPTIED_COUNT),
        )
    }

    // The cells with an id.
    pub(crate) fn ids(&self) -> (&'a [u64], usize)
        ensures words { result.0.now ≡ id_words self.now.words.now }
        ensures count { result.1 ≡ id_count self.now.words.now }
    {
        (id_words(self.words), count_at(self.words, ID_COUNT))
    }

    // The groups.
    pub(crate) fn groups(&self) -> (&'a [u64], usize)
        ensures words { result.0.now ≡ group_words self.now.words.now }
        ensures count { result.1 ≡ group_count self.now.words.now }
    {
        (group_words(self.words), count_at(self.words, GROUP_COUNT))
    }
}

// Words that are long enough and consistent: each table below holds what the reader of its rows asks.
#[derive(Clone, Copy, Debug)]
pub struct Checked<'a> {
    pub words: &'a [u64],
    pub ghost long: { long_enough words.now ≡ true },
    pub ghost sound: { consistent_words words.now ≡ true },
}

impl Checked<'_> {
    // The entities.
    pub fn entities(&self) -> (&[u64], usize)
        ensures words { result.0.now ≡ entity_words self.now.words.now }
        ensures count { result.1 ≡ entity_count self.now.words.now }
        ensures table { is_table1 entity_width result.1 result.0.now ≡ true }
        ensures few { (entity_width * result.1 ≤ length result.0.now) × (result.1 ≤ most_entities) }
    {
        Long { words: self.words }.entities()
    }

    // The occupied cells.
    pub fn cells(&self) -> (&[u64], usize)
        ensures words { result.0.now ≡ cell_words self.now.words.now }
        ensures count { result.1 ≡ cell_count self.now.words.now }
        ensures stand { Cells (decode self.now.words.now).kind result.0.now result.1 (cells_in result.1 result.0.now) }
        ensures few { result.1 ≤ most_cells }
    {
        Long { words: self.words }.cells()
    }

    // The newly occupied cells.
    pub fn occupied(&self) -> (&[u64], usize)
        ensures words { result.0.now ≡ occupied_words self.now.words.now }
        ensures count { result.1 ≡ occupied_count self.now.words.now }
        ensures few { (net_width * result.1 ≤ length result.0.now) × (result.1 ≤ most_cells) }
    {
        Long { words: self.words }.occupied()
    }

    // The newly emptied cells.
    pub fn emptied(&self) -> (&[u64], usize)
        ensures words { result.0.now ≡ emptied_words self.now.words.now }
        ensures count { result.1 ≡ emptied_count self.now.words.now }
        ensures few { (net_width * result.1 ≤ length result.0.now) × (result.1 ≤ most_cells) }
    {
        Long { words: self.words }.emptied()
    }

    // The cells with an id.
    pub fn ids(&self) -> (&[u64], usize)
        ensures words { result.0.now ≡ id_words self.now.words.now }
        ensures count { result.1 ≡ id_count self.now.words.now }
        ensures table { is_table4 id_width result.1 result.0.now ≡ true }
    {
        Long { words: self.words }.ids()
    }

    // The groups.
    pub fn groups(&self) -> (&[u64], usize)
        ensures words { result.0.now ≡ group_words self.now.words.now }
        ensures count { result.1 ≡ group_count self.now.words.now }
        ensures table { is_table1 group_width result.1 result.0.now ≡ true }
        ensures few { (group_width * result.1 ≤ length result.0.now) × (result.1 ≤ most_cells) }
    {
        Long { words: self.words }.groups()
    }
}
