// What the calls for C are given and tell: numbers become cells and depths, and an answer becomes words. No state is known here.
#![tactic(auto)]

mod reports;

ghost use Rattle.std.specs.Prelude.{◌≡◌, List, ℕ, ◌≤◌, length};
ghost use Rattle.refusal.specs.Forms.{placed, form, outcome};
ghost use Rattle.told.specs.Told.{told_of, found_told};
ghost use Rattle.lists.specs.Told.{listing_told};
ghost use Rattle.floods.specs.Told.{flooding_told};
ghost use Rattle.telling.specs.Given.{cell_of, depth_given};
ghost use Rattle.telling.specs.Words.{axis_word, bit, place_words, numbered, refusal_told, kind_words, where_words, number_words, group_words, listing_words, flooding_words, fronted, telling};

use component::{CellCoord, CellId};
use floods::Flooded;
use lists::Listed;
use lookups::Shown;
use refusal::Refusal;
pub use reports::{report_given, tell_event};

// The cell of a grid number and three coordinates.
pub fn cell(grid: u64, x: i32, y: i32, z: i32) -> CellId
    ensures { result ≡ cell_of grid x y z }
{
    CellId {
        grid,
        coord: CellCoord { x, y, z },
    }
}

// How far a flood goes: to a depth if one is given.
pub fn depth_given(deep: bool, depth: i32) -> Option<i32>
    ensures { result ≡ depth_given deep depth }
{
    deep.then_some(depth)
}

// A coordinate as an answer has it: a word of two's complement.
fn word(n: i32) -> u64
    ensures { result ≡ axis_word n }
{
    component::signed_word(component::bias(n))
}

// The words stand at the front of told.
fn tell(told: &mut [u64], words: &[u64])
    requires { length words.now ≤ length told.old }
    ensures { told.new ≡ fronted words.now told.old }
{
    table::write_row(told, 0, words);
}

// What is told of a number and the place that goes with it; the answer is the number.
pub fn tell_place(told: &mut [u64], number: u64, at: u64, axis: u64) -> u64
    requires { 3 ≤ length told.old }
    ensures { ◌≡◌ {A = ℕ × List ℕ} (result, told.new) (telling (refusal_told (placed number at axis)) told.old) }
{
    let words = [0, at, axis];
    tell(told, &words);
    number
}

// What is told of a refusal; the answer is its number.
pub fn tell_refusal(told: &mut [u64], r: Refusal) -> u64
    requires { 3 ≤ length told.old }
    ensures { ◌≡◌ {A = ℕ × List ℕ} (result, told.new) (telling (refusal_told (form r)) told.old) }
{
    tell_place(told, r.number(), r.at(), r.axis())
}

// What is told of a call that gives no more than whether it is refused; the answer is its number.
pub fn tell_outcome(told: &mut [u64], a: Result<(), Refusal>) -> u64
    requires { 3 ≤ length told.old }
    ensures { ◌≡◌ {A = ℕ × List ℕ} (result, told.new) (telling (refusal_told (outcome a)) told.old) }
{
    match a {
        Ok(()) => {
            let words = [0u64; 3];
            tell(told, &words);
            0
        }
        Err(r) => tell_refusal(told, r),
    }
}

// What is told of what touching means; the answer is its number.
pub fn tell_kind(told: &mut [u64], a: Result<u64, Refusal>) -> u64
    requires { 3 ≤ length told.old }
    ensures { ◌≡◌ {A = ℕ × List ℕ} (result, told.new) (telling (numbered kind_words (told_of a)) told.old) }
{
    match a {
        Ok(kind) => {
            let words = [1, kind];
            tell(told, &words);
            0
        }
        Err(r) => tell_refusal(told, r),
    }
}

// What is told of where an entity stands; the answer is its number.
pub fn tell_where(told: &mut [u64], a: Result<Option<CellId>, Refusal>) -> u64
    requires { 5 ≤ length told.old }
    ensures { ◌≡◌ {A = ℕ × List ℕ} (result, told.new) (telling (numbered where_words (found_told a)) told.old) }
{
    match a {
        Ok(Some(c)) => {
            let p = c.coord;
            let words = [1, c.grid, word(p.x), word(p.y), word(p.z)];
            tell(told, &words);
            0
        }
        Ok(None) => {
            let words = [0u64; 5];
            tell(told, &words);
            0
        }
        Err(r) => tell_refusal(told, r),
    }
}

// What is told of a cell's id; the answer is its number.
pub fn tell_id(told: &mut [u64], a: Result<Option<u64>, Refusal>) -> u64
    requires { 3 ≤ length told.old }
    ensures { ◌≡◌ {A = ℕ × List ℕ} (result, told.new) (telling (numbered number_words (found_told a)) told.old) }
{
    match a {
        Ok(Some(g)) => {
            let words = [1, g];
            tell(told, &words);
            0
        }
        Ok(None) => {
            let words = [0u64; 2];
            tell(told, &words);
            0
        }
        Err(r) => tell_refusal(told, r),
    }
}

// What is told of a cell's neighbour count; the answer is its number.
pub fn tell_count(told: &mut [u64], a: Result<Option<u32>, Refusal>) -> u64
    requires { 3 ≤ length told.old }
    ensures { ◌≡◌ {A = ℕ × List ℕ} (result, told.new) (telling (numbered number_words (found_told a)) told.old) }
{
    match a {
        Ok(found) => tell_id(told, Ok(found.map(u64::from))),
        Err(r) => tell_refusal(told, r),
    }
}

// What is told of a list; the answer is its number.
pub fn tell_listing(told: &mut [u64], a: Result<Listed, Refusal>) -> u64
    requires { 3 ≤ length told.old }
    ensures { ◌≡◌ {A = ℕ × List ℕ} (result, told.new) (telling (numbered listing_words (listing_told a)) told.old) }
{
    match a {
        Ok(l) => {
            let words = [u64::from(l.found), l.count as u64];
            tell(told, &words);
            0
        }
        Err(r) => tell_refusal(told, r),
    }
}

// What is told of a flood; the answer is its number.
pub fn tell_flooding(told: &mut [u64], a: Result<Flooded, Refusal>) -> u64
    requires { 3 ≤ length told.old }
    ensures { ◌≡◌ {A = ℕ × List ℕ} (result, told.new) (telling (numbered flooding_words (flooding_told a)) told.old) }
{
    match a {
        Ok(f) => {
            let v = f.visited;
            let words = [u64::from(f.found), v.number as u64, u64::from(v.was_all)];
            tell(told, &words);
            0
        }
        Err(r) => tell_refusal(told, r),
    }
}

// What is told of a group; the answer is its number.
pub fn tell_group(told: &mut [u64], a: Result<Option<Shown>, Refusal>) -> u64
    requires { 10 ≤ length told.old }
    ensures { ◌≡◌ {A = ℕ × List ℕ} (result, told.new) (telling (numbered group_words (found_told a)) told.old) }
{
    match a {
        Ok(Some(s)) => {
            let low = s.low;
            let high = s.high;
            let words = [
                1,
                s.grid,
                s.count,
                s.entities,
                word(low.x),
                word(low.y),
                word(low.z),
                word(high.x),
                word(high.y),
                word(high.z),
            ];
            tell(told, &words);
            0
        }
        Ok(None) => {
            let words = [0u64; 10];
            tell(told, &words);
            0
        }
        Err(r) => tell_refusal(told, r),
    }
}
