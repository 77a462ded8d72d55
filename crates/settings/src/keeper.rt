// Keeping the last record of each grid.
ghost use Rattle.std.specs.Prelude.{◌≡◌, List, ℕ, suc, ◌≤◌, length, take, replicate};
ghost use Rattle.settings.specs.Keeping.{has, keep_last, joined, kept_of, keep_of};
ghost use Rattle.settings.specs.Table.{mark_of, Known};
ghost use Rattle.settings.specs.Whole.{Whole, Gathered};

use crate::bytes::{clear, move_down};
use crate::kinds::ReadError;
use crate::reader::read_in;
use crate::records::{grid_of, size_of};
use crate::table::{clear_words, note, place_of};

// Whether bytes that are whole records have one of a grid.
fn has_grid(bytes: &[u8], grid: u64) -> bool
    ensures { (rs : List (List ℕ)) → Whole rs bytes.now → result ≡ has grid rs }
{
    let mut at = 0;
    // A while: how far the next record is stands in the record.
    while at < bytes.len() {
        let rest = &bytes[at..];
        let size = size_of(rest);
        if size == 0 {
            return false;
        }
        if rest.len() < size {
            return false;
        }
        if grid_of(rest) == grid {
            return true;
        }
        at += size;
    }
    false
}

// The mark of each grid of whole records is noted in a table of zeros.
fn note_all(bytes: &[u8], t: &mut [u64])
    requires { (t.old ≡ replicate (length t.old) 0) × ((rs : List (List ℕ)) × Whole rs bytes.now) }
    ensures { (rs : List (List ℕ)) → Whole rs bytes.now → Known (λ g. mark_of g 0 rs) t.new }
{
    let mut at = 0;
    // A while: how far the next record is stands in the record.
    while at < bytes.len() {
        let rest = &bytes[at..];
        let end = at + size_of(rest);
        note(t, grid_of(rest), (bytes.len() - end) as u64 + 1);
        at = end;
    }
}

// Whether a grid whose mark the table may know has a record in the bytes, which are whole records.
fn is_later(bytes: &[u8], t: &[u64], grid: u64) -> bool
    ensures { (f : ℕ → ℕ) (rs : List (List ℕ)) → Known f t.now → Whole rs bytes.now → f grid ≡ mark_of grid (suc (length bytes.now)) rs → result ≡ has grid rs }
{
    let k = place_of(t, grid);
    if k < t.len() / 2 {
        let mark = t[2 * k];
        if mark != 0 {
            return mark != bytes.len() as u64 + 1;
        }
    }
    has_grid(bytes, grid)
}

// The last record of each grid is moved down behind the one before; the length of them all.
// Here and in `keep_whole` the length stands beside the slice, since what `keep_last` promises speaks of the whole slice.
fn gather(s: &mut [u8], n: usize, t: &[u64]) -> usize
    requires { (n ≤ length s.old) × ((rs : List (List ℕ)) × Whole rs (take n s.old) × Known (λ g. mark_of g 0 rs) t.now) }
    ensures { (rs : List (List ℕ)) → Whole rs (take n s.old) → Known (λ g. mark_of g 0 rs) t.now → Gathered (joined (keep_last rs)) s.old n result s.new }
{
    let mut at = 0;
    let mut to = 0;
    // A while: how far the next record is stands in the record.
    while at < n {
        let rest = &s[at..n];
        let size = size_of(rest);
        let grid = grid_of(rest);
        let start = at;
        at += size;
        let later = is_later(&s[at..n], t, grid);
        if !later {
            move_down(s, to, start, size);
            to += size;
        }
    }
    to
}

// Of the first n bytes of a slice, which are whole records, each grid's last is kept, and the rest of these bytes becomes zero.
fn keep_whole(s: &mut [u8], n: usize, scratch: &mut [u64]) -> usize
    requires { (n ≤ length s.old) × ((rs : List (List ℕ)) × Whole rs (take n s.old)) }
    ensures { (rs : List (List ℕ)) → Whole rs (take n s.old) → (result, s.new, scratch.new) ≡ kept_of rs s.old n scratch.old }
{
    clear_words(scratch);
    note_all(&s[..n], scratch);
    let length = gather(s, n, scratch);
    clear(s, length, n);
    clear_words(scratch);
    length
}

// Of the first n bytes of a slice, each grid's last record is kept, and the rest of these bytes becomes zero; the new length. The
// scratch, which makes it fast, becomes zero too.
// The length stands beside the slice, since one above the slice's has an answer.
pub fn keep_last(s: &mut [u8], n: usize, scratch: &mut [u64]) -> Result<usize, ReadError>
    ensures { (result, s.new, scratch.new) ≡ keep_of s.old n scratch.old }
{
    if s.len() < n {
        return Err(ReadError::Overlong);
    }
    read_in(&s[..n], true, 0)?;
    Ok(keep_whole(s, n, scratch))
}
