// Reading the settings of a grid.
ghost use Rattle.std.specs.Prelude.{◌≡◌, true, false};
ghost use Rattle.settings.specs.Parsing.{records_of};
ghost use Rattle.settings.specs.Reading.{tell, read_of};

use crate::kinds::{ReadError, Settings};
use crate::records::{check, grid_of, settings_of, size_of};

// What a reader says of bytes that are all records.
// Whether records of version 2 are read too is a `bool`, as the definition `records_of` has it.
pub fn read_in(bytes: &[u8], two: bool, grid: u64) -> Result<Option<Settings>, ReadError>
    ensures { result ≡ tell grid (records_of two bytes.now) }
{
    let mut held: Option<&[u8]> = None;
    let mut at = 0;
    // A while: how far the next record is stands in the record.
    while at < bytes.len() {
        let rest = &bytes[at..];
        check(rest, two).map_err(|fault| ReadError::Faulty(fault, at))?;
        let size = size_of(rest);
        at += size;
        if grid_of(rest) == grid {
            held = Some(&rest[..size]);
        }
    }
    // The settings are made once, of the last record.
    match held {
        Some(record) => Ok(Some(settings_of(record))),
        None => Ok(None),
    }
}

// What a reader of version 2, or of version 1, says of the first n bytes of a slice. The length stands beside the slice, since one
// above the slice's has an answer.
fn read(s: &[u8], n: usize, two: bool, grid: u64) -> Result<Option<Settings>, ReadError>
    ensures { result ≡ read_of two s.now n grid }
{
    if s.len() < n {
        return Err(ReadError::Overlong);
    }
    read_in(&s[..n], two, grid)
}

// What a reader of version 1 says of the first n bytes of a slice. The two readers are calls of their own; what they share is `read`.
pub fn read_v1(s: &[u8], n: usize, grid: u64) -> Result<Option<Settings>, ReadError>
    ensures { result ≡ read_of false s.now n grid }
{
    read(s, n, false, grid)
}

// What a reader of version 2 says of the first n bytes of a slice.
pub fn read_v2(s: &[u8], n: usize, grid: u64) -> Result<Option<Settings>, ReadError>
    ensures { result ≡ read_of true s.now n grid }
{
    read(s, n, true, grid)
}
