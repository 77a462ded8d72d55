// Writing settings behind the records that are there.
ghost use Rattle.std.specs.Prelude.{◌≡◌};
ghost use Rattle.settings.specs.Writing.{write_of};

use crate::kinds::{Settings, WriteError};
use crate::records::{good, put_record};

// A record of version 2 is written behind the first n bytes of a slice; the new length.
// The length stands beside the slice, since one above the slice's has an answer.
pub fn write(s: &mut [u8], n: usize, grid: u64, settings: Settings) -> Result<usize, WriteError>
    ensures { (result, s.new) ≡ write_of s.old n grid settings }
{
    if s.len() < n {
        return Err(WriteError::Overlong);
    }
    good(settings)?;
    if s.len() - n < 24 {
        return Err(WriteError::NoRoom(n + 24));
    }
    Ok(put_record(s, n, grid, settings))
}
