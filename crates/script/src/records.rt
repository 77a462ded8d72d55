// Reading a record: two bytes of mark, then numbers, the lowest byte first.
ghost use Rattle.std.specs.Prelude.{◌≡◌, ◌<◌, ◌≤◌, length};
ghost use Rattle.script.specs.Records.{widened, length_of, moved_of, record_of, cut, ended, step_of};

use crate::kinds::{Moved, Step};

// A coordinate of 32 bits as a word of 64. A sum, since by way of `i32` and `i64` it takes four casts.
fn widen(n: u64) -> u64
    requires { n < 4294967296 }
    ensures { result ≡ widened n }
{
    if n < 2_147_483_648 {
        n
    } else {
        n + 18_446_744_069_414_584_320
    }
}

// The length of a record by the second byte of its mark; 0 where there is no such mark, as the definition has it.
fn length_of(mark: u8) -> usize
    ensures { result ≡ length_of mark }
{
    match mark {
        b'R' => 10,
        b'M' => 30,
        b'U' => 2,
        _ => 0,
    }
}

// The move whose record the bytes start with.
fn moved_of(bytes: &[u8]) -> Moved
    requires { 30 ≤ length bytes.now }
    ensures { result ≡ moved_of bytes.now }
{
    Moved {
        entity: little_endian::number::<8>(bytes, 2),
        grid: little_endian::number::<8>(bytes, 10),
        x: widen(little_endian::number::<4>(bytes, 18)),
        y: widen(little_endian::number::<4>(bytes, 22)),
        z: widen(little_endian::number::<4>(bytes, 26)),
    }
}

// The whole record that the bytes start with.
fn record_of(bytes: &[u8], mark: u8) -> Step
    requires { length_of mark ≤ length bytes.now }
    ensures { result ≡ record_of mark bytes.now }
{
    match mark {
        b'R' => Step::Remove(little_endian::number::<8>(bytes, 2)),
        b'M' => Step::Move(moved_of(bytes)),
        _ => Step::Run,
    }
}

// What a record that is cut short is.
fn cut_short(last: bool) -> Step
    ensures { result ≡ cut last }
{
    if last { Step::Bad } else { Step::More }
}

// What no bytes are.
fn nothing(last: bool) -> Step
    ensures { result ≡ ended last }
{
    if last { Step::Done } else { Step::More }
}

// What stands at the start of the bytes; `last` says that no more will come.
pub fn step(bytes: &[u8], last: bool) -> Step
    ensures { result ≡ step_of bytes.now last }
{
    if bytes.len() == 0 {
        return nothing(last);
    }
    if bytes[0] != b'Y' {
        return Step::Bad;
    }
    if bytes.len() == 1 {
        return cut_short(last);
    }
    let mark = bytes[1];
    let n = length_of(mark);
    if n == 0 {
        return Step::Bad;
    }
    if n <= bytes.len() {
        return record_of(bytes, mark);
    }
    cut_short(last)
}
