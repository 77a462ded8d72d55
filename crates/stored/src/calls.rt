// A row that calls, puts or shows, on the bytes and the words that are lent.
use crate::shown;
use case_rows::keys::Word;
use case_rows::reading::Row;
use settings::Settings;
use std::io;
use std::io::Write;

// A number of a row as a byte.
pub fn byte(n: u64) -> u8 {
    (n % 256) as u8
}

// A number of a row as a coordinate.
fn coordinate(n: u64) -> i32 {
    component::unbias(component::stored_word(n))
}

// The settings that a row tells, behind a length and a grid.
fn told(row: &Row) -> Settings {
    let [_, _, edge, kind, x, y, z, ..] = row.numbers;
    Settings {
        edge: byte(edge),
        kind: byte(kind),
        x: coordinate(x),
        y: coordinate(y),
        z: coordinate(z),
    }
}

fn read<W: Write>(out: &mut W, s: &[u8], n: usize, grid: u64) -> io::Result<()> {
    shown::readings(
        out,
        settings::read_v1(s, n, grid),
        settings::read_v2(s, n, grid),
    )
}

// A byte is put at a place.
fn put(s: &mut [u8], at: usize, b: u8) {
    if let Some(byte) = s.get_mut(at) {
        *byte = b;
    }
}

// A record of version 1 is put at a place.
fn old(s: &mut [u8], at: usize, grid: u64, edge: u8, kind: u8) {
    let n = at % 256;
    if s.len() < n + 12 {
        return;
    }
    s[n..n + 2].copy_from_slice(b"Y1");
    little_endian::put_number(s, n + 2, 8, grid);
    s[n + 10] = edge;
    s[n + 11] = kind;
}

// What a row says is done.
pub fn call<W: Write>(out: &mut W, s: &mut [u8], t: &mut [u64], row: &Row) -> io::Result<()> {
    let [first, second, third, fourth, ..] = row.numbers;
    let n = first as usize;
    match row.words[0] {
        Word::Read => read(out, s, n, second),
        Word::Write => shown::writing(out, settings::write(s, n, second, told(row))),
        Word::Keep => shown::keeping(out, settings::keep_last(s, n, t)),
        Word::Put => {
            put(s, n, byte(second));
            Ok(())
        }
        Word::Old => {
            old(s, n, second, byte(third), byte(fourth));
            Ok(())
        }
        Word::Bytes => shown::bytes(out, s),
        Word::Words => shown::words(out, t),
        _ => shown::no_such_row(out),
    }
}
