// Lines are collected in a buffer, which is written out when it is nearly full.
ghost use Rattle.std.specs.Prelude.{◌≡◌, ◌≤◌, length, take, IfOk, OnOk, OnErr};
ghost use Rattle.std.specs.Io.KnownBytes.{Appends};
ghost use Rattle.script_writer.specs.Written.{Grows};

use script::{batch_line, cell_line, end_line, entered_line, left_line, open_line, wrong_line};
use std::io;
use std::io::{ErrorKind, Write};

// A cell as a line tells it: its grid, and its coordinates as words in two's complement.
#[derive(Clone, Copy, Debug, PartialEq, Eq)]
pub struct Place {
    pub grid: u64,
    pub x: u64,
    pub y: u64,
    pub z: u64,
}

// A line of the answer.
#[derive(Clone, Copy, Debug, PartialEq, Eq)]
pub enum Line {
    // The number of a batch, and the code that answers it.
    Batch(u64, u64),
    Entered(Place),
    Left(Place),
    // A cell and its id.
    Cell(Place, u64),
    // Where a record is bad.
    Wrong(u64),
    Open,
    End,
}

// A line is put at the start of a buffer; the answer is its length.
fn write_line(out: &mut [u8], line: Line) -> usize
    ensures { result ≤ length out.old }
{
    match line {
        Line::Batch(n, code) => batch_line(out, n, code),
        Line::Entered(c) => entered_line(out, c.grid, c.x, c.y, c.z),
        Line::Left(c) => left_line(out, c.grid, c.x, c.y, c.z),
        Line::Cell(c, id) => cell_line(out, c.grid, c.x, c.y, c.z, id),
        Line::Wrong(at) => wrong_line(out, at),
        Line::Open => open_line(out),
        Line::End => end_line(out),
    }
}

// All the bytes are written out. Where a write fails, or takes nothing, some of the first ones may have been.
fn write_all<W: Write>(to: &mut W, bytes: &[u8]) -> io::Result<()>
    ensures ok { OnOk result (Appends (W.contents to.old) (W.contents to.new) bytes.now) }
    ensures grows { Grows (W.contents to.old) (W.contents to.new) }
{
    let mut done = 0;
    // A while, and not the writer's own write_all, which does not say what was written before an error.
    while done < bytes.len() {
        let n = to.write(&bytes[done..])?;
        if n == 0 {
            return Err(io::Error::from(ErrorKind::WriteZero));
        }
        done += n;
    }
    Ok(())
}

// The first bytes of the buffer are written out. After an error some of them may have been.
pub fn flush<W: Write>(to: &mut W, output: &[u8], used: usize) -> io::Result<()>
    requires { used ≤ length output.now }
    ensures ok { OnOk result (Appends (W.contents to.old) (W.contents to.new) (take used output.now)) }
    ensures grows { Grows (W.contents to.old) (W.contents to.new) }
{
    write_all(to, &output[..used])
}

// Where a next line goes: behind those in the buffer, or at its start, once they are written out.
fn room<W: Write>(to: &mut W, output: &[u8], used: usize) -> io::Result<usize>
    requires { used ≤ length output.now }
    ensures ok { IfOk result (λ n. n ≤ length output.now) }
    ensures grows { Grows (W.contents to.old) (W.contents to.new) }
{
    if output.len() - used < 128 {
        flush(to, output, used)?;
        return Ok(0);
    }
    Ok(used)
}

// A line is put behind those in the buffer; the answer is how many of its bytes are used. After an error the buffer is as it was.
pub fn put<W: Write>(to: &mut W, output: &mut [u8], used: usize, line: Line) -> io::Result<usize>
    requires { used ≤ length output.old }
    ensures ok { IfOk result (λ n. n ≤ length output.old) }
    ensures err { OnErr result (output.new ≡ output.old) }
    ensures grows { Grows (W.contents to.old) (W.contents to.new) }
{
    let at = room(to, output, used)?;
    Ok(at + write_line(&mut output[at..], line))
}
