// An answer in a line, and bytes and words in a line.
use settings::{Fault, ReadError, Settings, WriteError};
use std::io;
use std::io::Write;

// A row that says nothing known.
pub fn no_such_row<W: Write>(out: &mut W) -> io::Result<()> {
    writeln!(out, "no such row")
}

fn name(fault: Fault) -> &'static str {
    match fault {
        Fault::NewerRecord => "newer record",
        Fault::BadMark => "bad mark",
        Fault::CutEnd => "cut end",
        Fault::BadEdge => "bad edge",
        Fault::BadKind => "bad kind",
        Fault::BadOrigin => "bad origin",
    }
}

fn settings<W: Write>(out: &mut W, s: Settings) -> io::Result<()> {
    let Settings {
        edge,
        kind,
        x,
        y,
        z,
    } = s;
    write!(out, "edge {edge} kind {kind} origin {x} {y} {z}")
}

fn unread<W: Write>(out: &mut W, error: ReadError) -> io::Result<()> {
    match error {
        ReadError::Overlong => write!(out, "overlong"),
        ReadError::Faulty(fault, at) => write!(out, "{} at {at}", name(fault)),
    }
}

fn reading<W: Write>(out: &mut W, answer: Result<Option<Settings>, ReadError>) -> io::Result<()> {
    match answer {
        Ok(Some(s)) => settings(out, s),
        Ok(None) => write!(out, "not found"),
        Err(error) => unread(out, error),
    }
}

// What both readers say.
pub fn readings<W: Write>(
    out: &mut W,
    old: Result<Option<Settings>, ReadError>,
    new: Result<Option<Settings>, ReadError>,
) -> io::Result<()> {
    write!(out, "read: ")?;
    reading(out, old)?;
    write!(out, "; ")?;
    reading(out, new)?;
    writeln!(out)
}

pub fn writing<W: Write>(out: &mut W, answer: Result<usize, WriteError>) -> io::Result<()> {
    write!(out, "write: ")?;
    match answer {
        Ok(n) => writeln!(out, "length {n}"),
        Err(WriteError::Overlong) => writeln!(out, "overlong"),
        Err(WriteError::Refused(fault)) => writeln!(out, "{}", name(fault)),
        Err(WriteError::NoRoom(n)) => writeln!(out, "8, length needed {n}"),
    }
}

pub fn keeping<W: Write>(out: &mut W, answer: Result<usize, ReadError>) -> io::Result<()> {
    write!(out, "keep: ")?;
    match answer {
        Ok(n) => write!(out, "length {n}")?,
        Err(error) => unread(out, error)?,
    }
    writeln!(out)
}

// The bytes of a slice.
pub fn bytes<W: Write>(out: &mut W, s: &[u8]) -> io::Result<()> {
    for b in s {
        write!(out, "{b:02x}")?;
    }
    writeln!(out)
}

// The words of a slice.
pub fn words<W: Write>(out: &mut W, t: &[u64]) -> io::Result<()> {
    write!(out, "scratch:")?;
    for w in t {
        write!(out, " {w}")?;
    }
    writeln!(out)
}
