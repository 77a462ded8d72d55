// What a question answers about one thing, as text.
#![tactic(auto)]

use ask::Shown;
use case_rows::writing::{Text, put_refused};
use component::CellId;
use refusal::Refusal;
use std::fmt::Display;
use std::io;
use std::io::Write;

// A corner, or a cell in its grid: x, y, z.
fn put_corner(out: &mut Text, [x, y, z]: [i32; 3]) -> io::Result<()> {
    write!(out, " {x} {y} {z}")
}

// What touching means.
pub fn put_kind(out: &mut Text, r: Result<u64, Refusal>) -> io::Result<()> {
    match r {
        Ok(kind) => write!(out, "is {kind}"),
        Err(no) => put_refused(out, no),
    }
}

// Where an entity stands.
pub fn put_where(out: &mut Text, r: Result<Option<CellId>, Refusal>) -> io::Result<()> {
    match r {
        Ok(Some(c)) => {
            write!(out, "found {}", c.grid)?;
            put_corner(out, [c.coord.x, c.coord.y, c.coord.z])
        }
        Ok(None) => write!(out, "not found"),
        Err(no) => put_refused(out, no),
    }
}

// A number that stands under what was asked for: the id of a cell, or its neighbour count.
pub fn put_number<N: Display + Drop>(
    out: &mut Text,
    r: Result<Option<N>, Refusal>,
) -> io::Result<()> {
    match r {
        Ok(Some(n)) => write!(out, "found {n}"),
        Ok(None) => write!(out, "not found"),
        Err(no) => put_refused(out, no),
    }
}

// The grid, the cell count, the entity count and the corners of a group.
pub fn put_group(out: &mut Text, r: Result<Option<Shown>, Refusal>) -> io::Result<()> {
    match r {
        Ok(Some(g)) => {
            write!(out, "found {} {} {}", g.grid, g.count, g.entities)?;
            let [low, high] = ask::corners(g);
            write!(out, " from")?;
            put_corner(out, low)?;
            write!(out, " to")?;
            put_corner(out, high)
        }
        Ok(None) => write!(out, "not found"),
        Err(no) => put_refused(out, no),
    }
}
