// What is told of reports, batches and entities, a line each.
use component::{CellCoord, CellId};
use refusal::Refusal;
use settings::{ReadError, Settings};
use std::io::Write;
use std::{fmt, io};

// Coordinates, in the order of the axes.
#[derive(Clone, Copy)]
struct PlaceShown {
    of: CellCoord,
}

impl fmt::Display for PlaceShown {
    fn fmt<W: fmt::Write>(&self, f: &mut fmt::Formatter<W>) -> fmt::Result {
        let c = self.of;
        write!(f, "{} {} {}", c.x, c.y, c.z)
    }
}

// A refusal: its number, and where the fault is.
#[derive(Clone, Copy)]
struct RefusalShown {
    by: Refusal,
}

impl fmt::Display for RefusalShown {
    fn fmt<W: fmt::Write>(&self, f: &mut fmt::Formatter<W>) -> fmt::Result {
        let r = self.by;
        write!(f, "refused {} at {} axis {}", r.number(), r.at(), r.axis())
    }
}

// What the reader says of a grid: its edge, its touching kind and its origin.
pub fn settings<W: Write>(
    out: &mut W,
    grid: u64,
    read: Result<Option<Settings>, ReadError>,
) -> io::Result<()> {
    write!(out, "settings of grid {grid}: ")?;
    match read {
        Ok(Some(s)) => writeln!(
            out,
            "edge {} kind {} origin {} {} {}",
            s.edge, s.kind, s.x, s.y, s.z
        ),
        Ok(None) => writeln!(out, "not found"),
        Err(ReadError::Overlong) => writeln!(out, "overlong"),
        Err(ReadError::Faulty(_, at)) => writeln!(out, "faulty at {at}"),
    }
}

// What a fresh state was answered by, and what touching means in it.
pub fn fresh<W: Write>(out: &mut W, state: &[u64], made: Result<(), Refusal>) -> io::Result<()> {
    let code = match made {
        Ok(()) => 0,
        Err(r) => r.number(),
    };
    write!(out, "fresh state: code {code} ")?;
    match ask::kind_of(state) {
        Ok(kind) => writeln!(out, "kind {kind}"),
        Err(by) => {
            let refused = RefusalShown { by };
            writeln!(out, "{refused}")
        }
    }
}

pub fn event<W: Write>(out: &mut W, entity: u64, c: CellId) -> io::Result<()> {
    let place = PlaceShown { of: c.coord };
    writeln!(out, "report of {entity}: to {place}")
}

pub fn none<W: Write>(out: &mut W, entity: u64) -> io::Result<()> {
    writeln!(out, "report of {entity}: no event")
}

pub fn refused<W: Write>(out: &mut W, entity: u64, by: Refusal) -> io::Result<()> {
    let refused = RefusalShown { by };
    writeln!(out, "report of {entity}: {refused}")
}

// What a batch was answered by; of a refused one also where the fault is.
pub fn batch<W: Write>(out: &mut W, moves: u64, answer: Result<(), Refusal>) -> io::Result<()> {
    write!(out, "batch of {moves} moves: ")?;
    match answer {
        Ok(()) => writeln!(out, "code 0"),
        Err(by) => {
            let refused = RefusalShown { by };
            writeln!(out, "{refused}")
        }
    }
}

// Where an entity stands, and the id of its group.
pub fn stands<W: Write>(out: &mut W, state: &[u64], entity: u64) -> io::Result<()> {
    match ask::where_is(state, entity) {
        Ok(Some(c)) => {
            let place = PlaceShown { of: c.coord };
            write!(out, "entity {entity} {place} ")?;
            group(out, state, c)
        }
        Ok(None) => writeln!(out, "entity {entity} stands nowhere"),
        Err(by) => {
            let refused = RefusalShown { by };
            writeln!(out, "{refused}")
        }
    }
}

fn group<W: Write>(out: &mut W, state: &[u64], c: CellId) -> io::Result<()> {
    match ask::id_of(state, c) {
        Ok(Some(id)) => writeln!(out, "group {id}"),
        Ok(None) => writeln!(out, "no group"),
        Err(by) => {
            let refused = RefusalShown { by };
            writeln!(out, "{refused}")
        }
    }
}
