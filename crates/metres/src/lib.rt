// Positions in metres: what a receiver's report makes in a yard's frame.
#![tactic(auto)]

ghost use Rattle.std.specs.Prelude.{◌≡◌, ◌*◌, ◌/◌, ◌≤◌, true, T, nat_lt, unsigned_abs};
ghost use Rattle.std.specs.Int.Signed.{mag};
ghost use Rattle.std.specs.Float.{binary64};
ghost use Rattle.std.specs.Float.Ieee.{fits};
ghost use Rattle.refusal.specs.Forms.{form};
ghost use Rattle.exact.specs.Units.{metre, exact};
ghost use Rattle.exact.specs.Finite.{Finite};
ghost use Rattle.metres.specs.Known.{Near, Edge, EdgeIs, with_sign, SideOf, OnAxis};
ghost use Rattle.metres.specs.Place.{near, edge_ok, origin_ok, frame_ok, error_ok, margin_ok, place_of, axis_ok, axes_ok, spot_of};
ghost use Rattle.metres.specs.Answer.{frame_fault, place_fault, event_at, placed_at, made, answer, placing_told, answer_told};

use component::{CellCoord, CellId};
use exact::{is_finite, less, size};
use refusal::Refusal;

// A yard's frame: its origin, and the edge of its cells.
// Here and in a report the coordinates are fields one by one, as the definitions and theorems name them.
#[derive(Clone, Copy)]
pub struct Frame {
    pub x: f64,
    pub y: f64,
    pub z: f64,
    pub edge: f64,
}

// What a receiver reports: easting, northing and height; these and an error; or nothing.
#[derive(Clone, Copy)]
pub enum Report {
    Fix(f64, f64, f64),
    Reckoned(f64, f64, f64, f64),
    Nothing,
}

// A place on one axis: the cell's number, and the offset from its lower side.
#[derive(Clone, Copy)]
pub struct Spot {
    pub cell: i32,
    pub offset: f64,
}

// The offsets in a cell.
#[derive(Clone, Copy)]
pub struct Offsets {
    pub x: f64,
    pub y: f64,
    pub z: f64,
}

// An event: the entity, its cell, where it is in the cell, and, if it is said, how many metres off that may be.
#[derive(Clone, Copy)]
pub struct Placing {
    pub entity: u64,
    pub cell: CellId,
    pub offsets: Offsets,
    pub margin: Option<f64>,
}

// A place on one axis, finite and near enough to zero.
#[derive(Clone, Copy)]
struct NearPlace {
    metres: f64,
    ghost near: { Near metres },
}

// The coordinates of a report.
#[derive(Clone, Copy)]
struct Position {
    x: f64,
    y: f64,
    z: f64,
}

// A frame whose edge and origin are ones that are named.
#[derive(Clone, Copy)]
struct ValidFrame {
    frame: Frame,
    ghost valid: { frame_ok frame ≡ true },
    ghost edge_named: { Edge frame.edge },
    ghost x_finite: { Finite frame.x },
    ghost y_finite: { Finite frame.y },
    ghost z_finite: { Finite frame.z },
}

// Whether x is finite and at most 1,048,576 m from zero.
fn is_near(x: f64) -> bool
    requires { T (fits binary64 x) }
    ensures { result ≡ near x }
{
    is_finite(x) & (!(x < -1048576.0) & !(1048576.0 < x))
}

impl NearPlace {
    // The whole metres from zero.
    fn whole(self) -> u64
        ensures { result ≡ unsigned_abs (exact self.metres) / metre }
    {
        std::num::truncating_f64_to_u64(size(self.metres))
    }

    // Whether this is more than n metres from zero.
    fn is_past(self, n: u64) -> bool
        requires { n ≤ 1048576 }
        ensures { result ≡ nat_lt (n * metre) (unsigned_abs (exact self.metres)) }
    {
        (n as f64) < size(self.metres)
    }

    // The whole metres from zero; below zero, those that end above this.
    fn passed(self) -> u64
        ensures { result ≡ mag (exact self.metres) / metre }
    {
        let n = self.whole();
        if self.metres < 0.0 && !self.is_past(n) {
            return n - 1;
        }
        n
    }

    // The cell number for q whole edges from zero. Floats are not divided: a quotient may round to zero from below.
    fn cell_number(self, q: u64) -> i32
        requires { q ≤ 1048576 }
        ensures { result ≡ with_sign (exact self.metres) q }
    {
        if self.metres < 0.0 {
            return -1 - (q as i32);
        }
        q as i32
    }

    // The lower side of that cell, in metres, which is a float exactly.
    fn lower_side(self, q: u64, e: u64) -> f64
        requires side_in_range { q * e ≤ 1048576 }
        requires edge_in_range { e ≤ 64 }
        ensures { SideOf (exact self.metres) q e result }
    {
        if self.metres < 0.0 {
            return -((q * e + e) as f64);
        }
        (q * e) as f64
    }
}

// Whether x is whole metres within 1,048,576 of zero.
fn origin_ok(x: f64) -> bool
    requires { T (fits binary64 x) }
    ensures { result ≡ origin_ok x }
{
    if !is_near(x) {
        return false;
    }
    let place = NearPlace { metres: x };
    !place.is_past(place.whole())
}

// Whether e is an edge that is named.
fn edge_ok(e: f64) -> bool
    ensures { result ≡ edge_ok e }
{
    [1.0, 2.0, 4.0, 8.0, 16.0, 32.0, 64.0].contains(&e)
}

// Whether the edge and the origin are ones that are named.
fn frame_ok(f: Frame) -> bool
    ensures { result ≡ frame_ok f }
{
    edge_ok(f.edge) & (origin_ok(f.x) & (origin_ok(f.y) & origin_ok(f.z)))
}

// Whether x is finite and not below zero.
fn error_ok(x: f64) -> bool
    requires { T (fits binary64 x) }
    ensures { result ≡ error_ok x }
{
    is_finite(x) & !(x < 0.0)
}

// Whether a margin that is said is one that may be.
fn margin_ok(m: Option<f64>) -> bool
    ensures { result ≡ margin_ok m }
{
    m.is_none_or(error_ok)
}

// 11, by the edge or else by the origin.
fn frame_fault(f: Frame) -> Refusal
    ensures { form result ≡ frame_fault f }
{
    if !edge_ok(f.edge) {
        return Refusal::BadEdge;
    }
    Refusal::BadOrigin(component::first_bad(origin_ok(f.x), origin_ok(f.y)))
}

// Whether x is finite and near enough to the origin's o.
fn axis_ok(x: f64, o: f64) -> bool
    requires x_fits { T (fits binary64 x) }
    requires origin_finite { Finite o }
    ensures { result ≡ axis_ok x o }
{
    is_finite(x) && is_near(less(x, o))
}

impl ValidFrame {
    // The edge as a whole number.
    fn edge_metres(self) -> u64
        ensures { EdgeIs self.frame.edge result }
    {
        self.frame.edge as u64
    }

    // The cell and the offset on an axis.
    fn spot_at(self, p: NearPlace) -> Spot
        ensures { result ≡ spot_of p.metres self.frame.edge }
    {
        let e = self.edge_metres();
        let q = p.passed() / e;
        let cell = p.cell_number(q);
        let offset = less(p.metres, p.lower_side(q, e));
        Spot { cell, offset }
    }

    // The cell and the offset of a coordinate.
    fn axis_spot(self, x: f64, o: f64) -> Spot
        requires { OnAxis x o }
        ensures { result ≡ spot_of (place_of x o) self.frame.edge }
    {
        let place = NearPlace { metres: less(x, o) };
        self.spot_at(place)
    }

    // Whether all three coordinates are finite and near enough to the origin.
    fn axes_ok(self, p: Position) -> bool
        ensures { result ≡ axes_ok self.frame p.x p.y p.z }
    {
        let f = self.frame;
        axis_ok(p.x, f.x) & (axis_ok(p.y, f.y) & axis_ok(p.z, f.z))
    }

    // 10, by a coordinate or else by the error.
    fn place_fault(self, p: Position) -> Refusal
        ensures { form result ≡ place_fault self.frame p.x p.y p.z }
    {
        if self.axes_ok(p) {
            return Refusal::BadError;
        }
        let f = self.frame;
        Refusal::BadCoordinate(component::first_bad(axis_ok(p.x, f.x), axis_ok(p.y, f.y)))
    }

    // The event of three coordinates that pass.
    fn event_at(self, p: Position, margin: Option<f64>, entity: u64, grid: u64) -> Placing
        requires { axes_ok self.frame p.x p.y p.z ≡ true }
        ensures { result ≡ event_at self.frame p.x p.y p.z margin entity grid }
    {
        let f = self.frame;
        let x = self.axis_spot(p.x, f.x);
        let y = self.axis_spot(p.y, f.y);
        let z = self.axis_spot(p.z, f.z);
        let coord = CellCoord {
            x: x.cell,
            y: y.cell,
            z: z.cell,
        };
        let cell = CellId { grid, coord };
        let offsets = Offsets {
            x: x.offset,
            y: y.offset,
            z: z.offset,
        };
        Placing {
            entity,
            cell,
            offsets,
            margin,
        }
    }

    // The event of three coordinates, or 10.
    fn placed_at(
        self,
        p: Position,
        margin: Option<f64>,
        entity: u64,
        grid: u64,
    ) -> Result<Placing, Refusal>
        ensures { placing_told result ≡ placed_at self.frame p.x p.y p.z margin entity grid }
    {
        if !(self.axes_ok(p) & margin_ok(margin)) {
            return Err(self.place_fault(p));
        }
        Ok(self.event_at(p, margin, entity, grid))
    }

    // What a report makes in a valid frame.
    fn made(self, report: Report, entity: u64, grid: u64) -> Result<Option<Placing>, Refusal>
        ensures { answer_told result ≡ made self.frame report entity grid }
    {
        match report {
            Report::Fix(x, y, z) => {
                let p = Position { x, y, z };
                Ok(Some(self.placed_at(p, None, entity, grid)?))
            }
            Report::Reckoned(x, y, z, err) => {
                let p = Position { x, y, z };
                Ok(Some(self.placed_at(p, Some(err), entity, grid)?))
            }
            Report::Nothing => Ok(None),
        }
    }
}

// What a report makes in a frame, of an entity and a grid that the caller names: an event, or none.
pub fn event_of(
    frame: Frame,
    report: Report,
    entity: u64,
    grid: u64,
) -> Result<Option<Placing>, Refusal>
    ensures { answer_told result ≡ answer frame report entity grid }
{
    if !frame_ok(frame) {
        return Err(frame_fault(frame));
    }
    let valid = ValidFrame { frame };
    valid.made(report, entity, grid)
}
