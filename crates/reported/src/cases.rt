// The reports. What each call makes is worked out apart by compare/metres_expected.py, which reads the lines here.
use crate::shown;
use metres::{Frame, Report};
use std::io;

fn frame(x: f64, y: f64, z: f64, edge: f64) -> Frame {
    Frame { x, y, z, edge }
}

// Cells of an edge at the origin zero.
fn cells(edge: f64) -> Frame {
    frame(0.0, 0.0, 0.0, edge)
}

fn fix(rt: &impl Print, f: Frame, x: f64, y: f64, z: f64) -> io::Result<()> {
    shown::line(rt, metres::event_of(f, Report::Fix(x, y, z), 7, 3))
}

fn reckoned(rt: &impl Print, f: Frame, x: f64, y: f64, z: f64, err: f64) -> io::Result<()> {
    shown::line(
        rt,
        metres::event_of(f, Report::Reckoned(x, y, z, err), 8, 18446744073709551615),
    )
}

fn nothing(rt: &impl Print, f: Frame) -> io::Result<()> {
    shown::line(rt, metres::event_of(f, Report::Nothing, 9, 3))
}

// Cells of one metre: below zero, whole metres, both zeros, subnormals, and the ends of the range.
fn places(rt: &impl Print) -> io::Result<()> {
    let one = cells(1.0);
    fix(rt, one, -0.5, 0.5, 0.0)?;
    fix(rt, one, 0.0, -0.0, -0.25)?;
    fix(rt, one, 1.0, -1.0, 2.5)?;
    fix(rt, one, -2.0, 3.0, -3.0000000000000004)?;
    fix(rt, one, 5e-324, -5e-324, 2.2250738585072014e-308)?;
    fix(rt, one, -2.225073858507201e-308, 0.0, -1e-300)?;
    fix(rt, one, 2.225073858507201e-308, -1e-17, 1e-17)?;
    fix(rt, one, 0.9999999999999999, 0.0, -0.9999999999999999)?;
    fix(rt, one, -1.0000000000000002, 1.0000000000000002, 0.0)?;
    fix(rt, one, 1048576.0, -1048576.0, 1048575.9999999999)?;
    fix(rt, one, -1048575.9999999999, 123456.789, -123456.789)?;
    fix(rt, one, 1048576.0000000002, 0.0, 0.0)?;
    fix(rt, one, 0.0, -1048576.0000000002, 0.0)?;
    fix(rt, one, 0.0, 0.0, 1.7976931348623157e308)
}

// Each edge: just below zero, where the offset rounds up to the edge; one edge below; just below one edge.
fn edges(rt: &impl Print) -> io::Result<()> {
    fix(rt, cells(1.0), -5e-324, -1.0, 0.9999999999999999)?;
    fix(rt, cells(2.0), -5e-324, -2.0, 1.9999999999999998)?;
    fix(rt, cells(4.0), -5e-324, -4.0, 3.9999999999999996)?;
    fix(rt, cells(8.0), -5e-324, -8.0, 7.999999999999999)?;
    fix(rt, cells(16.0), -5e-324, -16.0, 15.999999999999998)?;
    fix(rt, cells(32.0), -5e-324, -32.0, 31.999999999999996)?;
    fix(rt, cells(64.0), -5e-324, -64.0, 63.99999999999999)?;
    fix(rt, cells(64.0), -3.552713678800501e-15, 0.0, -1e-14)?;
    fix(rt, cells(64.0), -3.5527136788005016e-15, 0.0, 1e-14)?;
    fix(rt, cells(64.0), -1048576.0, 1048576.0, 1048575.9999999999)?;
    fix(
        rt,
        cells(16.0),
        15.999999999999998,
        16.0,
        -16.000000000000004,
    )
}

// Origins: minus zero, both ends, and differences that round to the end of the range or pass it.
fn origins(rt: &impl Print) -> io::Result<()> {
    fix(rt, frame(-0.0, 0.0, -0.0, 2.0), -0.0, 3.5, 0.0)?;
    let ends = frame(1048576.0, -1048576.0, 5.0, 4.0);
    fix(rt, ends, 0.0, 0.0, 4.999999999999999)?;
    fix(rt, ends, 2097152.0, -2097152.0, 5.0)?;
    fix(rt, ends, 0.0, 1e-300, 5.000000000000001)?;
    fix(rt, ends, 0.0, 3e-10, 0.0)?;
    fix(rt, frame(-1.0, 0.0, 0.0, 1.0), 1048575.0000000001, 0.1, 0.3)?;
    fix(rt, frame(0.0, -1.0, 0.0, 1.0), 0.0, 1048575.0000000002, 0.0)?;
    let some = frame(123.0, -77.0, 3.0, 32.0);
    fix(rt, some, 5000.1, -77.0, -61.00000000000001)
}

// Coordinates that are refused: the first bad one is told, and the error last.
fn refused_reports(rt: &impl Print, nan: f64, inf: f64) -> io::Result<()> {
    let one = cells(1.0);
    fix(rt, one, nan, 0.0, 0.0)?;
    fix(rt, one, 0.0, inf, 0.0)?;
    fix(rt, one, 0.0, 0.0, -inf)?;
    fix(rt, one, 0.0, 2e6, nan)?;
    fix(rt, one, -inf, nan, inf)?;
    reckoned(rt, one, 0.25, 0.0, 0.0, 0.5)?;
    reckoned(rt, one, 0.25, -0.25, 0.0, 0.0)?;
    reckoned(rt, one, 0.25, 0.0, 0.0, -0.0)?;
    reckoned(rt, one, 0.25, 0.0, 0.0, 1.7976931348623157e308)?;
    reckoned(rt, one, 0.25, 0.0, 0.0, -5e-324)?;
    reckoned(rt, one, 0.25, 0.0, 0.0, -1.0)?;
    reckoned(rt, one, 0.25, 0.0, 0.0, nan)?;
    reckoned(rt, one, 0.25, 0.0, 0.0, inf)?;
    reckoned(rt, one, 0.25, 0.0, 0.0, -inf)?;
    reckoned(rt, one, 0.25, 0.0, nan, -1.0)?;
    reckoned(rt, one, nan, 0.0, 0.0, 0.5)
}

// Frames that are refused, before all of the report, and for nothing too: the edge first, then the origin.
fn refused_frames(rt: &impl Print, nan: f64, inf: f64) -> io::Result<()> {
    nothing(rt, cells(1.0))?;
    nothing(rt, cells(3.0))?;
    nothing(rt, frame(0.0, nan, 0.0, 1.0))?;
    fix(rt, cells(0.0), 0.0, 0.0, 0.0)?;
    fix(rt, cells(-1.0), 0.0, 0.0, 0.0)?;
    fix(rt, cells(0.5), 0.0, 0.0, 0.0)?;
    fix(rt, cells(128.0), 0.0, 0.0, 0.0)?;
    fix(rt, cells(1.0000000000000002), 0.0, 0.0, 0.0)?;
    fix(rt, frame(0.5, 0.0, 0.0, inf), nan, 0.0, 0.0)?;
    fix(rt, frame(0.5, 0.5, 0.5, nan), nan, 0.0, 0.0)?;
    fix(rt, frame(0.5, 0.0, 0.5, 1.0), nan, 0.0, 0.0)?;
    fix(rt, frame(5e-324, 0.0, 0.0, 1.0), 0.0, 0.0, 0.0)?;
    fix(rt, frame(0.0, 1048577.0, 0.0, 1.0), 0.0, 0.0, 0.0)?;
    fix(rt, frame(0.0, -1048576.5, inf, 1.0), 0.0, 0.0, 0.0)?;
    fix(rt, frame(0.0, 0.0, -1048577.0, 1.0), 0.0, 0.0, 0.0)?;
    fix(rt, frame(0.0, 0.0, nan, 1.0), 0.0, 0.0, 0.0)?;
    reckoned(rt, frame(0.0, 0.0, -inf, 64.0), nan, 0.0, 0.0, -1.0)
}

pub fn all(rt: &impl Print, nan: f64, inf: f64) -> io::Result<()> {
    places(rt)?;
    edges(rt)?;
    origins(rt)?;
    refused_reports(rt, nan, inf)?;
    refused_frames(rt, nan, inf)
}
