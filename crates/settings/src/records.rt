// One record: what it says, what is wrong with it, and its bytes.
ghost use Rattle.std.specs.Prelude.{◌≡◌, ◌+◌, ◌<◌, ◌≤◌, length};
ghost use Rattle.little_endian.specs.Bytes.{put};
ghost use Rattle.settings.specs.Settings.{edge_ok, kind_ok, axis_ok, origin_ok, good_of};
ghost use Rattle.settings.specs.Records.{bits_of, size_of, grid_of, axis_of, settings_of, check_of, head_of, axes_of, record_of};

use crate::kinds::{Fault, Settings};

// The length of the record that the bytes start with, by its mark; 0 where there is no mark.
pub fn size_of(b: &[u8]) -> usize
    ensures { result ≡ size_of b.now }
{
    if b.len() < 2 {
        return 0;
    }
    if b[0] != b'Y' {
        return 0;
    }
    let version = b[1];
    if version == b'1' {
        return 12;
    }
    if version == b'2' {
        return 24;
    }
    0
}

// The grid of the record that the bytes start with.
pub fn grid_of(b: &[u8]) -> u64
    requires { 12 ≤ length b.now }
    ensures { result ≡ grid_of b.now }
{
    little_endian::number::<8>(b, 2)
}

// An origin coordinate of a record; 0 in a record of version 1.
fn axis_of(b: &[u8], at: usize) -> i32
    requires { at ≤ 20 }
    ensures { result ≡ axis_of b.now at }
{
    if b.len() < 24 {
        return 0;
    }
    component::unbias(little_endian::number::<4>(b, at) + 2_147_483_648)
}

// The settings that a record says.
pub fn settings_of(b: &[u8]) -> Settings
    requires { 12 ≤ length b.now }
    ensures { result ≡ settings_of b.now }
{
    Settings {
        edge: b[10],
        kind: b[11],
        x: axis_of(b, 12),
        y: axis_of(b, 16),
        z: axis_of(b, 20),
    }
}

// Whether an edge is a power of two from 1 to 64.
fn edge_ok(e: u8) -> bool
    ensures { result ≡ edge_ok e }
{
    matches!(e, 1 | 2 | 4 | 8 | 16 | 32 | 64)
}

// Whether a touching kind is 6, 18 or 26.
fn kind_ok(k: u8) -> bool
    ensures { result ≡ kind_ok k }
{
    matches!(k, 6 | 18 | 26)
}

// Whether an origin coordinate is within 1,048,576 of zero.
fn axis_ok(n: i32) -> bool
    ensures { result ≡ axis_ok n }
{
    (-1_048_576..=1_048_576).contains(&n)
}

// Whether each origin coordinate is within 1,048,576 of zero.
fn origin_ok(s: Settings) -> bool
    ensures { result ≡ origin_ok s }
{
    axis_ok(s.x) && axis_ok(s.y) && axis_ok(s.z)
}

// What is wrong with settings: edge, kind, origin, in that order.
pub fn good(s: Settings) -> Result<(), Fault>
    ensures { result ≡ good_of s }
{
    if !edge_ok(s.edge) {
        return Err(Fault::BadEdge);
    }
    if !kind_ok(s.kind) {
        return Err(Fault::BadKind);
    }
    if !origin_ok(s) {
        return Err(Fault::BadOrigin);
    }
    Ok(())
}

// What is wrong with the record that the bytes start with: mark, cut end, edge, kind, origin, in that order.
// Whether records of version 2 are read too is a `bool`, as the definition `check_of` has it.
pub fn check(b: &[u8], two: bool) -> Result<(), Fault>
    ensures { result ≡ check_of two b.now }
{
    if b.len() < 2 {
        return Err(Fault::CutEnd);
    }
    let size = size_of(b);
    if size == 0 {
        return Err(Fault::BadMark);
    }
    // `&` asks both sides and makes no branch.
    if !two & (size == 24) {
        return Err(Fault::NewerRecord);
    }
    if b.len() < size {
        return Err(Fault::CutEnd);
    }
    good(settings_of(&b[..size]))
}

// The two's complement of a signed number, in 32 bits.
fn bits(n: i32) -> u64
    ensures { result ≡ bits_of n }
{
    (component::bias(n) + 2_147_483_648) % 4_294_967_296
}

// The mark of version 2 and a grid are put at a place; the place behind them.
fn put_head(out: &mut [u8], at: usize, grid: u64) -> usize
    requires { at + 10 ≤ length out.old }
    ensures { ((result, out.new) ≡ put out.old at (head_of grid)) × (result ≡ at + 10) }
{
    let a = little_endian::put_byte(out, at, b'Y');
    let b = little_endian::put_byte(out, a, b'2');
    little_endian::put_number(out, b, 8, grid)
}

// Three numbers of 32 bits are put at a place; the place behind them.
fn put_axes(out: &mut [u8], at: usize, x: u64, y: u64, z: u64) -> usize
    requires { at + 12 ≤ length out.old }
    ensures { ((result, out.new) ≡ put out.old at (axes_of x y z)) × (result ≡ at + 12) }
{
    let a = little_endian::put_number(out, at, 4, x);
    let b = little_endian::put_number(out, a, 4, y);
    little_endian::put_number(out, b, 4, z)
}

// A record of version 2 is put at a place; the place behind it.
pub fn put_record(out: &mut [u8], at: usize, grid: u64, s: Settings) -> usize
    requires { at + 24 ≤ length out.old }
    ensures { (result, out.new) ≡ put out.old at (record_of grid s) }
{
    let x = bits(s.x);
    let y = bits(s.y);
    let z = bits(s.z);
    let a = put_head(out, at, grid);
    let b = little_endian::put_byte(out, a, s.edge);
    let c = little_endian::put_byte(out, b, s.kind);
    put_axes(out, c, x, y, z)
}
