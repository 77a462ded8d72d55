// Settings of two grids as they are stored; those of grid 1 were changed, and its last record holds. It differs from that of grid 2 in
// the kind of touching alone.
use settings::Settings;

// Settings are written behind the first n bytes; the new length, or n where they are not written.
fn add(bytes: &mut [u8], n: usize, grid: u64, s: Settings) -> usize {
    settings::write(bytes, n, grid, s).unwrap_or(n)
}

fn at(edge: u8, kind: u8, x: i32, y: i32) -> Settings {
    Settings {
        edge,
        kind,
        x,
        y,
        z: 0,
    }
}

// The three records, and their length.
pub fn make(bytes: &mut [u8]) -> usize {
    let a = add(bytes, 0, 1, at(4, 18, 0, 0));
    let b = add(bytes, a, 2, at(2, 6, 100, -50));
    add(bytes, b, 1, at(2, 26, 100, -50))
}
