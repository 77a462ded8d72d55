// Cells: their coordinates, order, range and stored form, and which touch and surround one another.
#![tactic(auto)]

ghost use Rattle.std.specs.Prelude.{◌≡◌, ◌<◌, ◌≤◌, min, max, true};
ghost use Rattle.component.specs.Order.{same, below};
ghost use Rattle.component.specs.Coord.{min_z, max_z, by_axis, axis_in, axis_number, first_bad, bad_axis, coord_in_range};
ghost use Rattle.component.specs.Stored.{biased, unbiased, stored_word, signed_word, stored_by_axis, stored, coord_of, cell_id};
ghost use Rattle.component.specs.Range.{axis_in_range, cell_in_range, stored_bad_axis};
ghost use Rattle.component.specs.Touch.{close, touches};
ghost use Rattle.component.specs.Around.{step_n, neighbour_at, neighbour_count};
ghost use Rattle.component.specs.Adjacent.{axis_room, has_room, adjacent_of};

// A cell's place in its grid, by axis; z stands first, so that the derived order is cell order.
#[derive(Clone, Copy, Debug, PartialEq, Eq, PartialOrd, Ord)]
pub struct CellCoord {
    pub z: i32,
    pub y: i32,
    pub x: i32,
}

impl CellCoord {
    pub const MIN: i32 = -1_000_000_000;

    pub const MAX: i32 = 1_000_000_000;

    // The smaller of the two on each axis.
    pub fn min(a: CellCoord, b: CellCoord) -> CellCoord
        ensures { result ≡ by_axis min_z a b }
    {
        CellCoord {
            x: a.x.min(b.x),
            y: a.y.min(b.y),
            z: a.z.min(b.z),
        }
    }

    // The larger of the two on each axis.
    pub fn max(a: CellCoord, b: CellCoord) -> CellCoord
        ensures { result ≡ by_axis max_z a b }
    {
        CellCoord {
            x: a.x.max(b.x),
            y: a.y.max(b.y),
            z: a.z.max(b.z),
        }
    }
}

// Whether n lies from MIN to MAX. Here and below `&` and `|` ask both sides and make no branch.
fn axis_in(n: i32) -> bool
    ensures { result ≡ axis_in n }
{
    (CellCoord::MIN <= n) & (n <= CellCoord::MAX)
}

// Whether each axis lies from MIN to MAX.
pub fn in_range(c: CellCoord) -> bool
    ensures { result ≡ coord_in_range c }
{
    axis_in(c.x) & (axis_in(c.y) & axis_in(c.z))
}

// An axis of a cell.
#[derive(Clone, Copy, Debug, PartialEq, Eq)]
pub enum Axis {
    X,
    Y,
    Z,
}

impl Axis {
    // The number that a refusal tells of an axis.
    pub fn number(self) -> u64
        ensures { result ≡ axis_number self }
    {
        match self {
            Axis::X => 0,
            Axis::Y => 1,
            Axis::Z => 2,
        }
    }
}

// The first axis that fails, z where x and y pass.
pub fn first_bad(x: bool, y: bool) -> Axis
    ensures { axis_number result ≡ first_bad x y }
{
    match (x, y) {
        (false, _) => Axis::X,
        (true, false) => Axis::Y,
        (true, true) => Axis::Z,
    }
}

// The first axis of coordinates that is out of its range, z where x and y are in theirs.
pub fn bad_axis(c: CellCoord) -> Axis
    ensures { axis_number result ≡ bad_axis c }
{
    first_bad(axis_in(c.x), axis_in(c.y))
}

// The stored form of a cell: its grid, and each coordinate as x + 2^31, so that cell order is the order of numbers.
#[derive(Clone, Copy, Debug, PartialEq, Eq, PartialOrd, Ord)]
pub struct Cell {
    pub grid: u64,
    pub z: u64,
    pub y: u64,
    pub x: u64,
}

// Whether a and b are the same cell: `a == b`, in the words of the definition.
pub fn same_cell(a: Cell, b: Cell) -> bool
    ensures { result ≡ same a b }
{
    a == b
}

// Whether a comes before b in cell order: `a < b`, in the words of the definition.
pub fn comes_before(a: Cell, b: Cell) -> bool
    ensures { result ≡ below a b }
{
    a < b
}

// A cell: its grid, and its place there.
#[derive(Clone, Copy, Debug, PartialEq, Eq, PartialOrd, Ord)]
pub struct CellId {
    pub grid: u64,
    pub coord: CellCoord,
}

// The stored form of a coordinate.
pub fn bias(n: i32) -> u64
    ensures { result ≡ biased n }
{
    (n as i64 + 2_147_483_648) as u64
}

// The coordinate that a stored word stands for.
pub fn unbias(n: u64) -> i32
    ensures { result ≡ unbiased n }
{
    ((n % 4_294_967_296) as i64 - 2_147_483_648) as i32
}

// The stored form of a coordinate that a 64-bit word of two's complement gives.
pub fn stored_word(n: u64) -> u64
    ensures { result ≡ stored_word n }
{
    n.wrapping_add(2_147_483_648)
}

// A stored coordinate as a 64-bit word of two's complement.
pub fn signed_word(n: u64) -> u64
    ensures { result ≡ signed_word n }
{
    if n < 2_147_483_648 {
        n + 18_446_744_071_562_067_968
    } else {
        n - 2_147_483_648
    }
}

// Whether a stored coordinate is that of a coordinate from MIN to MAX.
fn stored_axis_in(n: u64) -> bool
    ensures { result ≡ axis_in_range n }
{
    (bias(CellCoord::MIN) <= n) & (n <= bias(CellCoord::MAX))
}

// Whether each coordinate of a stored cell is that of a coordinate from MIN to MAX.
pub fn stored_in_range(c: Cell) -> bool
    ensures { result ≡ cell_in_range c }
{
    stored_axis_in(c.x) & (stored_axis_in(c.y) & stored_axis_in(c.z))
}

// The first axis of a stored cell that is out of its range, z where x and y are in theirs.
pub fn stored_bad_axis(c: Cell) -> Axis
    ensures { axis_number result ≡ stored_bad_axis c }
{
    first_bad(stored_axis_in(c.x), stored_axis_in(c.y))
}

impl Cell {
    // The cell of a's grid with the smaller of the two on each axis: `CellCoord::min` in stored form.
    pub fn min(a: Cell, b: Cell) -> Cell
        ensures { result ≡ stored_by_axis min a b }
    {
        Cell {
            grid: a.grid,
            z: a.z.min(b.z),
            y: a.y.min(b.y),
            x: a.x.min(b.x),
        }
    }

    // The cell of a's grid with the larger of the two on each axis: `CellCoord::max` in stored form.
    pub fn max(a: Cell, b: Cell) -> Cell
        ensures { result ≡ stored_by_axis max a b }
    {
        Cell {
            grid: a.grid,
            z: a.z.max(b.z),
            y: a.y.max(b.y),
            x: a.x.max(b.x),
        }
    }
}

// The stored form of a cell.
pub fn stored(c: CellId) -> Cell
    ensures { result ≡ stored c }
{
    let p = c.coord;
    Cell {
        grid: c.grid,
        z: bias(p.z),
        y: bias(p.y),
        x: bias(p.x),
    }
}

// The coordinates that a stored cell stands for.
pub fn coord_of(c: Cell) -> CellCoord
    ensures { result ≡ coord_of c }
{
    CellCoord {
        x: unbias(c.x),
        y: unbias(c.y),
        z: unbias(c.z),
    }
}

// The cell that a stored cell stands for.
pub fn cell_id(c: Cell) -> CellId
    ensures { result ≡ cell_id c }
{
    CellId {
        grid: c.grid,
        coord: coord_of(c),
    }
}

impl CellId {
    pub fn grid(self) -> u64
        ensures { result ≡ self.grid }
    {
        self.grid
    }

    pub fn coord(self) -> CellCoord
        ensures { result ≡ self.coord }
    {
        self.coord
    }

    // Whether the two are the same cell.
    pub fn eq(self, other: CellId) -> bool
        ensures { result ≡ same (stored self) (stored other) }
    {
        self == other
    }

    // Whether this cell comes before the other in cell order.
    pub fn comes_before(self, other: CellId) -> bool
        ensures { result ≡ below (stored self) (stored other) }
    {
        self < other
    }
}

// Whether two numbers are at most 1 apart.
fn near(a: u64, b: u64) -> bool
    ensures { result ≡ close a b }
{
    a.abs_diff(b) <= 1
}

// Whether two cells touch: of one grid, at most 1 apart on each axis, and not the same.
pub fn touching(a: Cell, b: Cell) -> bool
    ensures { result ≡ touches a b }
{
    (a.grid == b.grid) & (near(a.x, b.x) & (near(a.y, b.y) & (near(a.z, b.z) & (a != b))))
}

// How many neighbours a cell has to the radius r.
pub fn neighbour_count(r: u8) -> u64
    ensures { result ≡ neighbour_count r }
{
    let n = 2 * (r as u64) + 1;
    n * n * n - 1
}

// Whether the numbers from n - r to n + r are words of 64 bits.
fn axis_has_room(r: u64, n: u64) -> bool
    requires { r ≤ 255 }
    ensures { result ≡ axis_room r n }
{
    (r <= n) & (n <= 18_446_744_073_709_551_615 - r)
}

// Whether the block about c to the radius r stays within words of 64 bits.
pub fn has_room(c: Cell, r: u8) -> bool
    ensures { result ≡ has_room r c }
{
    let n = r as u64;
    axis_has_room(n, c.x) & (axis_has_room(n, c.y) & axis_has_room(n, c.z))
}

// The k-th place once the place m is left out.
pub fn step(k: u64, m: u64) -> u64
    requires { k < 1000000000 }
    ensures { result ≡ step_n m k }
{
    if k < m { k } else { k + 1 }
}

// The k-th neighbour of a cell whose block has room.
fn neighbour_to(c: Cell, r: u8, k: u64) -> Cell
    requires { (k < neighbour_count r) × (has_room r c ≡ true) }
    ensures { result ≡ neighbour_at r c k }
{
    let d = r as u64;
    let n = 2 * d + 1;
    let j = step(k, (d * n + d) * n + d);
    let q = j / n;
    Cell {
        grid: c.grid,
        z: c.z - d + q / n,
        y: c.y - d + q % n,
        x: c.x - d + j % n,
    }
}

// The k-th neighbour to the radius r: x fastest, then y, then z.
pub fn adjacent(c: Cell, r: u8, k: u64) -> Option<Cell>
    ensures { result ≡ adjacent_of r c k }
{
    if (k < neighbour_count(r)) & has_room(c, r) {
        Some(neighbour_to(c, r, k))
    } else {
        None
    }
}
