// The lines of an answer, each written at the start of a buffer; one below 128 bytes is left as it is, and 0 answered.
ghost use Rattle.std.specs.Prelude.{◌≡◌, ◌∷◌, [], ◌++◌, ◌+◌, ◌<◌, ◌≤◌, length};
ghost use Rattle.little_endian.specs.Bytes.{put};
ghost use Rattle.script.specs.Lines.{text, decimal, signed, cell_text, batch_line, entered_line, left_line, cell_line, wrong_line, open_line, end_line, line_of};

// Bytes are put at a place.
fn put_text(out: &mut [u8], at: usize, bytes: &[u8]) -> usize
    requires { at + length bytes.now ≤ length out.old }
    ensures { ((result, out.new) ≡ put out.old at bytes.now) × (result ≡ at + length bytes.now) }
{
    let end = at + bytes.len();
    out[at..end].copy_from_slice(bytes);
    end
}

// The byte of a digit.
fn digit(n: u64) -> u8
    requires { n < 10 }
    ensures { result ≡ 48 + n }
{
    48 + n as u8
}

// The digits of a number are put at a place, those in front of the last first.
fn put_digits(out: &mut [u8], at: usize, n: u64) -> usize
    requires { at + length (decimal n) ≤ length out.old }
    ensures { ((result, out.new) ≡ put out.old at (decimal n)) × (result ≡ at + length (decimal n)) }
{
    if n < 10 {
        return little_endian::put_byte(out, at, digit(n));
    }
    let next = put_digits(out, at, n / 10);
    little_endian::put_byte(out, next, digit(n % 10))
}

// The digits of a number, at most 20, are put at a place.
fn put_number(out: &mut [u8], at: usize, n: u64) -> usize
    requires { at + 20 ≤ length out.old }
    ensures { ((result, out.new) ≡ put out.old at (decimal n)) × (result ≤ at + 20) }
{
    put_digits(out, at, n)
}

// A word is put at a place as a signed number.
fn put_signed(out: &mut [u8], at: usize, w: u64) -> usize
    requires { at + 21 ≤ length out.old }
    ensures { ((result, out.new) ≡ put out.old at (signed w)) × (result ≤ at + 21) }
{
    if w < 9_223_372_036_854_775_808 {
        return put_number(out, at, w);
    }
    let next = little_endian::put_byte(out, at, b'-');
    put_number(out, next, 18_446_744_073_709_551_615 - w + 1)
}

// A space and a number are put at a place.
fn put_field(out: &mut [u8], at: usize, n: u64) -> usize
    requires { at + 21 ≤ length out.old }
    ensures { ((result, out.new) ≡ put out.old at (text " " ++ decimal n)) × (result ≤ at + 21) }
{
    let next = little_endian::put_byte(out, at, b' ');
    put_number(out, next, n)
}

// A space and a signed number are put at a place.
fn put_axis(out: &mut [u8], at: usize, w: u64) -> usize
    requires { at + 22 ≤ length out.old }
    ensures { ((result, out.new) ≡ put out.old at (text " " ++ signed w)) × (result ≤ at + 22) }
{
    let next = little_endian::put_byte(out, at, b' ');
    put_signed(out, next, w)
}

// A mark, a grid and three coordinates are put at the start.
fn put_cell(out: &mut [u8], mark: u8, grid: u64, x: u64, y: u64, z: u64) -> usize
    requires { 88 ≤ length out.old }
    ensures { ((result, out.new) ≡ put out.old 0 (cell_text (mark ∷ []) grid x y z)) × (result ≤ 88) }
{
    let a = little_endian::put_byte(out, 0, mark);
    let b = put_field(out, a, grid);
    let c = put_axis(out, b, x);
    let d = put_axis(out, c, y);
    put_axis(out, d, z)
}

// A mark and a cell.
fn marked_line(out: &mut [u8], mark: u8, grid: u64, x: u64, y: u64, z: u64) -> usize
    ensures { (result, out.new) ≡ line_of (cell_text (mark ∷ []) grid x y z ++ text "\n") out.old }
{
    if out.len() < 128 {
        return 0;
    }
    let at = put_cell(out, mark, grid, x, y, z);
    little_endian::put_byte(out, at, b'\n')
}

// A cell became occupied. This line and the next are calls of their own; what they share is `marked_line`.
pub fn entered_line(out: &mut [u8], grid: u64, x: u64, y: u64, z: u64) -> usize
    ensures { (result, out.new) ≡ line_of (entered_line grid x y z) out.old }
{
    marked_line(out, b'+', grid, x, y, z)
}

// A cell became empty.
pub fn left_line(out: &mut [u8], grid: u64, x: u64, y: u64, z: u64) -> usize
    ensures { (result, out.new) ≡ line_of (left_line grid x y z) out.old }
{
    marked_line(out, b'-', grid, x, y, z)
}

// An occupied cell and its id.
pub fn cell_line(out: &mut [u8], grid: u64, x: u64, y: u64, z: u64, id: u64) -> usize
    ensures { (result, out.new) ≡ line_of (cell_line grid x y z id) out.old }
{
    if out.len() < 128 {
        return 0;
    }
    let a = put_cell(out, b'=', grid, x, y, z);
    let b = put_field(out, a, id);
    little_endian::put_byte(out, b, b'\n')
}

// The number of a batch and the code that answers it.
pub fn batch_line(out: &mut [u8], number: u64, code: u64) -> usize
    ensures { (result, out.new) ≡ line_of (batch_line number code) out.old }
{
    if out.len() < 128 {
        return 0;
    }
    let a = put_text(out, 0, b"batch ");
    let b = put_number(out, a, number);
    let c = put_text(out, b, b" code ");
    let d = put_number(out, c, code);
    little_endian::put_byte(out, d, b'\n')
}

// Where a record is bad.
pub fn wrong_line(out: &mut [u8], at: u64) -> usize
    ensures { (result, out.new) ≡ line_of (wrong_line at) out.old }
{
    if out.len() < 128 {
        return 0;
    }
    let a = put_text(out, 0, b"bad record at ");
    let b = put_number(out, a, at);
    little_endian::put_byte(out, b, b'\n')
}

// Records are left that no batch ran.
pub fn open_line(out: &mut [u8]) -> usize
    ensures { (result, out.new) ≡ line_of open_line out.old }
{
    if out.len() < 128 {
        return 0;
    }
    put_text(out, 0, b"open batch\n")
}

// The script is done.
pub fn end_line(out: &mut [u8]) -> usize
    ensures { (result, out.new) ≡ line_of end_line out.old }
{
    if out.len() < 128 {
        return 0;
    }
    put_text(out, 0, b"end\n")
}
