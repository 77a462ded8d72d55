// The text of an answer, in a buffer; what does not fit is left out.
use arrayvec::ArrayVec;
use refusal::Refusal;
use std::io;
use std::io::Write;

// How many bytes an answer's text may have.
pub const TEXT_LEN: usize = 8192;

pub type Text = ArrayVec<u8, TEXT_LEN>;

// A number in two's complement is put, behind a space.
pub fn put_signed(out: &mut Text, n: u64) -> io::Result<()> {
    write!(out, " {}", n.cast_signed())
}

// A refusal is put, its number behind a space: of 2 with the point, of 4 with the position and the axis.
pub fn put_refusal(out: &mut Text, no: Refusal) -> io::Result<()> {
    let number = no.number();
    let at = no.at();
    match no {
        Refusal::Broken(_) => write!(out, " {number} point {at}"),
        Refusal::OutOfRange(_, _) => write!(out, " {number} at {at} axis {}", no.axis()),
        _ => write!(out, " {number}"),
    }
}

// A refusal is put where there is no answer.
pub fn put_refused(out: &mut Text, no: Refusal) -> io::Result<()> {
    write!(out, "refused")?;
    put_refusal(out, no)
}
