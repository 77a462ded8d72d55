// A report in metres as a call for C is given it, and what is told of it: floats by their bits.
ghost use Rattle.std.specs.Prelude.{◌≡◌, List, ℕ, ◌≤◌, length};
ghost use Rattle.metres.specs.Answer.{answer_told};
ghost use Rattle.telling.specs.Words.{telling};
ghost use Rattle.telling.specs.Reports.{bits_of, said_word, error_word, report_given, event_told};

use crate::{tell, tell_refusal};
use metres::{Placing, Report};
use refusal::Refusal;
use std::num::f64_to_bits_with_nan;

// A float by its bits; a NaN, which has many, by those of the quiet one.
fn bits(x: f64) -> u64
    ensures { result ≡ bits_of x }
{
    f64_to_bits_with_nan(x)
}

// 1 where a margin is said, else 0.
fn said(m: Option<f64>) -> u64
    ensures { result ≡ said_word m }
{
    u64::from(m.is_some())
}

// The margin's bits, 0 where none is said.
fn error_bits(m: Option<f64>) -> u64
    ensures { result ≡ error_word m }
{
    m.map_or(0, bits)
}

// The report of a kind, which C gives as a number: 1 a fix, 2 a dead-reckoned place, any other nothing.
pub fn report_given(kind: u64, x: f64, y: f64, z: f64, error: f64) -> Report
    ensures { result ≡ report_given kind x y z error }
{
    match kind {
        1 => Report::Fix(x, y, z),
        2 => Report::Reckoned(x, y, z, error),
        _ => Report::Nothing,
    }
}

// What is told of what a report makes; the answer is its number.
pub fn tell_event(told: &mut [u64], a: Result<Option<Placing>, Refusal>) -> u64
    requires { 11 ≤ length told.old }
    ensures { ◌≡◌ {A = ℕ × List ℕ} (result, told.new) (telling (event_told (answer_told a)) told.old) }
{
    match a {
        Ok(Some(e)) => {
            let o = e.offsets;
            let m = e.margin;
            let mut words = [
                1,
                0,
                0,
                0,
                0,
                0,
                bits(o.x),
                bits(o.y),
                bits(o.z),
                said(m),
                error_bits(m),
            ];
            // The words have room for a move, so that it is never refused.
            let _ = moves::put_move(&mut words, 1, e);
            tell(told, &words);
            0
        }
        Ok(None) => {
            let words = [0u64; 11];
            tell(told, &words);
            0
        }
        Err(r) => tell_refusal(told, r),
    }
}
