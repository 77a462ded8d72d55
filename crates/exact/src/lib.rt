// 64-bit floats as exact numbers: whole units of 2^-1074 m, as which every finite float can be counted.
#![tactic(auto)]

ghost use Rattle.std.specs.Prelude.{◌≡◌, T, ◌-ℤ◌};
ghost use Rattle.std.specs.Float.{binary64};
ghost use Rattle.std.specs.Float.Ieee.{fits};
ghost use Rattle.std.specs.Float.Ieee.Scale.{finite};
ghost use Rattle.exact.specs.Units.{exact, nearest};
ghost use Rattle.exact.specs.Finite.{Finite, Sized};

// Whether x is finite: `f64::is_finite`, in the words of the definition.
pub fn is_finite(x: f64) -> bool
    requires { T (fits binary64 x) }
    ensures { result ≡ finite x }
{
    x.is_finite()
}

// a less b with one rounding; a zero is plus zero.
pub fn less(a: f64, b: f64) -> f64
    requires a_finite { Finite a }
    requires b_finite { Finite b }
    ensures { result ≡ nearest (exact a -ℤ exact b) }
{
    let d = a - b;
    if d == 0.0 {
        return 0.0;
    }
    d
}

// x without its sign: `f64::abs`, in exact numbers.
pub fn size(x: f64) -> f64
    requires { Finite x }
    ensures { Sized x result }
{
    x.abs()
}
