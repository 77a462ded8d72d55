// Kinds of touching: a cell has 6, 18 or 26 neighbours. A kind is a number here and not an enum: each answer is promised for every number.
#![tactic(auto)]

ghost use Rattle.std.specs.Prelude.{◌≡◌, cond, ◌<◌, ◌≤◌, eqb};
ghost use Rattle.model.specs.Cells.{is_kind, kind_allows, offsets_of, touch_at};
ghost use Rattle.model.specs.Places.{offset_at};

use component::{Cell, touching};

// Whether the number is a kind.
pub fn is_kind(kind: u64) -> bool
    ensures { result ≡ is_kind kind }
{
    matches!(kind, 6 | 18 | 26)
}

// Whether a step that moves on n axes is of the kind.
fn allows(kind: u64, n: u64) -> bool
    ensures { result ≡ kind_allows kind n }
{
    match kind {
        6 => n == 1,
        18 => n <= 2,
        _ => true,
    }
}

// 1 where two numbers differ, and else 0.
fn apart(a: u64, b: u64) -> u64
    ensures { (result ≡ cond (eqb a b) 0 1) × (result ≤ 1) }
{
    u64::from(a != b)
}

// Whether the k-th offset, whose place in the block of 27 leaves out the centre, is of the kind.
pub fn has_offset(kind: u64, k: u64) -> bool
    requires { k < 26 }
    ensures { result ≡ offsets_of kind (offset_at k) }
{
    let j = component::step(k, 13);
    let x = apart(j % 3, 1);
    let y = apart(j / 3 % 3, 1);
    let z = apart(j / 3 / 3, 1);
    allows(kind, x + (y + z))
}

// Whether two cells touch at the kind.
pub fn touching_at(kind: u64, a: Cell, b: Cell) -> bool
    ensures { result ≡ touch_at kind a b }
{
    let x = apart(a.x, b.x);
    let y = apart(a.y, b.y);
    let z = apart(a.z, b.z);
    touching(a, b) & allows(kind, x + (y + z))
}
