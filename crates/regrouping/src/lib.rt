// The groups of a yard after its events: the cells with an id are regrouped in lent tables, and the group records are built.
// A kind of touching is a number here and not an enum: each answer is promised for every number.
#![tactic(auto)]

ghost use Rattle.std.specs.Prelude.{ℕ, List};
ghost use Rattle.model.specs.Cells.{Cell, touch_at};
ghost use Rattle.model.specs.Groups.{Groups, regroup};
ghost use Rattle.regrouping.specs.Regrouping.{Regroups, Regrouped};

use partition::build_records;
use split::regroup;

// How many rows the tables of the groups have, and the next id.
#[derive(Clone, Copy, Debug, PartialEq, Eq)]
pub struct Made {
    pub ids: usize,
    pub groups: usize,
    pub next: u64,
}

// The n cells with an id are regrouped after p cells are newly occupied and m newly emptied, and the records of the groups are built, with
// how many entities are counted in each cell that has an id then. Each table is lent with the number of its rows, since its memory has
// room for more.
pub fn regroup_and_record(
    ids: &mut [u64],
    n: usize,
    kind: u64,
    next: u64,
    counts: &[u64],
    groups: &mut [u64],
    occ: &[u64],
    p: usize,
    emp: &[u64],
    m: usize,
) -> Made
    requires { (s : Groups) × (o : List Cell) × (e : List Cell) × (entities : List (ℕ × Cell)) × Regroups kind ids.old n next counts.now groups.old occ.now p emp.now m s o e entities }
    ensures { (s : Groups) (o e : List Cell) (entities : List (ℕ × Cell)) → Regroups kind ids.old n next counts.now groups.old occ.now p emp.now m s o e entities → Regrouped ids.new groups.new result (regroup (touch_at kind) o e s) entities }
{
    let r = regroup(ids, n, kind, next, occ, p, emp, m);
    let count = r.count;
    let k = build_records(ids, count, counts, groups);
    Made {
        ids: count,
        groups: k,
        next: r.next,
    }
}
