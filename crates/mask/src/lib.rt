// Masks: a number a cell whose bit k, k from 0 to 25, tells of the k-th of its 26 neighbours.
#![tactic(auto)]

ghost use Rattle.std.specs.Prelude.{◌≡◌, ◌<◌, ◌^◌};
ghost use Rattle.std.specs.Int.Count.{ones};
ghost use Rattle.model.specs.Masks.{bit, with_bit, without_bit};

// Whether bit k of m is set.
pub fn has(m: u64, k: u64) -> bool
    requires { k < 64 }
    ensures { result ≡ bit m k }
{
    (m >> k) % 2 == 1
}

// The number whose one bit is k.
fn power(k: u64) -> u64
    requires { k < 64 }
    ensures { result ≡ 2 ^ k }
{
    1 << k
}

// m with bit k set.
pub fn set(m: u64, k: u64) -> u64
    requires { k < 64 }
    ensures { result ≡ with_bit m k }
{
    m | power(k)
}

// m with bit k cleared.
pub fn clear(m: u64, k: u64) -> u64
    requires { k < 64 }
    ensures { result ≡ without_bit m k }
{
    m - (m & power(k))
}

// How many bits of m are set.
pub fn count(m: u64) -> u32
    ensures { result ≡ ones m }
{
    m.count_ones()
}
