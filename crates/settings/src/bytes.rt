// Bytes of a slice moved down, and made zero.
ghost use Rattle.std.specs.Prelude.{◌≡◌, ◌++◌, ◌+◌, ◌-◌, ◌≤◌, length, take, drop, replicate};
ghost use Rattle.std.proofs.Math.Seq.{paste};

// The size bytes at a place are copied to a place in front of it.
pub fn move_down(s: &mut [u8], to: usize, at: usize, size: usize)
    requires { (to ≤ at) × (at + size ≤ length s.old) }
    ensures { s.new ≡ paste s.old to (drop at s.old) size }
{
    s.copy_within(at..at + size, to);
}

// The bytes from a place to a place become zero.
pub fn clear(s: &mut [u8], from: usize, to: usize)
    requires { (from ≤ to) × (to ≤ length s.old) }
    ensures { s.new ≡ take from s.old ++ (replicate (to - from) 0 ++ drop to s.old) }
{
    s[from..to].fill(0);
}
