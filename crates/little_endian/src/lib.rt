// Numbers in bytes, the lowest byte first: read from a place, and put at one.
#![tactic(auto)]

ghost use Rattle.std.specs.Prelude.{◌≡◌, ◌∷◌, [], ◌+◌, ◌^◌, ◌<◌, ◌≤◌, length};
ghost use Rattle.little_endian.specs.Bytes.{number_at, bytes, put};

// The number in the K bytes from at on.
pub fn number<const K: usize>(bytes: &[u8], at: usize) -> u64
    requires within { at + K ≤ length bytes.now }
    requires fits { K ≤ 8 }
    ensures { (result ≡ number_at bytes.now at K) × (result < 256 ^ K) }
{
    let mut word = [0; 8];
    word[..K].copy_from_slice(&bytes[at..at + K]);
    u64::from_le_bytes(word)
}

// A byte is put at a place; the place behind it.
pub fn put_byte(out: &mut [u8], at: usize, b: u8) -> usize
    requires { at < length out.old }
    ensures { ((result, out.new) ≡ put out.old at (b ∷ [])) × (result ≡ at + 1) }
{
    out[at] = b;
    at + 1
}

// The k lowest bytes of a number are put at a place; the place behind them.
// k is no const parameter up to 8, which would ask more of callers: every k has an answer.
pub fn put_number(out: &mut [u8], at: usize, k: usize, n: u64) -> usize
    requires { at + k ≤ length out.old }
    ensures { ((result, out.new) ≡ put out.old at (bytes k n)) × (result ≡ at + k) }
{
    let mut left = n;
    for i in 0..k {
        out[at + i] = (left % 256) as u8;
        left /= 256;
    }
    at + k
}
