// The bits of a challenge: hidden indices, the leaves that they hide, and grinding bits.
#![tactic(auto)]

ghost use Rattle.std.specs.Prelude.{◌≡◌, true, ◌+◌, ◌*◌, ◌^◌, ◌<◌, ◌≤◌, length};
ghost use Rattle.spec.specs.Challenge.{bit_at, index_at, clear_at};
ghost use Rattle.spec.specs.Shapes.{challenge_bytes, shape_ok, entries_of, leaves, hidden_index, hidden_leaf, hidden_indices, grinding_ok};

use spec::Shape;

// Bit b, from the least bit of byte 0.
pub fn bit(ch: &[u8], b: usize) -> usize
    requires { b < 8 * length ch.now }
    ensures { result ≡ bit_at ch.now b }
{
    ((ch[b / 8] >> (b % 8)) % 2) as usize
}

// The number that k bits from bit `at` on make, least first.
fn index(ch: &[u8], at: usize, k: usize) -> usize
    requires { (at + k ≤ 8 * length ch.now) × (length ch.now ≤ 32) × (k ≤ 12) }
    ensures { (result ≡ index_at ch.now at k) × (result < 2 ^ k) }
{
    let mut v: usize = 0;
    for j in (0..k).rev() {
        v = 2 * v + bit(ch, at + j);
    }
    v
}

// Whether n bits from bit `at` on are 0.
fn clear(ch: &[u8], at: usize, n: usize) -> bool
    requires { (at + n ≤ 8 * length ch.now) × (length ch.now ≤ 32) }
    ensures { result ≡ clear_at ch.now at n }
{
    for j in 0..n {
        if bit(ch, at + j) != 0 {
            return false;
        }
    }
    true
}

// Whether the grinding bits are 0.
pub fn grinding_ok(s: Shape, ch: &[u8]) -> bool
    requires { (shape_ok s ≡ true) × (length ch.now ≡ challenge_bytes s) }
    ensures { result ≡ grinding_ok s ch.now }
{
    let n = s.tau;
    clear(ch, rules::first_bit(s, n), s.w)
}

// The hidden index of vector i.
pub fn hidden_index(s: Shape, ch: &[u8], i: usize) -> usize
    requires { (shape_ok s ≡ true) × (length ch.now ≡ challenge_bytes s) × (i < s.tau) }
    ensures { (result ≡ hidden_index s ch.now i) × (result < entries_of s i) × (result < 4096) }
{
    index(ch, rules::first_bit(s, i), rules::depth_of(s, i))
}

// The hidden leaf of vector i.
pub fn hidden_leaf(s: Shape, ch: &[u8], i: usize) -> usize
    requires { (shape_ok s ≡ true) × (length ch.now ≡ challenge_bytes s) × (i < s.tau) }
    ensures { (result ≡ hidden_leaf s ch.now i) × (result < 172032) × (result + 1 < 2 * leaves s) }
{
    let j = hidden_index(s, ch, i);
    rules::leaf_of(s, i, j)
}

// Writes the hidden indices.
pub fn write_indices(s: Shape, ch: &[u8], out: &mut [u32])
    requires { (shape_ok s ≡ true) × (length ch.now ≡ challenge_bytes s) × (length out.old ≡ s.tau) }
    ensures { out.new ≡ hidden_indices s ch.now }
{
    for (i, index) in out.iter_mut().enumerate() {
        *index = hidden_index(s, ch, i) as u32;
    }
}
