// The shape rules of documents 01 and 02, and the numbers that a shape gives.
#![tactic(auto)]

ghost use Rattle.std.specs.Prelude.{◌≡◌, true, ◌+◌, ◌-◌, ◌*◌, ◌^◌, ◌<◌, ◌≤◌};
ghost use Rattle.spec.specs.Shapes.{ordinary, resolved, level, node_bytes, leaf_commitment_bytes, hash_bytes, rate, level_ok, shape_ok, deeper, depth_of, entries_of, first_bit, first_entry, leaves, leaf_of};
ghost use Rattle.spec.specs.Calls.{row_ok, stretch_ok};

use spec::{Shape, Stretch};

// Four zeros at level 128, with ordinary leaves, stand for the default, FAEST-128f.
pub fn resolve(s: Shape) -> Shape
    ensures { result ≡ resolved s }
{
    let zeros = (s.tau == 0) & ((s.k == 0) & ((s.w == 0) & ((s.t == 0) & true)));
    if (zeros & (s.level == 128)) & (s.kind == 0) {
        Shape {
            tau: 16,
            k: 7,
            w: 8,
            t: 110,
            level: 128,
            kind: 0,
        }
    } else {
        s
    }
}

// Whether n is a level.
fn is_level(n: usize) -> bool
    ensures { result ≡ level_ok n }
{
    (n == 128) | ((n == 192) | (n == 256))
}

// Whether the shape rules hold. The limits come first, so that the sum cannot overflow.
pub fn is_shape(s: Shape) -> bool
    ensures { result ≡ shape_ok s }
{
    let n = s.level;
    if 1 < s.kind {
        return false;
    }
    if !is_level(n) {
        return false;
    }
    if s.tau < 1 {
        return false;
    }
    if 32 < s.tau {
        return false;
    }
    if s.k < 1 {
        return false;
    }
    if 12 < s.k {
        return false;
    }
    if 127 < s.w {
        return false;
    }
    if s.t < 1 {
        return false;
    }
    if 512 < s.t {
        return false;
    }
    let used = s.tau * s.k + s.w;
    if n < used {
        return false;
    }
    let r = n - used;
    if s.tau <= r {
        return false;
    }
    (r == 0) | (s.k < 12)
}

// Whether n is a row length in bits.
pub fn is_row_length(n: usize) -> bool
    ensures { result ≡ row_ok n }
{
    (n % 8 == 0) & ((8 <= n) & (n <= 65536))
}

// Whether the stretch has a byte at least and lies within a row of b bytes. Nothing is added, so no numbers overflow.
pub fn is_stretch(b: usize, z: Stretch) -> bool
    ensures { result ≡ stretch_ok b z }
{
    let f = z.first;
    let g = z.width;
    if b < g {
        return false;
    }
    (1 <= g) & (f <= b - g)
}

// 2 to the power of a depth.
fn power(d: usize) -> usize
    requires { d ≤ 12 }
    ensures { (result ≡ 2 ^ d) × (1 ≤ result) × (result ≤ 4096) }
{
    1usize << d
}

// The level in bits, which is also the number of columns of V and Q.
pub fn level_bits(s: Shape) -> usize
    requires { shape_ok s ≡ true }
    ensures { (result ≡ level s) × (result ≤ 256) }
{
    s.level
}

// The bytes of a node, of a seed and of a challenge.
pub fn node_bytes(s: Shape) -> usize
    requires { shape_ok s ≡ true }
    ensures { (result ≡ node_bytes s) × (16 ≤ result) × (result ≤ 32) }
{
    level_bits(s) / 8
}

// Whether the leaves are ordinary ones.
pub fn is_ordinary(s: Shape) -> bool
    ensures { result ≡ ordinary s }
{
    s.kind == 0
}

// The bytes of a leaf commitment, and of a hash key where there is one.
pub fn commitment_bytes(s: Shape) -> usize
    requires { shape_ok s ≡ true }
    ensures { (result ≡ leaf_commitment_bytes s) × (result ≤ 96) }
{
    let n = node_bytes(s);
    if is_ordinary(s) { 3 * n } else { 2 * n }
}

// The bytes of a hash of leaf commitments and of the commitment.
pub fn hash_bytes(s: Shape) -> usize
    requires { shape_ok s ≡ true }
    ensures { (result ≡ hash_bytes s) × (result ≤ 64) }
{
    2 * node_bytes(s)
}

// The rate of SHAKE in bytes.
pub fn rate_bytes(s: Shape) -> usize
    requires { shape_ok s ≡ true }
    ensures { (result ≡ rate s) × (0 < result) × (result ≤ 168) }
{
    if s.level == 128 { 168 } else { 136 }
}

// How many vectors are deeper than the others: r, the first r.
pub fn deeper_count(s: Shape) -> usize
    requires { shape_ok s ≡ true }
    ensures { (result ≡ deeper s) × (result < s.tau) }
{
    level_bits(s) - s.w - s.tau * s.k
}

// The depth of vector i, the number of its bits and of its columns.
pub fn depth_of(s: Shape, i: usize) -> usize
    requires { shape_ok s ≡ true }
    ensures { (result ≡ depth_of s i) × (result ≤ 12) }
{
    if i < deeper_count(s) { s.k + 1 } else { s.k }
}

// The number of entries of vector i.
pub fn entry_count(s: Shape, i: usize) -> usize
    requires { shape_ok s ≡ true }
    ensures { (result ≡ entries_of s i) × (1 ≤ result) × (result ≤ 4096) }
{
    power(depth_of(s, i))
}

// The first bit, and the first column, of vector i; behind the last vector, those of the grinding bits.
pub fn first_bit(s: Shape, i: usize) -> usize
    requires { (shape_ok s ≡ true) × (i ≤ s.tau) }
    ensures { (result ≡ first_bit s i) × (result ≤ level s) × (result ≤ 256) }
{
    i * s.k + i.min(deeper_count(s))
}

// The place of the first entry of vector i among the entries of all vectors, one vector after another.
pub fn first_entry(s: Shape, i: usize) -> usize
    requires { (shape_ok s ≡ true) × (i ≤ s.tau) }
    ensures { (result ≡ first_entry s i) × (result ≤ leaves s) × (result ≤ 86016) }
{
    let k = s.k;
    (i + i.min(deeper_count(s))) << k
}

// L, the number of leaves.
pub fn leaf_count(s: Shape) -> usize
    requires { shape_ok s ≡ true }
    ensures { (result ≡ leaves s) × (1 ≤ result) × (result ≤ 86016) }
{
    let n = s.tau;
    first_entry(s, n)
}

// The place of entry j of vector i among the leaves of the tree: the entries below 2^k of all vectors are interleaved, and behind them those of the deeper vectors.
fn leaf_place(s: Shape, i: usize, j: usize) -> usize
    requires { (shape_ok s ≡ true) × (i < s.tau) × (j < entries_of s i) }
    ensures { (leaf_of s i j ≡ leaves s - 1 + result) × (result < leaves s) × (result < 86016) }
{
    let near = power(s.k);
    if j < near {
        return s.tau * j + i;
    }
    s.tau * near + deeper_count(s) * (j - near) + i
}

// The node of entry j of vector i.
pub fn leaf_of(s: Shape, i: usize, j: usize) -> usize
    requires { (shape_ok s ≡ true) × (i < s.tau) × (j < entries_of s i) }
    ensures { (result ≡ leaf_of s i j) × (leaves s ≤ result + 1) × (result + 1 < 2 * leaves s) × (result < 172032) }
{
    leaf_count(s) - 1 + leaf_place(s, i, j)
}

// The place of entry j of vector i among the entries of all vectors, one vector after another.
pub fn entry_of(s: Shape, i: usize, j: usize) -> usize
    requires { (shape_ok s ≡ true) × (i < s.tau) × (j < entries_of s i) }
    ensures { (result ≡ first_entry s i + j) × (result < leaves s) × (result < 86016) }
{
    first_entry(s, i) + j
}
