// FAEST.LeafCommit and FAEST-EM.LeafCommit of document 000, section 5.1, and the hashed leaf of version 1: from the leaf of an entry its seed and its commitment. Beside the shape rules and the record the leaf kind is seen here alone.
#![tactic(auto)]

ghost use Rattle.std.specs.Prelude.{◌≡◌, true, false, List, ℕ, ◌+◌, ◌-◌, ◌*◌, ◌^◌, ◌≤◌, ◌<◌, length};
ghost use Rattle.spec.specs.Shapes.{ordinary, node_bytes, leaf_commitment_bytes, leaves, shape_ok};
ghost use Rattle.spec.specs.Primitives.{faest};
ghost use Rattle.spec.specs.Leaves.{leaf_seed, leaf_commitment};
ghost use Rattle.spec.specs.Version1.{faest1, leaf_seed1, leaf_commitment1};
ghost use Rattle.job.specs.declared.Version.TheVariants.{Two};
ghost use Rattle.job.specs.Versions.{KindFits, leaf_seed_of, leaf_commitment_of};
ghost use Rattle.leaf.specs.HashKeys.{HashKeys, HashMultiples};

use aes::Sbox;
use job::{Nonce, Version};
use spec::Shape;

// The tweak of the leaves of vector i, in a tree of n leaves.
pub fn leaf_tweak(i: usize, n: usize) -> u32
    requires { (1 ≤ n) × (i + n ≤ 2 ^ 32) }
    ensures { result ≡ i + n - 1 }
{
    (i + n - 1) as u32
}

// The hash keys of all vectors, which ordinary leaves need.
pub fn hash_keys(s: Shape, iv: &[u8], keys: &mut [u8])
    requires { (shape_ok s ≡ true) × (length keys.old ≡ leaf_commitment_bytes s * s.tau) }
    ensures { HashKeys s iv.now keys.new }
{
    if rules::is_ordinary(s) {
        shake::h0(rules::rate_bytes(s), iv, keys);
    }
}

// The multiples of the hash key of vector i; of leaves that have none any table will do.
pub fn hash_multiples(s: Shape, i: usize, keys: &[u8]) -> [[u64; 12]; 16]
    requires { (shape_ok s ≡ true) × (i < s.tau) × (length keys.now ≡ leaf_commitment_bytes s * s.tau) }
    ensures { (iv : List ℕ) → HashKeys s iv keys.now → HashMultiples s iv i result }
{
    if rules::is_ordinary(s) {
        let w = rules::commitment_bytes(s);
        return leaf_hash::multiples(s, &keys[w * i..w * i + w]);
    }
    [[0u64; 12]; 16]
}

// The seed and the commitment of the ordinary leaf `key` of vector i, with room for the stretched leaf lent; m has the multiples of the vector's hash key.
fn stretch_leaf(
    sbox: &Sbox,
    m: &[[u64; 12]; 16],
    s: Shape,
    key: &[u8],
    x: Nonce,
    stretched: &mut [u8],
    seed: &mut [u8],
    out: &mut [u8],
)
    requires { (shape_ok s ≡ true) × (ordinary s ≡ true) × (x.version ≡ Two) × (length key.now ≡ node_bytes s) × (length stretched.old ≡ node_bytes s + leaf_commitment_bytes s) × (length seed.old ≡ node_bytes s) × (length out.old ≡ leaf_commitment_bytes s) }
    ensures { (i : ℕ) → x.tweak ≡ i + leaves s - 1 → HashMultiples s x.iv i m.now
        → (seed.new ≡ leaf_seed faest s x.iv i key.now) × (out.new ≡ leaf_commitment faest s x.iv i key.now) }
{
    let n = rules::node_bytes(s);
    generator::fill(sbox, key, x, 0, stretched);
    leaf_hash::leaf_hash(s, m, stretched, out);
    buffers::copy_part(stretched, 0, n, seed, 0);
}

// The same of an Even-Mansour leaf: it is its own seed.
fn em_leaf(sbox: &Sbox, s: Shape, key: &[u8], x: Nonce, seed: &mut [u8], out: &mut [u8])
    requires { (shape_ok s ≡ true) × (ordinary s ≡ false) × (x.version ≡ Two) × (length key.now ≡ node_bytes s) × (length seed.old ≡ node_bytes s) × (length out.old ≡ leaf_commitment_bytes s) }
    ensures { (i : ℕ) → x.tweak ≡ i + leaves s - 1
        → (seed.new ≡ leaf_seed faest s x.iv i key.now) × (out.new ≡ leaf_commitment faest s x.iv i key.now) }
{
    generator::fill(sbox, key, x, 0, out);
    buffers::copy_part(key, 0, key.len(), seed, 0);
}

// The same of a leaf of version 1, with room for its message and its hash lent: H0 of the key and the IV has the seed in front.
fn hash_leaf(
    s: Shape,
    key: &[u8],
    iv: [u8; 16],
    message: &mut [u8],
    hashed: &mut [u8],
    seed: &mut [u8],
    out: &mut [u8],
)
    requires { (shape_ok s ≡ true) × (ordinary s ≡ false) × (length key.now ≡ node_bytes s) × (length message.old ≡ node_bytes s + 16) × (length hashed.old ≡ node_bytes s + leaf_commitment_bytes s) × (length seed.old ≡ node_bytes s) × (length out.old ≡ leaf_commitment_bytes s) }
    ensures { (seed.new ≡ leaf_seed1 faest1 s iv key.now) × (out.new ≡ leaf_commitment1 faest1 s iv key.now) }
{
    let n = rules::node_bytes(s);
    buffers::copy_part(key, 0, n, message, 0);
    buffers::copy_part(&iv, 0, 16, message, n);
    shake::h0(rules::rate_bytes(s), message, hashed);
    buffers::copy_part(hashed, 0, n, seed, 0);
    buffers::copy_part(hashed, n, out.len(), out, 0);
}

// The same with its own room.
fn hash_leaf_in_place(s: Shape, key: &[u8], iv: [u8; 16], seed: &mut [u8], out: &mut [u8])
    requires { (shape_ok s ≡ true) × (ordinary s ≡ false) × (length key.now ≡ node_bytes s) × (length seed.old ≡ node_bytes s) × (length out.old ≡ leaf_commitment_bytes s) }
    ensures { (seed.new ≡ leaf_seed1 faest1 s iv key.now) × (out.new ≡ leaf_commitment1 faest1 s iv key.now) }
{
    let n = rules::node_bytes(s);
    let w = n + rules::commitment_bytes(s);
    let mut message = [0u8; 48];
    let mut hashed = [0u8; 128];
    hash_leaf(
        s,
        key,
        iv,
        &mut message[0..n + 16],
        &mut hashed[0..w],
        seed,
        out,
    );
}

// The same of a leaf of version 2, of the shape's kind; m has the multiples of the vector's hash key, where it has one.
fn leaf_of_kind(
    sbox: &Sbox,
    m: &[[u64; 12]; 16],
    s: Shape,
    key: &[u8],
    x: Nonce,
    seed: &mut [u8],
    out: &mut [u8],
)
    requires { (shape_ok s ≡ true) × (x.version ≡ Two) × (length key.now ≡ node_bytes s) × (length seed.old ≡ node_bytes s) × (length out.old ≡ leaf_commitment_bytes s) }
    ensures { (i : ℕ) → x.tweak ≡ i + leaves s - 1 → HashMultiples s x.iv i m.now
        → (seed.new ≡ leaf_seed faest s x.iv i key.now) × (out.new ≡ leaf_commitment faest s x.iv i key.now) }
{
    if !rules::is_ordinary(s) {
        em_leaf(sbox, s, key, x, seed, out);
        return;
    }
    let n = rules::node_bytes(s) + rules::commitment_bytes(s);
    let mut stretched = [0u8; 128];
    stretch_leaf(sbox, m, s, key, x, &mut stretched[0..n], seed, out);
}

// The same of a leaf of the shape's kind; m has the multiples of the vector's hash key, where it has one. A leaf of version 1 is that of a shape whose kind has no hash key.
pub fn commit_leaf(
    sbox: &Sbox,
    m: &[[u64; 12]; 16],
    s: Shape,
    key: &[u8],
    x: Nonce,
    seed: &mut [u8],
    out: &mut [u8],
)
    requires { (shape_ok s ≡ true) × KindFits x.version s × (length key.now ≡ node_bytes s) × (length seed.old ≡ node_bytes s) × (length out.old ≡ leaf_commitment_bytes s) }
    ensures { (i : ℕ) → x.tweak ≡ i + leaves s - 1 → HashMultiples s x.iv i m.now
        → (seed.new ≡ leaf_seed_of x.version s x.iv i key.now) × (out.new ≡ leaf_commitment_of x.version s x.iv i key.now) }
{
    let iv = x.iv;
    let version = x.version;
    match version {
        Version::One => hash_leaf_in_place(s, key, iv, seed, out),
        Version::Two => leaf_of_kind(sbox, m, s, key, x, seed, out),
    }
}
