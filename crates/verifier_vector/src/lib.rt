// One vector of the checking half: the leaf commitments of its entries, its columns without the correction, and its hash, from the bytes of a tree. The
// hidden entry's leaf commitment comes from the opening, and its leaf is never stretched.
#![tactic(auto)]

ghost use Rattle.std.specs.Prelude.{◌≡◌, List, ◌++◌, ℕ, ◌+◌, ◌*◌, ◌≤◌, ◌<◌, length, take, drop};
ghost use Rattle.std.specs.Int.Bits.{bit_xor};
ghost use Rattle.spec.specs.Bytes.{part, tabulate, concat};
ghost use Rattle.spec.specs.Hashes.{hash1};
ghost use Rattle.spec.specs.Shapes.{leaf_commitment_bytes, hash_bytes, depth_of, entries_of, hidden_index};
ghost use Rattle.spec.specs.Rows.{column_byte};
ghost use Rattle.leaf.specs.HashKeys.{HashKeys, HashMultiples};
ghost use Rattle.job.specs.Versions.{hidden_from};
ghost use Rattle.job.specs.Jobs.{entry_commitment, entry_byte, given_commitment};
ghost use Rattle.vector.specs.Entries.{Lent};
ghost use Rattle.vector.specs.Vectors.{Converted};
ghost use Rattle.verifier_vector.specs.Vector.{given, uncorrected};

use aes::Sbox;
use job::Job;
use shake::Sponge;
use vector::Run;

// A vector, and the entry of it that is hidden.
#[derive(Clone, Copy)]
pub struct Hidden {
    pub vector: usize,
    pub entry: usize,
}

// H1, of rate r, of the leaf commitments of a vector whose entry d is hidden; each has w bytes.
fn hash_vector(w: usize, r: usize, lcs: &[u8], d: usize, hidden: &[u8], hash: &mut [u8])
    requires { (0 < r) × (r ≤ 168) × (w * d + w ≤ length lcs.now) }
    ensures { hash.new ≡ hash1 r (take (w * d) lcs.now ++ (hidden.now ++ drop (w * d + w) lcs.now)) (length hash.old) }
{
    Sponge::new(r)
        .absorb(&lcs[..w * d])
        .absorb(hidden)
        .absorb(&lcs[w * d + w..])
        .h1(hash);
}

// The entries of a vector, of which entry d is hidden: writes their leaf commitments, that of entry d as lent, and the columns of the rows of the others, each
// under its own number xored with d.
fn add_visible(
    sbox: &Sbox,
    m: &[[u64; 12]; 16],
    g: Job,
    x: Hidden,
    tree: &[u8],
    hidden: &[u8],
    lcs: &mut [u8],
    cols: &mut [u8],
)
    requires lent { Lent g tree.now × HashMultiples g.shape g.iv x.vector m.now × (x.vector < g.shape.tau) × (x.entry < entries_of g.shape x.vector) }
    requires hidden_len { (length hidden.now ≡ leaf_commitment_bytes g.shape) × (length lcs.old ≡ leaf_commitment_bytes g.shape * entries_of g.shape x.vector) × (length cols.old ≡ g.stretch.width * depth_of g.shape x.vector) }
    ensures lcs_after { lcs.new ≡ concat (entries_of g.shape x.vector) (given hidden.now (entry_commitment g tree.now x.vector) x.entry) }
    ensures cols_after { cols.new ≡ concat (depth_of g.shape x.vector) (λ j. tabulate g.stretch.width (column_byte g.shape (entry_byte g tree.now) (λ e. bit_xor e x.entry) x.vector j)) }
{
    let w = rules::commitment_bytes(g.shape);
    let n = rules::entry_count(g.shape, x.vector);
    let half = n / 2;
    let lower = Run {
        vector: x.vector,
        from: 1,
        to: half,
        mask: x.entry,
    };
    let upper = Run {
        vector: x.vector,
        from: half,
        to: n,
        mask: x.entry,
    };
    buffers::copy_part(hidden, 0, w, lcs, w * x.entry);
    buffers::clear_from(cols, 0);
    vector::add_half(sbox, m, g, lower, tree, lcs, cols);
    vector::add_half(sbox, m, g, upper, tree, lcs, cols);
}

// The vector, with the leaf commitment of its hidden entry lent: its leaf commitments, its columns and its hash.
pub fn convert(
    sbox: &Sbox,
    g: Job,
    x: Hidden,
    keys: &[u8],
    tree: &[u8],
    hidden: &[u8],
    lcs: &mut [u8],
    cols: &mut [u8],
    hash: &mut [u8],
)
    requires lent { Lent g tree.now × HashKeys g.shape g.iv keys.now × (x.vector < g.shape.tau) × (x.entry < entries_of g.shape x.vector) × (length hidden.now ≡ leaf_commitment_bytes g.shape) }
    requires lcs_len { (length lcs.old ≡ leaf_commitment_bytes g.shape * entries_of g.shape x.vector) × (length cols.old ≡ g.stretch.width * depth_of g.shape x.vector) × (length hash.old ≡ hash_bytes g.shape) }
    ensures { (ch opening : List ℕ) → x.entry ≡ hidden_index g.shape ch x.vector → hidden.now ≡ part opening (hidden_from g.version g.shape x.vector) (leaf_commitment_bytes g.shape)
        → Converted g.shape (given_commitment g ch opening tree.now) (uncorrected g.shape g.stretch.width (entry_byte g tree.now) ch) x.vector lcs.new cols.new hash.new }
{
    let w = rules::commitment_bytes(g.shape);
    let r = rules::rate_bytes(g.shape);
    let m = leaf::hash_multiples(g.shape, x.vector, keys);
    add_visible(sbox, &m, g, x, tree, hidden, lcs, cols);
    hash_vector(w, r, lcs, x.entry, hidden, hash);
}
