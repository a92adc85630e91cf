// All vectors of the checking half: leaf commitments and the hashes of the vectors, and the matrix, from the bytes of a tree, an opening and a challenge; and
// the corrections, added to the matrix.
#![tactic(auto)]

ghost use Rattle.std.specs.Prelude.{◌≡◌, true, List, ℕ, ◌+◌, ◌*◌, ◌≤◌, ◌<◌, length};
ghost use Rattle.spec.specs.Bytes.{concat};
ghost use Rattle.spec.specs.Shapes.{challenge_bytes, leaf_commitment_bytes, hash_bytes, shape_ok, hidden_index, entries_of, leaf_commitments_bytes, matrix_bytes, corrections_bytes};
ghost use Rattle.spec.specs.Primitives.{faest};
ghost use Rattle.spec.specs.Leaves.{leaf_commitments, vector_hash};
ghost use Rattle.spec.specs.Rows.{matrix_of};
ghost use Rattle.spec.specs.Verifier.{verifier_column};
ghost use Rattle.leaf.specs.HashKeys.{HashKeys};
ghost use Rattle.job.specs.Versions.{opening_length, hidden_from};
ghost use Rattle.job.specs.Jobs.{Ready, entry_byte, given_commitment};
ghost use Rattle.vector.specs.Entries.{Lent};
ghost use Rattle.vector.specs.Vectors.{Before};
ghost use Rattle.verifier_vector.specs.Vector.{uncorrected};
ghost use Rattle.verifier_vectors.specs.Corrections.{Corrected};

use aes::Sbox;
use job::{Job, Version};
use spec::Shape;
use verifier_vector::Hidden;

// Where an opening has the hidden leaf commitment of vector i.
fn hidden_from(g: Job, i: usize) -> usize
    requires { Ready g × (i < g.shape.tau) }
    ensures { (result ≡ hidden_from g.version g.shape i) × (result + leaf_commitment_bytes g.shape ≤ opening_length g.version g.shape) }
{
    let s = g.shape;
    let version = g.version;
    match version {
        Version::One => v1_rules::decommitment_from(s, i)
            + rules::node_bytes(s) * rules::depth_of(s, i),
        Version::Two => rules::commitment_bytes(s) * i,
    }
}

// A vector whose hidden entry is known, in its parts of the buffers, behind those before it.
fn next_vector(
    sbox: &Sbox,
    g: Job,
    x: Hidden,
    keys: &[u8],
    tree: &[u8],
    opening: &[u8],
    lcs: &mut [u8],
    q: &mut [u8],
    hashes: &mut [u8],
)
    requires lent { Lent g tree.now × HashKeys g.shape g.iv keys.now × (x.vector < g.shape.tau) × (x.entry < entries_of g.shape x.vector) × (length opening.now ≡ opening_length g.version g.shape) }
    requires lcs_len { (length lcs.old ≡ leaf_commitments_bytes g.shape) × (length q.old ≡ matrix_bytes g.shape g.stretch.width) × (length hashes.old ≡ hash_bytes g.shape * g.shape.tau) }
    ensures { (ch : List ℕ) → x.entry ≡ hidden_index g.shape ch x.vector
        → Before g.shape g.stretch.width (given_commitment g ch opening.now tree.now) (uncorrected g.shape g.stretch.width (entry_byte g tree.now) ch) x.vector lcs.old q.old hashes.old
        → Before g.shape g.stretch.width (given_commitment g ch opening.now tree.now) (uncorrected g.shape g.stretch.width (entry_byte g tree.now) ch) (x.vector + 1) lcs.new q.new hashes.new }
{
    let s = g.shape;
    let i = x.vector;
    let w = rules::commitment_bytes(s);
    let at = hidden_from(g, i);
    let h = rules::hash_bytes(s);
    let lcs_from = vector::commitments_from(s, i);
    let lcs_to = vector::commitments_from(s, i + 1);
    let q_from = vector::columns_from(s, i, g.stretch.width);
    let q_to = vector::columns_from(s, i + 1, g.stretch.width);
    verifier_vector::convert(
        sbox,
        g,
        x,
        keys,
        tree,
        &opening[at..at + w],
        &mut lcs[lcs_from..lcs_to],
        &mut q[q_from..q_to],
        &mut hashes[h * i..h * i + h],
    );
}

// All vectors, without the corrections. The last w columns are zeros.
pub fn write_vectors(
    sbox: &Sbox,
    g: Job,
    keys: &[u8],
    ch: &[u8],
    tree: &[u8],
    opening: &[u8],
    lcs: &mut [u8],
    q: &mut [u8],
    hashes: &mut [u8],
)
    requires lent { Lent g tree.now × HashKeys g.shape g.iv keys.now × (length ch.now ≡ challenge_bytes g.shape) × (length opening.now ≡ opening_length g.version g.shape) }
    requires lcs_len { (length lcs.old ≡ leaf_commitments_bytes g.shape) × (length q.old ≡ matrix_bytes g.shape g.stretch.width) × (length hashes.old ≡ hash_bytes g.shape * g.shape.tau) }
    ensures lcs_after { lcs.new ≡ leaf_commitments g.shape (given_commitment g ch.now opening.now tree.now) }
    ensures q_after { q.new ≡ matrix_of g.shape g.stretch.width (uncorrected g.shape g.stretch.width (entry_byte g tree.now) ch.now) }
    ensures hashes_after { hashes.new ≡ concat g.shape.tau (vector_hash faest g.shape (given_commitment g ch.now opening.now tree.now)) }
{
    let n = g.shape.tau;
    for i in 0..n {
        let x = Hidden {
            vector: i,
            entry: challenge::hidden_index(g.shape, ch, i),
        };
        next_vector(sbox, g, x, keys, tree, opening, lcs, q, hashes);
    }
    let used = vector::columns_from(g.shape, n, g.stretch.width);
    buffers::clear_from(q, used);
}

// Adds the correction of vector i, from 1 on, to its columns where the bit of the hidden index is set; b is the length of a column.
fn correct_vector(s: Shape, b: usize, i: usize, ch: &[u8], corrections: &[u8], q: &mut [u8])
    requires { (shape_ok s ≡ true) × (1 ≤ i) × (i < s.tau) × (b ≤ 8192) × (length ch.now ≡ challenge_bytes s) × (length corrections.now ≡ corrections_bytes s b) × (length q.old ≡ matrix_bytes s b) }
    ensures { (row : ℕ → ℕ → ℕ → ℕ) → Corrected s b row ch.now corrections.now i q.old → Corrected s b row ch.now corrections.now (i + 1) q.new }
{
    let at = b * (i - 1);
    let from = vector::columns_from(s, i, b);
    let to = vector::columns_from(s, i + 1, b);
    let d = challenge::hidden_index(s, ch, i);
    columns::add_bytes(
        &mut q[from..to],
        b,
        rules::depth_of(s, i),
        d,
        &corrections[at..at + b],
    );
}

// Adds the corrections to the columns of all vectors but the first.
pub fn correct_vectors(s: Shape, b: usize, ch: &[u8], corrections: &[u8], q: &mut [u8])
    requires { (shape_ok s ≡ true) × (b ≤ 8192) × (length ch.now ≡ challenge_bytes s) × (length corrections.now ≡ corrections_bytes s b) × (length q.old ≡ matrix_bytes s b) }
    ensures { (row : ℕ → ℕ → ℕ → ℕ) → q.old ≡ matrix_of s b (uncorrected s b row ch.now) → q.new ≡ matrix_of s b (verifier_column s b row ch.now corrections.now) }
{
    let n = s.tau;
    for i in 1..n {
        correct_vector(s, b, i, ch, corrections, q);
    }
}
