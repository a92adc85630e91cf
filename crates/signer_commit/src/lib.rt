// The signing half's public calls commit and commit_stretch.
#![tactic(auto)]

ghost use Rattle.std.specs.Prelude.{◌≡◌, true, ◌+◌, ◌*◌, ◌≤◌, length};
ghost use Rattle.spec.specs.Shapes.{node_bytes, leaf_commitment_bytes, hash_bytes, iv_bytes, shape_ok, tree_bytes, leaf_commitments_bytes, matrix_bytes, corrections_bytes};
ghost use Rattle.spec.specs.Primitives.{faest};
ghost use Rattle.spec.specs.Calls.{Committed, committed, Commit, CommitStretch};

use aes::Sbox;
use job::{Job, Version};
use refusals::CommitLengths;
use spec::{Answer, Shape, Stretch};

// Writes what commit writes; keys and hashes are room for the hash keys and the hashes of the vectors.
fn write_all(
    s: Shape,
    z: Stretch,
    root: &[u8],
    iv: &[u8],
    keys: &mut [u8],
    hashes: &mut [u8],
    commitment: &mut [u8],
    tree: &mut [u8],
    lcs: &mut [u8],
    u: &mut [u8],
    v: &mut [u8],
    corrections: &mut [u8],
)
    requires s_value { (shape_ok s ≡ true) × (z.first + z.width ≤ 8192) × (length root.now ≡ node_bytes s) × (length iv.now ≡ iv_bytes) × (length keys.old ≡ leaf_commitment_bytes s * s.tau) × (length hashes.old ≡ hash_bytes s * s.tau) }
    requires commitment_len { (length commitment.old ≡ hash_bytes s) × (length tree.old ≡ tree_bytes s) × (length lcs.old ≡ leaf_commitments_bytes s) × (length u.old ≡ z.width) × (length v.old ≡ matrix_bytes s z.width) × (length corrections.old ≡ corrections_bytes s z.width) }
    ensures { ◌≡◌ {A = Committed} (record { commitment = commitment.exit.now; tree = tree.new; leaf_commitments = lcs.new; u = u.new; v = v.new; corrections = corrections.new })
        (committed faest s z root.now iv.now) }
{
    let r = rules::rate_bytes(s);
    let sbox = Sbox::new();
    let x = generator::load_iv(iv);
    leaf::hash_keys(s, iv, keys);
    signer_tree::grow(&sbox, s, root, x, tree);
    let g = Job {
        shape: s,
        stretch: z,
        iv: x,
        version: Version::Two,
    };
    signer_vectors::write_vectors(&sbox, g, keys, tree, lcs, u, v, corrections, hashes);
    shake::h1(r, hashes, commitment);
}

// Writes what commit writes, once every test has been passed.
fn write_commitment(
    s: Shape,
    z: Stretch,
    root: &[u8],
    iv: &[u8],
    commitment: &mut [u8],
    tree: &mut [u8],
    lcs: &mut [u8],
    u: &mut [u8],
    v: &mut [u8],
    corrections: &mut [u8],
)
    requires s_value { (shape_ok s ≡ true) × (z.first + z.width ≤ 8192) × (length root.now ≡ node_bytes s) × (length iv.now ≡ iv_bytes) }
    requires commitment_len { (length commitment.old ≡ hash_bytes s) × (length tree.old ≡ tree_bytes s) × (length lcs.old ≡ leaf_commitments_bytes s) × (length u.old ≡ z.width) × (length v.old ≡ matrix_bytes s z.width) × (length corrections.old ≡ corrections_bytes s z.width) }
    ensures { ◌≡◌ {A = Committed} (record { commitment = commitment.exit.now; tree = tree.new; leaf_commitments = lcs.new; u = u.new; v = v.new; corrections = corrections.new })
        (committed faest s z root.now iv.now) }
{
    let tau = s.tau;
    let w = rules::commitment_bytes(s);
    let h = rules::hash_bytes(s);
    let mut keys = [0u8; 3072];
    let mut hashes = [0u8; 2048];
    write_all(
        s,
        z,
        root,
        iv,
        &mut keys[0..w * tau],
        &mut hashes[0..h * tau],
        commitment,
        tree,
        lcs,
        u,
        v,
        corrections,
    );
}

// COMMIT, of a stretch: the commitment to the tree of a root, with rows of row_bits bits of which u, V and the corrections have the stretch alone. With answer 0
// what the buffers held before does not matter.
pub fn commit_stretch(
    shape: Shape,
    row_bits: usize,
    stretch: Stretch,
    root: &[u8],
    iv: &[u8],
    commitment: &mut [u8],
    tree: &mut [u8],
    leaf_commitments: &mut [u8],
    u: &mut [u8],
    v: &mut [u8],
    corrections: &mut [u8],
) -> Answer
    ensures { CommitStretch faest shape row_bits stretch root.now iv.now
        (record { commitment = commitment.entry.now; tree = tree.old; leaf_commitments = leaf_commitments.old; u = u.old; v = v.old; corrections = corrections.old })
        (record { commitment = commitment.exit.now; tree = tree.new; leaf_commitments = leaf_commitments.new; u = u.new; v = v.new; corrections = corrections.new })
        result }
{
    let s = rules::resolve(shape);
    let x = CommitLengths {
        root: root.len(),
        iv: iv.len(),
        commitment: commitment.len(),
        tree: tree.len(),
        leaf_commitments: leaf_commitments.len(),
        u: u.len(),
        v: v.len(),
        corrections: corrections.len(),
    };
    match signer_refusals::test_commit(s, row_bits, stretch, x) {
        Ok(()) => {
            write_commitment(
                s,
                stretch,
                root,
                iv,
                commitment,
                tree,
                leaf_commitments,
                u,
                v,
                corrections,
            );
            Answer {
                number: 0,
                count: 0,
            }
        }
        Err(refusal) => Answer::from(refusal),
    }
}

// COMMIT: the same of the whole row.
pub fn commit(
    shape: Shape,
    row_bits: usize,
    root: &[u8],
    iv: &[u8],
    commitment: &mut [u8],
    tree: &mut [u8],
    leaf_commitments: &mut [u8],
    u: &mut [u8],
    v: &mut [u8],
    corrections: &mut [u8],
) -> Answer
    ensures { Commit faest shape row_bits root.now iv.now
        (record { commitment = commitment.entry.now; tree = tree.old; leaf_commitments = leaf_commitments.old; u = u.old; v = v.old; corrections = corrections.old })
        (record { commitment = commitment.exit.now; tree = tree.new; leaf_commitments = leaf_commitments.new; u = u.new; v = v.new; corrections = corrections.new })
        result }
{
    let whole = Stretch {
        first: 0,
        width: row_bits / 8,
    };
    commit_stretch(
        shape,
        row_bits,
        whole,
        root,
        iv,
        commitment,
        tree,
        leaf_commitments,
        u,
        v,
        corrections,
    )
}
