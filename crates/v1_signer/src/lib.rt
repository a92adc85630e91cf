// The signing half of version 1 (document 02, E12): its public calls commit and open.
#![tactic(auto)]

ghost use Rattle.std.specs.Prelude.{◌≡◌, true, List, [], ◌∷◌, ◌*◌, ◌/◌, ◌≤◌, length};
ghost use Rattle.spec.specs.Shapes.{node_bytes, challenge_bytes, hash_bytes, iv_bytes, shape_ok, matrix_bytes, corrections_bytes};
ghost use Rattle.spec.specs.Calls.{fits, Committed};
ghost use Rattle.spec.specs.Version1.{faest1, shape1_ok, leaf_commitment_bytes1, trees1_bytes, leaf_commitments1_bytes, opening1_bytes};
ghost use Rattle.spec.specs.Version1Calls.{row1_number, open1_number, committed1, Commit1, Open1};
ghost use Rattle.refusals.specs.Refusal.{number_in};

use aes::Sbox;
use refusals::{CommitLengths, OpenLengths, Refusal};
use spec::{Answer, Shape};

// Whether the buffers of commit have their lengths, for rows of b bytes.
fn commit_fits(s: Shape, b: usize, x: CommitLengths) -> bool
    requires { (shape_ok s ≡ true) × (b ≤ 8192) }
    ensures { result ≡ fits ((x.root, node_bytes s) ∷ (x.iv, iv_bytes) ∷ (x.commitment, hash_bytes s) ∷ (x.tree, trees1_bytes s) ∷ (x.leaf_commitments, leaf_commitments1_bytes s)
        ∷ (x.u, b) ∷ (x.v, matrix_bytes s b) ∷ (x.corrections, corrections_bytes s b) ∷ []) }
{
    x == CommitLengths {
        root: rules::node_bytes(s),
        iv: 16,
        commitment: rules::hash_bytes(s),
        tree: v1_rules::trees_bytes(s),
        leaf_commitments: v1_rules::leaf_commitments_bytes(s),
        u: b,
        v: lengths::matrix_bytes(s, b),
        corrections: lengths::corrections_bytes(s, b),
    }
}

// The tests of commit: of the shape, the row length, the lengths.
fn test_commit(s: Shape, row_bits: usize, x: CommitLengths) -> Result<(), Refusal>
    ensures { number_in result ≡ row1_number s row_bits ((x.root, node_bytes s) ∷ (x.iv, iv_bytes) ∷ (x.commitment, hash_bytes s) ∷ (x.tree, trees1_bytes s) ∷ (x.leaf_commitments, leaf_commitments1_bytes s)
        ∷ (x.u, row_bits / 8) ∷ (x.v, matrix_bytes s (row_bits / 8)) ∷ (x.corrections, corrections_bytes s (row_bits / 8)) ∷ []) }
{
    v1_rules::test_front(s, row_bits)?;
    refusals::test(commit_fits(s, row_bits / 8, x), Refusal::BufferLength)
}

// Writes what commit writes, for rows of b bytes; hashes is room for the hashes of the vectors. Version 1 does not read keys, which only
// has the length that the vectors ask for.
fn write_all(
    s: Shape,
    b: usize,
    root: &[u8],
    iv: &[u8],
    keys: &[u8],
    hashes: &mut [u8],
    commitment: &mut [u8],
    trees: &mut [u8],
    lcs: &mut [u8],
    u: &mut [u8],
    v: &mut [u8],
    corrections: &mut [u8],
)
    requires s_value { (shape1_ok s ≡ true) × (b ≤ 8192) × (length root.now ≡ node_bytes s) × (length iv.now ≡ iv_bytes) × (length keys.now ≡ leaf_commitment_bytes1 s * s.tau) × (length hashes.old ≡ hash_bytes s * s.tau) }
    requires commitment_len { (length commitment.old ≡ hash_bytes s) × (length trees.old ≡ trees1_bytes s) × (length lcs.old ≡ leaf_commitments1_bytes s) × (length u.old ≡ b) × (length v.old ≡ matrix_bytes s b) × (length corrections.old ≡ corrections_bytes s b) }
    ensures { ◌≡◌ {A = Committed} (record { commitment = commitment.exit.now; tree = trees.new; leaf_commitments = lcs.new; u = u.new; v = v.new; corrections = corrections.new })
        (committed1 faest1 s b root.now iv.now) }
{
    let r = rules::rate_bytes(s);
    let sbox = Sbox::new();
    let x = generator::load_iv(iv);
    let g = v1_rules::job_of(s, b, x);
    signer_forest::grow_trees(&sbox, s, root, x, trees);
    signer_vectors::write_vectors(&sbox, g, keys, trees, lcs, u, v, corrections, hashes);
    shake::h1(r, hashes, commitment);
}

// Writes what commit writes, once every test has been passed.
fn write_commitment(
    s: Shape,
    b: usize,
    root: &[u8],
    iv: &[u8],
    commitment: &mut [u8],
    trees: &mut [u8],
    lcs: &mut [u8],
    u: &mut [u8],
    v: &mut [u8],
    corrections: &mut [u8],
)
    requires s_value { (shape1_ok s ≡ true) × (b ≤ 8192) × (length root.now ≡ node_bytes s) × (length iv.now ≡ iv_bytes) }
    requires commitment_len { (length commitment.old ≡ hash_bytes s) × (length trees.old ≡ trees1_bytes s) × (length lcs.old ≡ leaf_commitments1_bytes s) × (length u.old ≡ b) × (length v.old ≡ matrix_bytes s b) × (length corrections.old ≡ corrections_bytes s b) }
    ensures { ◌≡◌ {A = Committed} (record { commitment = commitment.exit.now; tree = trees.new; leaf_commitments = lcs.new; u = u.new; v = v.new; corrections = corrections.new })
        (committed1 faest1 s b root.now iv.now) }
{
    let n = rules::hash_bytes(s) * s.tau;
    let keys = [0u8; 2048];
    let mut hashes = [0u8; 2048];
    write_all(
        s,
        b,
        root,
        iv,
        &keys[0..n],
        &mut hashes[0..n],
        commitment,
        trees,
        lcs,
        u,
        v,
        corrections,
    );
}

// COMMIT of version 1: the commitment to the trees of a root, with rows of row_bits bits. With answer 0 what the buffers held before does not matter.
pub fn commit(
    shape: Shape,
    row_bits: usize,
    root: &[u8],
    iv: &[u8],
    commitment: &mut [u8],
    trees: &mut [u8],
    leaf_commitments: &mut [u8],
    u: &mut [u8],
    v: &mut [u8],
    corrections: &mut [u8],
) -> Answer
    ensures { Commit1 faest1 shape row_bits root.now iv.now
        (record { commitment = commitment.entry.now; tree = trees.old; leaf_commitments = leaf_commitments.old; u = u.old; v = v.old; corrections = corrections.old })
        (record { commitment = commitment.exit.now; tree = trees.new; leaf_commitments = leaf_commitments.new; u = u.new; v = v.new; corrections = corrections.new })
        result }
{
    let x = CommitLengths {
        root: root.len(),
        iv: iv.len(),
        commitment: commitment.len(),
        tree: trees.len(),
        leaf_commitments: leaf_commitments.len(),
        u: u.len(),
        v: v.len(),
        corrections: corrections.len(),
    };
    match test_commit(shape, row_bits, x) {
        Ok(()) => {
            write_commitment(
                shape,
                row_bits / 8,
                root,
                iv,
                commitment,
                trees,
                leaf_commitments,
                u,
                v,
                corrections,
            );
            Answer {
                number: 0,
                count: 0,
            }
        }
        Err(refusal) => Answer::from(refusal),
    }
}

// Whether the buffers of open have their lengths.
fn open_fits(s: Shape, x: OpenLengths) -> bool
    requires { shape_ok s ≡ true }
    ensures { result ≡ fits ((x.challenge, challenge_bytes s) ∷ (x.tree, trees1_bytes s) ∷ (x.leaf_commitments, leaf_commitments1_bytes s) ∷ (x.opening, opening1_bytes s) ∷ []) }
{
    x == OpenLengths {
        challenge: rules::node_bytes(s),
        tree: v1_rules::trees_bytes(s),
        leaf_commitments: v1_rules::leaf_commitments_bytes(s),
        opening: v1_rules::opening_bytes(s),
    }
}

// The tests of open: of the shape, the lengths.
fn test_open(s: Shape, x: OpenLengths) -> Result<(), Refusal>
    ensures { number_in result ≡ open1_number s ((x.challenge, challenge_bytes s) ∷ (x.tree, trees1_bytes s) ∷ (x.leaf_commitments, leaf_commitments1_bytes s) ∷ (x.opening, opening1_bytes s) ∷ []) }
{
    refusals::test(v1_rules::is_shape(s), Refusal::NotAShape)?;
    refusals::test(open_fits(s, x), Refusal::BufferLength)
}

// OPEN of version 1: of each vector the siblings of the path to its hidden leaf, and the hidden leaf commitment. No opening is refused for nodes or grinding.
pub fn open(
    shape: Shape,
    challenge: &[u8],
    trees: &[u8],
    leaf_commitments: &[u8],
    opening: &mut [u8],
) -> Answer
    ensures { Open1 shape challenge.now trees.now leaf_commitments.now opening.old opening.new result }
{
    let x = OpenLengths {
        challenge: challenge.len(),
        tree: trees.len(),
        leaf_commitments: leaf_commitments.len(),
        opening: opening.len(),
    };
    match test_open(shape, x) {
        Ok(()) => {
            v1_opening::write_opening(shape, challenge, trees, leaf_commitments, opening);
            Answer {
                number: 0,
                count: 0,
            }
        }
        Err(refusal) => Answer::from(refusal),
    }
}
