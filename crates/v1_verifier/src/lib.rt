// The checking half of version 1 (document 02, E12): its public call reconstruct.
#![tactic(auto)]

ghost use Rattle.std.specs.Prelude.{◌≡◌, true, [], ◌∷◌, ◌*◌, ◌/◌, ◌≤◌, length};
ghost use Rattle.spec.specs.Shapes.{challenge_bytes, hash_bytes, iv_bytes, shape_ok, matrix_bytes, corrections_bytes};
ghost use Rattle.spec.specs.Calls.{fits, Reconstructed};
ghost use Rattle.spec.specs.Version1.{faest1, shape1_ok, leaf_commitment_bytes1, trees1_bytes, leaf_commitments1_bytes, opening1_bytes};
ghost use Rattle.spec.specs.Version1Calls.{row1_number, reconstructed1, Reconstruct1};
ghost use Rattle.refusals.specs.Refusal.{number_in};

use aes::Sbox;
use refusals::{ReconstructLengths, Refusal};
use spec::{Answer, Shape};

// Whether the buffers of reconstruct have their lengths, for rows of b bytes.
fn reconstruct_fits(s: Shape, b: usize, x: ReconstructLengths) -> bool
    requires { (shape_ok s ≡ true) × (b ≤ 8192) }
    ensures { result ≡ fits ((x.iv, iv_bytes) ∷ (x.challenge, challenge_bytes s) ∷ (x.corrections, corrections_bytes s b) ∷ (x.opening, opening1_bytes s) ∷ (x.commitment, hash_bytes s)
        ∷ (x.tree, trees1_bytes s) ∷ (x.leaf_commitments, leaf_commitments1_bytes s) ∷ (x.q, matrix_bytes s b) ∷ []) }
{
    x == ReconstructLengths {
        iv: 16,
        challenge: rules::node_bytes(s),
        corrections: lengths::corrections_bytes(s, b),
        opening: v1_rules::opening_bytes(s),
        commitment: rules::hash_bytes(s),
        tree: v1_rules::trees_bytes(s),
        leaf_commitments: v1_rules::leaf_commitments_bytes(s),
        q: lengths::matrix_bytes(s, b),
    }
}

// The tests of reconstruct: of the shape, the row length, the lengths.
fn test_reconstruct(s: Shape, row_bits: usize, x: ReconstructLengths) -> Result<(), Refusal>
    ensures { number_in result ≡ row1_number s row_bits ((x.iv, iv_bytes) ∷ (x.challenge, challenge_bytes s) ∷ (x.corrections, corrections_bytes s (row_bits / 8)) ∷ (x.opening, opening1_bytes s)
        ∷ (x.commitment, hash_bytes s) ∷ (x.tree, trees1_bytes s) ∷ (x.leaf_commitments, leaf_commitments1_bytes s) ∷ (x.q, matrix_bytes s (row_bits / 8)) ∷ []) }
{
    v1_rules::test_front(s, row_bits)?;
    refusals::test(reconstruct_fits(s, row_bits / 8, x), Refusal::BufferLength)
}

// Writes what reconstruct writes, for rows of b bytes; hashes is room for the hashes of the vectors. Version 1 does not read keys, which only
// has the length that the vectors ask for.
fn write_all(
    s: Shape,
    b: usize,
    iv: &[u8],
    ch: &[u8],
    corrections: &[u8],
    opening: &[u8],
    keys: &[u8],
    hashes: &mut [u8],
    commitment: &mut [u8],
    trees: &mut [u8],
    lcs: &mut [u8],
    q: &mut [u8],
)
    requires s_value { (shape1_ok s ≡ true) × (b ≤ 8192) × (length keys.now ≡ leaf_commitment_bytes1 s * s.tau) × (length hashes.old ≡ hash_bytes s * s.tau) }
    requires iv_len { (length iv.now ≡ iv_bytes) × (length ch.now ≡ challenge_bytes s) × (length corrections.now ≡ corrections_bytes s b) × (length opening.now ≡ opening1_bytes s) }
    requires commitment_len { (length commitment.old ≡ hash_bytes s) × (length trees.old ≡ trees1_bytes s) × (length lcs.old ≡ leaf_commitments1_bytes s) × (length q.old ≡ matrix_bytes s b) }
    ensures { ◌≡◌ {A = Reconstructed} (record { commitment = commitment.exit.now; tree = trees.new; leaf_commitments = lcs.new; q = q.new })
        (reconstructed1 faest1 s b iv.now ch.now corrections.now opening.now) }
{
    let r = rules::rate_bytes(s);
    let sbox = Sbox::new();
    let x = generator::load_iv(iv);
    let g = v1_rules::job_of(s, b, x);
    verifier_forest::reconstruct_trees(&sbox, s, ch, x, opening, trees);
    verifier_vectors::write_vectors(&sbox, g, keys, ch, trees, opening, lcs, q, hashes);
    verifier_vectors::correct_vectors(s, b, ch, corrections, q);
    shake::h1(r, hashes, commitment);
}

// Writes what reconstruct writes, once every test has been passed.
fn write_reconstruction(
    s: Shape,
    b: usize,
    iv: &[u8],
    ch: &[u8],
    corrections: &[u8],
    opening: &[u8],
    commitment: &mut [u8],
    trees: &mut [u8],
    lcs: &mut [u8],
    q: &mut [u8],
)
    requires s_value { (shape1_ok s ≡ true) × (b ≤ 8192) }
    requires iv_len { (length iv.now ≡ iv_bytes) × (length ch.now ≡ challenge_bytes s) × (length corrections.now ≡ corrections_bytes s b) × (length opening.now ≡ opening1_bytes s) }
    requires commitment_len { (length commitment.old ≡ hash_bytes s) × (length trees.old ≡ trees1_bytes s) × (length lcs.old ≡ leaf_commitments1_bytes s) × (length q.old ≡ matrix_bytes s b) }
    ensures { ◌≡◌ {A = Reconstructed} (record { commitment = commitment.exit.now; tree = trees.new; leaf_commitments = lcs.new; q = q.new })
        (reconstructed1 faest1 s b iv.now ch.now corrections.now opening.now) }
{
    let n = rules::hash_bytes(s) * s.tau;
    let keys = [0u8; 2048];
    let mut hashes = [0u8; 2048];
    write_all(
        s,
        b,
        iv,
        ch,
        corrections,
        opening,
        &keys[0..n],
        &mut hashes[0..n],
        commitment,
        trees,
        lcs,
        q,
    );
}

// RECONSTRUCT of version 1: from an opening the commitment, the trees, the leaf commitments and Q. With answer 0 what the buffers held before does not matter;
// whether the commitment is the signer's is for the caller to compare.
pub fn reconstruct(
    shape: Shape,
    row_bits: usize,
    iv: &[u8],
    challenge: &[u8],
    corrections: &[u8],
    opening: &[u8],
    commitment: &mut [u8],
    trees: &mut [u8],
    leaf_commitments: &mut [u8],
    q: &mut [u8],
) -> Answer
    ensures { Reconstruct1 faest1 shape row_bits iv.now challenge.now corrections.now opening.now
        (record { commitment = commitment.entry.now; tree = trees.old; leaf_commitments = leaf_commitments.old; q = q.old })
        (record { commitment = commitment.exit.now; tree = trees.new; leaf_commitments = leaf_commitments.new; q = q.new })
        result }
{
    let x = ReconstructLengths {
        iv: iv.len(),
        challenge: challenge.len(),
        corrections: corrections.len(),
        opening: opening.len(),
        commitment: commitment.len(),
        tree: trees.len(),
        leaf_commitments: leaf_commitments.len(),
        q: q.len(),
    };
    match test_reconstruct(shape, row_bits, x) {
        Ok(()) => {
            write_reconstruction(
                shape,
                row_bits / 8,
                iv,
                challenge,
                corrections,
                opening,
                commitment,
                trees,
                leaf_commitments,
                q,
            );
            Answer {
                number: 0,
                count: 0,
            }
        }
        Err(refusal) => Answer::from(refusal),
    }
}
