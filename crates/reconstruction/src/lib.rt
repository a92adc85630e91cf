// What reconstruct writes, from hash keys to the commitment; the tests of the call stand in `verifier`.
#![tactic(auto)]

ghost use Rattle.std.specs.Prelude.{◌≡◌, true, ◌+◌, ◌*◌, ◌≤◌, length};
ghost use Rattle.spec.specs.Shapes.{challenge_bytes, leaf_commitment_bytes, hash_bytes, iv_bytes, shape_ok, planned_count, tree_bytes, leaf_commitments_bytes, opening_bytes, matrix_bytes, corrections_bytes};
ghost use Rattle.spec.specs.Primitives.{faest};
ghost use Rattle.spec.specs.Calls.{Reconstructed, reconstructed};

use aes::Sbox;
use job::{Job, Version};
use spec::{Shape, Stretch};

// Writes what reconstruct writes; keys and hashes are room for the hash keys and the hashes of the vectors, n is the count of revealed nodes.
fn write_all(
    s: Shape,
    z: Stretch,
    n: usize,
    iv: &[u8],
    ch: &[u8],
    corrections: &[u8],
    opening: &[u8],
    keys: &mut [u8],
    hashes: &mut [u8],
    commitment: &mut [u8],
    tree: &mut [u8],
    lcs: &mut [u8],
    q: &mut [u8],
)
    requires s_value { (shape_ok s ≡ true) × (z.first + z.width ≤ 8192) × (n ≡ planned_count s ch.now) × (n ≤ s.t) × (length keys.old ≡ leaf_commitment_bytes s * s.tau) × (length hashes.old ≡ hash_bytes s * s.tau) }
    requires iv_len { (length iv.now ≡ iv_bytes) × (length ch.now ≡ challenge_bytes s) × (length corrections.now ≡ corrections_bytes s z.width) × (length opening.now ≡ opening_bytes s) }
    requires commitment_len { (length commitment.old ≡ hash_bytes s) × (length tree.old ≡ tree_bytes s) × (length lcs.old ≡ leaf_commitments_bytes s) × (length q.old ≡ matrix_bytes s z.width) }
    ensures { ◌≡◌ {A = Reconstructed} (record { commitment = commitment.exit.now; tree = tree.new; leaf_commitments = lcs.new; q = q.new })
        (reconstructed faest s z iv.now ch.now corrections.now opening.now) }
{
    let r = rules::rate_bytes(s);
    let sbox = Sbox::new();
    let x = generator::load_iv(iv);
    leaf::hash_keys(s, iv, keys);
    verifier_tree::reconstruct_tree(&sbox, s, ch, x, n, opening, tree);
    let g = Job {
        shape: s,
        stretch: z,
        iv: x,
        version: Version::Two,
    };
    verifier_vectors::write_vectors(&sbox, g, keys, ch, tree, opening, lcs, q, hashes);
    verifier_vectors::correct_vectors(s, z.width, ch, corrections, q);
    shake::h1(r, hashes, commitment);
}

// Writes what reconstruct writes, once every test has been passed.
pub fn write_reconstruction(
    s: Shape,
    z: Stretch,
    n: usize,
    iv: &[u8],
    ch: &[u8],
    corrections: &[u8],
    opening: &[u8],
    commitment: &mut [u8],
    tree: &mut [u8],
    lcs: &mut [u8],
    q: &mut [u8],
)
    requires s_value { (shape_ok s ≡ true) × (z.first + z.width ≤ 8192) × (n ≡ planned_count s ch.now) × (n ≤ s.t) }
    requires iv_len { (length iv.now ≡ iv_bytes) × (length ch.now ≡ challenge_bytes s) × (length corrections.now ≡ corrections_bytes s z.width) × (length opening.now ≡ opening_bytes s) }
    requires commitment_len { (length commitment.old ≡ hash_bytes s) × (length tree.old ≡ tree_bytes s) × (length lcs.old ≡ leaf_commitments_bytes s) × (length q.old ≡ matrix_bytes s z.width) }
    ensures { ◌≡◌ {A = Reconstructed} (record { commitment = commitment.exit.now; tree = tree.new; leaf_commitments = lcs.new; q = q.new })
        (reconstructed faest s z iv.now ch.now corrections.now opening.now) }
{
    let tau = s.tau;
    let w = rules::commitment_bytes(s);
    let h = rules::hash_bytes(s);
    let mut keys = [0u8; 3072];
    let mut hashes = [0u8; 2048];
    write_all(
        s,
        z,
        n,
        iv,
        ch,
        corrections,
        opening,
        &mut keys[0..w * tau],
        &mut hashes[0..h * tau],
        commitment,
        tree,
        lcs,
        q,
    );
}
