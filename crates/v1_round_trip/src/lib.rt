// Demand 3 of version 1 over its three calls: commit, open and reconstruct, made one after another on lent buffers, each lent what the calls before it wrote.
#![tactic(auto)]

ghost use Rattle.v1_round_trip.specs.RoundTrip.{RoundTrip1};

use spec::{Answer, Shape};

// The answers of the three calls.
#[derive(Clone, Copy)]
pub struct Answers {
    pub made: Answer,
    pub opened: Answer,
    pub checked: Answer,
}

// Makes the three calls. Whatever they answer, each contract holds, and with them the claim.
pub fn round_trip(
    shape: Shape,
    row_bits: usize,
    root: &[u8],
    iv: &[u8],
    challenge: &[u8],
    commitment: &mut [u8],
    trees: &mut [u8],
    leaf_commitments: &mut [u8],
    u: &mut [u8],
    v: &mut [u8],
    corrections: &mut [u8],
    opening: &mut [u8],
    commitment2: &mut [u8],
    trees2: &mut [u8],
    leaf_commitments2: &mut [u8],
    q: &mut [u8],
) -> Answers
    ensures { RoundTrip1 shape row_bits root.now iv.now challenge.now
        (record { commitment = commitment.entry.now; tree = trees.old; leaf_commitments = leaf_commitments.old; u = u.old; v = v.old; corrections = corrections.old })
        (record { commitment = commitment.exit.now; tree = trees.new; leaf_commitments = leaf_commitments.new; u = u.new; v = v.new; corrections = corrections.new })
        opening.old opening.new
        (record { commitment = commitment2.old; tree = trees2.old; leaf_commitments = leaf_commitments2.old; q = q.old })
        (record { commitment = commitment2.new; tree = trees2.new; leaf_commitments = leaf_commitments2.new; q = q.new })
        result.made result.opened result.checked }
{
    let made = v1_signer::commit(
        shape,
        row_bits,
        root,
        iv,
        commitment,
        trees,
        leaf_commitments,
        u,
        v,
        corrections,
    );
    let opened = v1_signer::open(shape, challenge, trees, leaf_commitments, opening);
    let checked = v1_verifier::reconstruct(
        shape,
        row_bits,
        iv,
        challenge,
        corrections,
        opening,
        commitment2,
        trees2,
        leaf_commitments2,
        q,
    );
    Answers {
        made,
        opened,
        checked,
    }
}
