// The checking half's public calls: reconstruct and reconstruct_stretch. Nothing here depends on the signing half.
#![tactic(auto)]

ghost use Rattle.spec.specs.Primitives.{faest};
ghost use Rattle.spec.specs.Calls.{Reconstruct, ReconstructStretch};

use refusals::ReconstructLengths;
use spec::{Answer, Shape, Stretch};

// RECONSTRUCT, of a stretch: the commitment, the tree with zeros for its covered nodes, the leaf commitments and the stretch of every column of Q, from an opening and
// corrections that have the stretch alone. Every test comes before the first write.
pub fn reconstruct_stretch(
    shape: Shape,
    row_bits: usize,
    stretch: Stretch,
    iv: &[u8],
    challenge: &[u8],
    corrections: &[u8],
    opening: &[u8],
    commitment: &mut [u8],
    tree: &mut [u8],
    leaf_commitments: &mut [u8],
    q: &mut [u8],
) -> Answer
    ensures { ReconstructStretch faest shape row_bits stretch iv.now challenge.now corrections.now opening.now
        (record { commitment = commitment.entry.now; tree = tree.old; leaf_commitments = leaf_commitments.old; q = q.old })
        (record { commitment = commitment.exit.now; tree = tree.new; leaf_commitments = leaf_commitments.new; q = q.new })
        result }
{
    let s = rules::resolve(shape);
    let x = ReconstructLengths {
        iv: iv.len(),
        challenge: challenge.len(),
        corrections: corrections.len(),
        opening: opening.len(),
        commitment: commitment.len(),
        tree: tree.len(),
        leaf_commitments: leaf_commitments.len(),
        q: q.len(),
    };
    match verifier_refusals::test_reconstruct(s, row_bits, stretch, x, challenge, opening) {
        Ok(count) => {
            reconstruction::write_reconstruction(
                s,
                stretch,
                count,
                iv,
                challenge,
                corrections,
                opening,
                commitment,
                tree,
                leaf_commitments,
                q,
            );
            Answer { number: 0, count }
        }
        Err(refusal) => Answer::from(refusal),
    }
}

// RECONSTRUCT: the same of the whole row.
pub fn reconstruct(
    shape: Shape,
    row_bits: usize,
    iv: &[u8],
    challenge: &[u8],
    corrections: &[u8],
    opening: &[u8],
    commitment: &mut [u8],
    tree: &mut [u8],
    leaf_commitments: &mut [u8],
    q: &mut [u8],
) -> Answer
    ensures { Reconstruct faest shape row_bits iv.now challenge.now corrections.now opening.now
        (record { commitment = commitment.entry.now; tree = tree.old; leaf_commitments = leaf_commitments.old; q = q.old })
        (record { commitment = commitment.exit.now; tree = tree.new; leaf_commitments = leaf_commitments.new; q = q.new })
        result }
{
    let whole = Stretch {
        first: 0,
        width: row_bits / 8,
    };
    reconstruct_stretch(
        shape,
        row_bits,
        whole,
        iv,
        challenge,
        corrections,
        opening,
        commitment,
        tree,
        leaf_commitments,
        q,
    )
}
