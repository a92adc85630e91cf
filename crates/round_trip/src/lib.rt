// Demand 3 over the three calls: commit, open and reconstruct, of whole rows or of a stretch of them, made one after another on lent buffers, each lent what the
// calls before it wrote.
#![tactic(auto)]

ghost use Rattle.round_trip.specs.RoundTrip.{RoundTrip, RoundTripStretch};

use spec::{Answer, Shape, Stretch};

// The answers of the three calls.
#[derive(Clone, Copy)]
pub struct Answers {
    pub made: Answer,
    pub opened: Answer,
    pub checked: Answer,
}

// Makes the three calls. Whatever they answer, each contract holds, and with them the claim.
pub fn round_trip(
    shape: Shape,
    row_bits: usize,
    root: &[u8],
    iv: &[u8],
    challenge: &[u8],
    commitment: &mut [u8],
    tree: &mut [u8],
    leaf_commitments: &mut [u8],
    u: &mut [u8],
    v: &mut [u8],
    corrections: &mut [u8],
    opening: &mut [u8],
    commitment2: &mut [u8],
    tree2: &mut [u8],
    leaf_commitments2: &mut [u8],
    q: &mut [u8],
) -> Answers
    ensures { RoundTrip shape row_bits root.now iv.now challenge.now
        (record { commitment = commitment.entry.now; tree = tree.old; leaf_commitments = leaf_commitments.old; u = u.old; v = v.old; corrections = corrections.old })
        (record { commitment = commitment.exit.now; tree = tree.new; leaf_commitments = leaf_commitments.new; u = u.new; v = v.new; corrections = corrections.new })
        opening.old opening.new
        (record { commitment = commitment2.old; tree = tree2.old; leaf_commitments = leaf_commitments2.old; q = q.old })
        (record { commitment = commitment2.new; tree = tree2.new; leaf_commitments = leaf_commitments2.new; q = q.new })
        result.made result.opened result.checked }
{
    let made = signer::commit(
        shape,
        row_bits,
        root,
        iv,
        commitment,
        tree,
        leaf_commitments,
        u,
        v,
        corrections,
    );
    let opened = signer::open(shape, challenge, tree, leaf_commitments, opening);
    let checked = verifier::reconstruct(
        shape,
        row_bits,
        iv,
        challenge,
        corrections,
        opening,
        commitment2,
        tree2,
        leaf_commitments2,
        q,
    );
    Answers {
        made,
        opened,
        checked,
    }
}

// The same with a stretch of the rows.
pub fn round_trip_stretch(
    shape: Shape,
    row_bits: usize,
    stretch: Stretch,
    root: &[u8],
    iv: &[u8],
    challenge: &[u8],
    commitment: &mut [u8],
    tree: &mut [u8],
    leaf_commitments: &mut [u8],
    u: &mut [u8],
    v: &mut [u8],
    corrections: &mut [u8],
    opening: &mut [u8],
    commitment2: &mut [u8],
    tree2: &mut [u8],
    leaf_commitments2: &mut [u8],
    q: &mut [u8],
) -> Answers
    ensures { RoundTripStretch shape row_bits stretch root.now iv.now challenge.now
        (record { commitment = commitment.entry.now; tree = tree.old; leaf_commitments = leaf_commitments.old; u = u.old; v = v.old; corrections = corrections.old })
        (record { commitment = commitment.exit.now; tree = tree.new; leaf_commitments = leaf_commitments.new; u = u.new; v = v.new; corrections = corrections.new })
        opening.old opening.new
        (record { commitment = commitment2.old; tree = tree2.old; leaf_commitments = leaf_commitments2.old; q = q.old })
        (record { commitment = commitment2.new; tree = tree2.new; leaf_commitments = leaf_commitments2.new; q = q.new })
        result.made result.opened result.checked }
{
    let made = signer::commit_stretch(
        shape,
        row_bits,
        stretch,
        root,
        iv,
        commitment,
        tree,
        leaf_commitments,
        u,
        v,
        corrections,
    );
    let opened = signer::open(shape, challenge, tree, leaf_commitments, opening);
    let checked = verifier::reconstruct_stretch(
        shape,
        row_bits,
        stretch,
        iv,
        challenge,
        corrections,
        opening,
        commitment2,
        tree2,
        leaf_commitments2,
        q,
    );
    Answers {
        made,
        opened,
        checked,
    }
}
