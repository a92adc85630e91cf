// The checking half for a C host: reconstruct, of the rows and of a stretch of them, on numbers and byte slices. Nothing here depends on the signing half.
#![tactic(auto)]

ghost use Rattle.spec.specs.Primitives.{faest};
ghost use Rattle.spec.specs.HostCalls.{HostReconstruct, HostReconstructStretch};

use spec::{Shape, Stretch};

// RECONSTRUCT. Where the count slice has another length than 4, the IV is not passed on.
#[unsafe(no_mangle)]
pub extern "C" fn rachnoel_reconstruct(
    tau: usize,
    k: usize,
    w: usize,
    t: usize,
    level: usize,
    kind: usize,
    row_bits: usize,
    iv: &[u8],
    challenge: &[u8],
    corrections: &[u8],
    opening: &[u8],
    commitment: &mut [u8],
    tree: &mut [u8],
    leaf_commitments: &mut [u8],
    q: &mut [u8],
    count: &mut [u8],
) -> usize
    ensures { HostReconstruct faest (record { tau = tau; k = k; w = w; t = t; level = level; kind = kind }) row_bits iv.now challenge.now corrections.now opening.now
        (record { commitment = commitment.entry.now; tree = tree.old; leaf_commitments = leaf_commitments.old; q = q.old })
        (record { commitment = commitment.exit.now; tree = tree.new; leaf_commitments = leaf_commitments.new; q = q.new })
        count.old count.new result }
{
    let n = host_words::passed_on(iv.len(), count.len());
    let a = verifier::reconstruct(
        Shape {
            tau,
            k,
            w,
            t,
            level,
            kind,
        },
        row_bits,
        &iv[..n],
        challenge,
        corrections,
        opening,
        commitment,
        tree,
        leaf_commitments,
        q,
    );
    host_words::give(a, count)
}

// RECONSTRUCT of a stretch of the rows, in the same way.
#[unsafe(no_mangle)]
pub extern "C" fn rachnoel_reconstruct_stretch(
    tau: usize,
    k: usize,
    w: usize,
    t: usize,
    level: usize,
    kind: usize,
    row_bits: usize,
    first: usize,
    width: usize,
    iv: &[u8],
    challenge: &[u8],
    corrections: &[u8],
    opening: &[u8],
    commitment: &mut [u8],
    tree: &mut [u8],
    leaf_commitments: &mut [u8],
    q: &mut [u8],
    count: &mut [u8],
) -> usize
    ensures { HostReconstructStretch faest (record { tau = tau; k = k; w = w; t = t; level = level; kind = kind }) row_bits (record { first = first; width = width }) iv.now challenge.now corrections.now opening.now
        (record { commitment = commitment.entry.now; tree = tree.old; leaf_commitments = leaf_commitments.old; q = q.old })
        (record { commitment = commitment.exit.now; tree = tree.new; leaf_commitments = leaf_commitments.new; q = q.new })
        count.old count.new result }
{
    let n = host_words::passed_on(iv.len(), count.len());
    let a = verifier::reconstruct_stretch(
        Shape {
            tau,
            k,
            w,
            t,
            level,
            kind,
        },
        row_bits,
        Stretch { first, width },
        &iv[..n],
        challenge,
        corrections,
        opening,
        commitment,
        tree,
        leaf_commitments,
        q,
    );
    host_words::give(a, count)
}
