// The checking half of version 1 for a C host: reconstruct on numbers and byte slices. Nothing here depends on the signing half.
#![tactic(auto)]

ghost use Rattle.spec.specs.Version1.{faest1};
ghost use Rattle.spec.specs.Version1HostCalls.{HostReconstruct1};

use spec::Shape;

// RECONSTRUCT of version 1. Where the count slice has another length than 4, the IV is not passed on.
#[unsafe(no_mangle)]
pub extern "C" fn rachnoel_v1_reconstruct(
    tau: usize,
    k: usize,
    w: usize,
    t: usize,
    level: usize,
    kind: usize,
    row_bits: usize,
    iv: &[u8],
    challenge: &[u8],
    corrections: &[u8],
    opening: &[u8],
    commitment: &mut [u8],
    trees: &mut [u8],
    leaf_commitments: &mut [u8],
    q: &mut [u8],
    count: &mut [u8],
) -> usize
    ensures { HostReconstruct1 faest1 (record { tau = tau; k = k; w = w; t = t; level = level; kind = kind }) row_bits iv.now challenge.now corrections.now opening.now
        (record { commitment = commitment.entry.now; tree = trees.old; leaf_commitments = leaf_commitments.old; q = q.old })
        (record { commitment = commitment.exit.now; tree = trees.new; leaf_commitments = leaf_commitments.new; q = q.new })
        count.old count.new result }
{
    let n = host_words::passed_on(iv.len(), count.len());
    let a = v1_verifier::reconstruct(
        Shape {
            tau,
            k,
            w,
            t,
            level,
            kind,
        },
        row_bits,
        &iv[..n],
        challenge,
        corrections,
        opening,
        commitment,
        trees,
        leaf_commitments,
        q,
    );
    host_words::give(a, count)
}
