// The signing half of version 1 for a C host: commit and open on numbers and byte slices.
#![tactic(auto)]

ghost use Rattle.spec.specs.Version1.{faest1};
ghost use Rattle.spec.specs.Version1HostCalls.{HostCommit1, HostOpen1};

use spec::Shape;

// COMMIT of version 1. Where the count slice has another length than 4, the root is not passed on.
#[unsafe(no_mangle)]
pub extern "C" fn rachnoel_v1_commit(
    tau: usize,
    k: usize,
    w: usize,
    t: usize,
    level: usize,
    kind: usize,
    row_bits: usize,
    root: &[u8],
    iv: &[u8],
    commitment: &mut [u8],
    trees: &mut [u8],
    leaf_commitments: &mut [u8],
    u: &mut [u8],
    v: &mut [u8],
    corrections: &mut [u8],
    count: &mut [u8],
) -> usize
    ensures { HostCommit1 faest1 (record { tau = tau; k = k; w = w; t = t; level = level; kind = kind }) row_bits root.now iv.now
        (record { commitment = commitment.entry.now; tree = trees.old; leaf_commitments = leaf_commitments.old; u = u.old; v = v.old; corrections = corrections.old })
        (record { commitment = commitment.exit.now; tree = trees.new; leaf_commitments = leaf_commitments.new; u = u.new; v = v.new; corrections = corrections.new })
        count.old count.new result }
{
    let n = host_words::passed_on(root.len(), count.len());
    let a = v1_signer::commit(
        Shape {
            tau,
            k,
            w,
            t,
            level,
            kind,
        },
        row_bits,
        &root[..n],
        iv,
        commitment,
        trees,
        leaf_commitments,
        u,
        v,
        corrections,
    );
    host_words::give(a, count)
}

// OPEN of version 1. Where the count slice has another length than 4, the challenge is not passed on.
#[unsafe(no_mangle)]
pub extern "C" fn rachnoel_v1_open(
    tau: usize,
    k: usize,
    w: usize,
    t: usize,
    level: usize,
    kind: usize,
    challenge: &[u8],
    trees: &[u8],
    leaf_commitments: &[u8],
    opening: &mut [u8],
    count: &mut [u8],
) -> usize
    ensures { HostOpen1 (record { tau = tau; k = k; w = w; t = t; level = level; kind = kind }) challenge.now trees.now leaf_commitments.now
        opening.old opening.new count.old count.new result }
{
    let n = host_words::passed_on(challenge.len(), count.len());
    let a = v1_signer::open(
        Shape {
            tau,
            k,
            w,
            t,
            level,
            kind,
        },
        &challenge[..n],
        trees,
        leaf_commitments,
        opening,
    );
    host_words::give(a, count)
}
