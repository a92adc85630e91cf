// The signing half for a C host: commit, of the rows and of a stretch of them, and open on numbers and byte slices.
#![tactic(auto)]

ghost use Rattle.spec.specs.Primitives.{faest};
ghost use Rattle.spec.specs.HostCalls.{HostCommit, HostCommitStretch, HostOpen};

use spec::{Shape, Stretch};

// COMMIT. Where the count slice has another length than 4, the root is not passed on.
#[unsafe(no_mangle)]
pub extern "C" fn rachnoel_commit(
    tau: usize,
    k: usize,
    w: usize,
    t: usize,
    level: usize,
    kind: usize,
    row_bits: usize,
    root: &[u8],
    iv: &[u8],
    commitment: &mut [u8],
    tree: &mut [u8],
    leaf_commitments: &mut [u8],
    u: &mut [u8],
    v: &mut [u8],
    corrections: &mut [u8],
    count: &mut [u8],
) -> usize
    ensures { HostCommit faest (record { tau = tau; k = k; w = w; t = t; level = level; kind = kind }) row_bits root.now iv.now
        (record { commitment = commitment.entry.now; tree = tree.old; leaf_commitments = leaf_commitments.old; u = u.old; v = v.old; corrections = corrections.old })
        (record { commitment = commitment.exit.now; tree = tree.new; leaf_commitments = leaf_commitments.new; u = u.new; v = v.new; corrections = corrections.new })
        count.old count.new result }
{
    let n = host_words::passed_on(root.len(), count.len());
    let a = signer::commit(
        Shape {
            tau,
            k,
            w,
            t,
            level,
            kind,
        },
        row_bits,
        &root[..n],
        iv,
        commitment,
        tree,
        leaf_commitments,
        u,
        v,
        corrections,
    );
    host_words::give(a, count)
}

// COMMIT of a stretch of the rows, in the same way.
#[unsafe(no_mangle)]
pub extern "C" fn rachnoel_commit_stretch(
    tau: usize,
    k: usize,
    w: usize,
    t: usize,
    level: usize,
    kind: usize,
    row_bits: usize,
    first: usize,
    width: usize,
    root: &[u8],
    iv: &[u8],
    commitment: &mut [u8],
    tree: &mut [u8],
    leaf_commitments: &mut [u8],
    u: &mut [u8],
    v: &mut [u8],
    corrections: &mut [u8],
    count: &mut [u8],
) -> usize
    ensures { HostCommitStretch faest (record { tau = tau; k = k; w = w; t = t; level = level; kind = kind }) row_bits (record { first = first; width = width }) root.now iv.now
        (record { commitment = commitment.entry.now; tree = tree.old; leaf_commitments = leaf_commitments.old; u = u.old; v = v.old; corrections = corrections.old })
        (record { commitment = commitment.exit.now; tree = tree.new; leaf_commitments = leaf_commitments.new; u = u.new; v = v.new; corrections = corrections.new })
        count.old count.new result }
{
    let n = host_words::passed_on(root.len(), count.len());
    let a = signer::commit_stretch(
        Shape {
            tau,
            k,
            w,
            t,
            level,
            kind,
        },
        row_bits,
        Stretch { first, width },
        &root[..n],
        iv,
        commitment,
        tree,
        leaf_commitments,
        u,
        v,
        corrections,
    );
    host_words::give(a, count)
}

// OPEN. Where the count slice has another length than 4, the challenge is not passed on.
#[unsafe(no_mangle)]
pub extern "C" fn rachnoel_open(
    tau: usize,
    k: usize,
    w: usize,
    t: usize,
    level: usize,
    kind: usize,
    challenge: &[u8],
    tree: &[u8],
    leaf_commitments: &[u8],
    opening: &mut [u8],
    count: &mut [u8],
) -> usize
    ensures { HostOpen (record { tau = tau; k = k; w = w; t = t; level = level; kind = kind }) challenge.now tree.now leaf_commitments.now
        opening.old opening.new count.old count.new result }
{
    let n = host_words::passed_on(challenge.len(), count.len());
    let a = signer::open(
        Shape {
            tau,
            k,
            w,
            t,
            level,
            kind,
        },
        &challenge[..n],
        tree,
        leaf_commitments,
        opening,
    );
    host_words::give(a, count)
}
