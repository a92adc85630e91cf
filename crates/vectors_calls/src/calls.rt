// Commit, open and reconstruct of either version on the front of each buffer, of the length given; of version 2 commit and reconstruct in their form for a
// stretch where the rows are not whole.
use job::Version;
use spec::{Answer, Shape};
use test_support::lengths::{Lengths, Rows, challenge, leaves, product};
use test_support::parts::front_mut;

// The version of FAEST, the shape, the rows, and the lengths of what is lent.
#[derive(Clone, Copy)]
pub struct Call {
    pub version: Version,
    pub shape: Shape,
    pub rows: Rows,
    pub lengths: Lengths,
}

// What the calls are lent. Q is written in the place of V.
#[derive(Drop)]
pub struct Lent<'a> {
    pub commitment: &'a mut [u8],
    pub tree: &'a mut [u8],
    pub leaf_commitments: &'a mut [u8],
    pub u: &'a mut [u8],
    pub v: &'a mut [u8],
    pub corrections: &'a mut [u8],
    pub opening: &'a mut [u8],
}

// The exact lengths of version 1. Those of commitment, u, V, Q and corrections are version 2's. Of a shape that is refused any lengths will do.
fn first_lengths(s: Shape, l: Lengths) -> Lengths {
    let n = leaves(s);
    let w = challenge(s);
    let tau = s.tau.min(n);
    Lengths {
        tree: product(w, 2 * n - tau),
        leaf_commitments: product(2 * w, n),
        opening: product(w, 8 * w + 2 * tau),
        ..l
    }
}

impl Call {
    // A call on buffers of the exact lengths; `tree` is that of all trees in version 1.
    pub fn exact(version: Version, shape: Shape, rows: Rows) -> Call {
        let l = Lengths::of(shape, rows);
        let lengths = match version {
            Version::One => first_lengths(shape, l),
            Version::Two => l,
        };
        Call {
            version,
            shape,
            rows,
            lengths,
        }
    }

    pub fn commit(&self, root: &[u8], iv: &[u8], lent: &mut Lent<'_>) -> Answer {
        let l = self.lengths;
        match self.version {
            Version::One => v1_signer::commit(
                self.shape,
                self.rows.bits,
                root,
                iv,
                front_mut(lent.commitment, l.commitment),
                front_mut(lent.tree, l.tree),
                front_mut(lent.leaf_commitments, l.leaf_commitments),
                front_mut(lent.u, l.u),
                front_mut(lent.v, l.v),
                front_mut(lent.corrections, l.corrections),
            ),
            Version::Two => self.commit_second(root, iv, lent),
        }
    }

    // Commit of version 2, of whole rows or of a stretch.
    fn commit_second(&self, root: &[u8], iv: &[u8], lent: &mut Lent<'_>) -> Answer {
        let l = self.lengths;
        match self.rows.stretch {
            None => signer::commit(
                self.shape,
                self.rows.bits,
                root,
                iv,
                front_mut(lent.commitment, l.commitment),
                front_mut(lent.tree, l.tree),
                front_mut(lent.leaf_commitments, l.leaf_commitments),
                front_mut(lent.u, l.u),
                front_mut(lent.v, l.v),
                front_mut(lent.corrections, l.corrections),
            ),
            Some(stretch) => signer::commit_stretch(
                self.shape,
                self.rows.bits,
                stretch,
                root,
                iv,
                front_mut(lent.commitment, l.commitment),
                front_mut(lent.tree, l.tree),
                front_mut(lent.leaf_commitments, l.leaf_commitments),
                front_mut(lent.u, l.u),
                front_mut(lent.v, l.v),
                front_mut(lent.corrections, l.corrections),
            ),
        }
    }

    pub fn open(&self, challenge: &[u8], lent: &mut Lent<'_>) -> Answer {
        let l = self.lengths;
        match self.version {
            Version::One => v1_signer::open(
                self.shape,
                challenge,
                front_mut(lent.tree, l.tree),
                front_mut(lent.leaf_commitments, l.leaf_commitments),
                front_mut(lent.opening, l.opening),
            ),
            Version::Two => signer::open(
                self.shape,
                challenge,
                front_mut(lent.tree, l.tree),
                front_mut(lent.leaf_commitments, l.leaf_commitments),
                front_mut(lent.opening, l.opening),
            ),
        }
    }

    pub fn reconstruct(&self, iv: &[u8], challenge: &[u8], lent: &mut Lent<'_>) -> Answer {
        let l = self.lengths;
        match self.version {
            Version::One => v1_verifier::reconstruct(
                self.shape,
                self.rows.bits,
                iv,
                challenge,
                front_mut(lent.corrections, l.corrections),
                front_mut(lent.opening, l.opening),
                front_mut(lent.commitment, l.commitment),
                front_mut(lent.tree, l.tree),
                front_mut(lent.leaf_commitments, l.leaf_commitments),
                front_mut(lent.v, l.v),
            ),
            Version::Two => self.reconstruct_second(iv, challenge, lent),
        }
    }

    // Reconstruct of version 2, of whole rows or of a stretch.
    fn reconstruct_second(&self, iv: &[u8], challenge: &[u8], lent: &mut Lent<'_>) -> Answer {
        let l = self.lengths;
        match self.rows.stretch {
            None => verifier::reconstruct(
                self.shape,
                self.rows.bits,
                iv,
                challenge,
                front_mut(lent.corrections, l.corrections),
                front_mut(lent.opening, l.opening),
                front_mut(lent.commitment, l.commitment),
                front_mut(lent.tree, l.tree),
                front_mut(lent.leaf_commitments, l.leaf_commitments),
                front_mut(lent.v, l.v),
            ),
            Some(stretch) => verifier::reconstruct_stretch(
                self.shape,
                self.rows.bits,
                stretch,
                iv,
                challenge,
                front_mut(lent.corrections, l.corrections),
                front_mut(lent.opening, l.opening),
                front_mut(lent.commitment, l.commitment),
                front_mut(lent.tree, l.tree),
                front_mut(lent.leaf_commitments, l.leaf_commitments),
                front_mut(lent.v, l.v),
            ),
        }
    }
}
