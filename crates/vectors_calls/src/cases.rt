// A case: commit, open and reconstruct one after another, and what the command line of reference/ prints of each.
use crate::calls::{Call, Lent};
use crate::print::{print_answer, print_buffer};
use case_text::Bytes;
use job::Version;
use std::alloc::{AllocError, Global};
use std::io;

// The bytes that a case gives the calls.
#[derive(Clone, Copy)]
pub struct Inputs {
    pub root: Bytes,
    pub iv: Bytes,
    pub challenge: Bytes,
}

// What the calls of a case are lent. Q is written in the place of V.
#[derive(Drop)]
pub struct Buffers {
    pub commitment: Vec<u8>,
    pub tree: Vec<u8>,
    pub leaf_commitments: Vec<u8>,
    pub u: Vec<u8>,
    pub v: Vec<u8>,
    pub corrections: Vec<u8>,
    pub opening: Vec<u8>,
}

impl Buffers {
    // They hold 0xa5 at first, so that a byte that is not written shows. The trees of 192s and 256s do not fit: hosts/c/cases.c runs those sets.
    pub fn new(alloc: Global) -> Result<Buffers, AllocError> {
        Ok(Buffers {
            commitment: vec![in alloc; 0xa5; 64]?,
            tree: vec![in alloc; 0xa5; 1310704]?,
            leaf_commitments: vec![in alloc; 0xa5; 1966080]?,
            u: vec![in alloc; 0xa5; 8192]?,
            v: vec![in alloc; 0xa5; 1048576]?,
            corrections: vec![in alloc; 0xa5; 253952]?,
            opening: vec![in alloc; 0xa5; 19456]?,
        })
    }

    pub fn lend(&mut self) -> Lent<'_> {
        Lent {
            commitment: &mut self.commitment,
            tree: &mut self.tree,
            leaf_commitments: &mut self.leaf_commitments,
            u: &mut self.u,
            v: &mut self.v,
            corrections: &mut self.corrections,
            opening: &mut self.opening,
        }
    }

    // What both halves write of the tree.
    fn print_leaves(&self, rt: &impl Print, c: &Call) -> io::Result<()> {
        let l = c.lengths;
        let tree = match c.version {
            Version::One => "trees",
            Version::Two => "tree",
        };
        print_buffer(rt, "commitment", &self.commitment, l.commitment)?;
        print_buffer(rt, tree, &self.tree, l.tree)?;
        print_buffer(
            rt,
            "leaf_commitments",
            &self.leaf_commitments,
            l.leaf_commitments,
        )
    }

    // Commit, and what `reference commit` prints.
    fn commit(&mut self, rt: &impl Print, c: &Call, x: &Inputs) -> io::Result<()> {
        let r = c.commit(x.root.as_slice(), x.iv.as_slice(), &mut self.lend());
        print_answer(rt, r)?;
        if r.number == 0 {
            self.print_leaves(rt, c)?;
            print_buffer(rt, "u", &self.u, c.lengths.u)?;
            print_buffer(rt, "v", &self.v, c.lengths.v)?;
            print_buffer(rt, "corrections", &self.corrections, c.lengths.corrections)?;
        }
        Ok(())
    }

    // Open, and what `reference open` prints.
    fn open(&mut self, rt: &impl Print, c: &Call, x: &Inputs) -> io::Result<()> {
        let r = c.open(x.challenge.as_slice(), &mut self.lend());
        print_answer(rt, r)?;
        if r.number == 0 {
            print_buffer(rt, "opening", &self.opening, c.lengths.opening)?;
        }
        Ok(())
    }

    // Reconstruct, and what `reference reconstruct` prints. It is lent the buffers that commit wrote, with these bytes in them.
    fn reconstruct(&mut self, rt: &impl Print, c: &Call, x: &Inputs) -> io::Result<()> {
        let r = c.reconstruct(x.iv.as_slice(), x.challenge.as_slice(), &mut self.lend());
        print_answer(rt, r)?;
        if r.number == 0 {
            self.print_leaves(rt, c)?;
            print_buffer(rt, "q", &self.v, c.lengths.v)?;
        }
        Ok(())
    }
}

// The three calls; where a byte of the opening is flipped before reconstruct, `flip` is its place. Each is made, also behind one that is refused: it is lent
// what the buffers hold then.
pub fn run_case(
    rt: &(impl Print + AllocGlobal),
    c: &Call,
    x: &Inputs,
    flip: Option<usize>,
) -> io::Result<()> {
    let mut b = Buffers::new(rt.alloc())?;
    b.commit(rt, c, x)?;
    b.open(rt, c, x)?;
    if let Some(at) = flip {
        if let Some(byte) = b.opening.get_mut(at) {
            *byte ^= 1;
        }
    }
    b.reconstruct(rt, c, x)
}
