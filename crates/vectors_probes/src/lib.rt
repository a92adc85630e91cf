// A call on buffers of which one may be a byte (a list: a number) shorter or longer than the exact length, with 0xa5 in each byte of the outputs and zeros in
// the inputs. Printed are the answer, and whether every byte of the outputs still is 0xa5. A shape that is not refused must have small trees: of version 2
// those of two vectors of depth 2, of version 1 those of 32 vectors of depth 4 at level 128.
#![tactic(auto)]

use spec::Shape;
use std::io;
use test_support::lengths::{Lengths, challenge};
use test_support::parts::front;
use vectors_calls::{Call, Lent, ListCall, print_answer};

// The bytes of each buffer of a probe.
const ROOM: usize = 16400;

// The place of the buffer that has another length, among those of the call, and whether it is longer; the first byte of the challenge, and the place of a byte
// of the opening that is 1. No buffer has another length where the call has none at that place.
#[derive(Clone, Copy)]
pub struct Probe {
    pub which: usize,
    pub longer: bool,
    pub byte: u8,
    pub set: usize,
}

// What the calls of a probe are lent.
#[derive(Drop)]
struct Room {
    commitment: [u8; ROOM],
    tree: [u8; ROOM],
    leaf_commitments: [u8; ROOM],
    u: [u8; ROOM],
    v: [u8; ROOM],
    corrections: [u8; ROOM],
    opening: [u8; ROOM],
}

impl Room {
    // Each buffer as an output.
    fn of_outputs() -> Room {
        let output = [0xa5; ROOM];
        Room {
            commitment: output,
            tree: output,
            leaf_commitments: output,
            u: output,
            v: output,
            corrections: output,
            opening: output,
        }
    }

    fn lend(&mut self) -> Lent<'_> {
        let Room {
            commitment,
            tree,
            leaf_commitments,
            u,
            v,
            corrections,
            opening,
        } = self;
        Lent {
            commitment,
            tree,
            leaf_commitments,
            u,
            v,
            corrections,
            opening,
        }
    }
}

// Whether each byte is 0xa5.
pub fn is_kept(a: &[u8]) -> bool {
    a.iter().all(|byte| *byte == 0xa5)
}

// Whether the outputs of a call are as they were.
fn print_kept(rt: &impl Print, yes: bool) -> io::Result<()> {
    println!(rt; "outputs {}", if yes { "kept" } else { "written" })
}

impl Probe {
    // The length of the buffer at a place among the buffers of the call: the exact one, or at the place of the probe one less, or more.
    fn length(self, exact: usize, place: usize) -> usize {
        if place != self.which {
            exact
        } else if self.longer {
            exact.min(ROOM - 1) + 1
        } else {
            exact.saturating_sub(1)
        }
    }

    // A challenge of zeros behind the first byte.
    fn challenge(self) -> [u8; 64] {
        let mut bytes = [0; 64];
        bytes[0] = self.byte;
        bytes
    }

    // Commit, on a call of the exact lengths.
    pub fn commit(self, rt: &impl Print, mut c: Call) -> io::Result<()> {
        let exact = c.lengths;
        c.lengths = Lengths {
            commitment: self.length(exact.commitment, 2),
            tree: self.length(exact.tree, 3),
            leaf_commitments: self.length(exact.leaf_commitments, 4),
            u: self.length(exact.u, 5),
            v: self.length(exact.v, 6),
            corrections: self.length(exact.corrections, 7),
            ..exact
        };
        let zeros = [0u8; 64];
        let root = front(&zeros, self.length(challenge(c.shape), 0));
        let iv = front(&zeros, self.length(16, 1));
        let mut room = Room::of_outputs();
        print_answer(rt, c.commit(root, iv, &mut room.lend()))?;
        let tree_kept = is_kept(&room.commitment)
            && is_kept(&room.tree)
            && is_kept(&room.leaf_commitments);
        print_kept(
            rt,
            tree_kept && is_kept(&room.u) && is_kept(&room.v) && is_kept(&room.corrections),
        )
    }

    // Open.
    pub fn open(self, rt: &impl Print, mut c: Call) -> io::Result<()> {
        let exact = c.lengths;
        c.lengths = Lengths {
            tree: self.length(exact.tree, 1),
            leaf_commitments: self.length(exact.leaf_commitments, 2),
            opening: self.length(exact.opening, 3),
            ..exact
        };
        let chosen = self.challenge();
        let lent = front(&chosen, self.length(challenge(c.shape), 0));
        let mut room = Room::of_outputs();
        room.tree.fill(0);
        room.leaf_commitments.fill(0);
        print_answer(rt, c.open(lent, &mut room.lend()))?;
        print_kept(rt, is_kept(&room.opening))
    }

    // Reconstruct.
    pub fn reconstruct(self, rt: &impl Print, mut c: Call) -> io::Result<()> {
        let exact = c.lengths;
        c.lengths = Lengths {
            corrections: self.length(exact.corrections, 2),
            opening: self.length(exact.opening, 3),
            commitment: self.length(exact.commitment, 4),
            tree: self.length(exact.tree, 5),
            leaf_commitments: self.length(exact.leaf_commitments, 6),
            v: self.length(exact.v, 7),
            ..exact
        };
        let zeros = [0u8; 64];
        let iv = front(&zeros, self.length(16, 0));
        let chosen = self.challenge();
        let lent = front(&chosen, self.length(challenge(c.shape), 1));
        let mut room = Room::of_outputs();
        room.corrections.fill(0);
        room.opening.fill(0);
        room.opening[self.set.min(ROOM - 1)] = 1;
        print_answer(rt, c.reconstruct(iv, lent, &mut room.lend()))?;
        let tree_kept = is_kept(&room.commitment) && is_kept(&room.tree);
        print_kept(
            rt,
            tree_kept && is_kept(&room.leaf_commitments) && is_kept(&room.v),
        )
    }

    // Decode or plan.
    pub fn list(self, rt: &impl Print, call: ListCall, s: Shape) -> io::Result<()> {
        let chosen = self.challenge();
        let lent = front(&chosen, self.length(challenge(s), 0));
        let mut list = [0xa5a5a5a5u32; 512];
        let n = self.length(call.exact(s), 1);
        print_answer(rt, call.make(s, lent, &mut list, n))?;
        print_kept(rt, list.iter().all(|number| *number == 0xa5a5a5a5))
    }
}
