// A small record that is changed and checked.
ghost use Rattle.std.specs.Prelude.{◌≤◌, ◌<◌, length, IfSome};

use crate::whole::Work;
use record::Lengths;
use std::{fmt, io};
use test_support::parts::front;
use vectors_probes::is_kept;

// What a check answered, and whether each byte of the work buffers is as it was. It is printed in a few characters: number, slash, count, and a plus where a
// byte was written, otherwise a minus.
#[derive(Drop)]
struct Verdict {
    number: usize,
    count: usize,
    kept: bool,
}

impl Verdict {
    // Checks a record, lent work buffers of these lengths with 0xa5 in each byte.
    fn of(bytes: &[u8], l: Lengths) -> Verdict {
        let mut tree = [0xa5u8; 512];
        let mut leaf_commitments = [0xa5u8; 512];
        let mut q = [0xa5u8; 512];
        let mut work = Work {
            tree: &mut tree,
            leaf_commitments: &mut leaf_commitments,
            q: &mut q,
        };
        let r = work.check(bytes, l);
        Verdict {
            number: r.number,
            count: r.count,
            kept: is_kept(&tree) && is_kept(&leaf_commitments) && is_kept(&q),
        }
    }
}

impl fmt::Display for Verdict {
    fn fmt<W: fmt::Write>(&self, f: &mut fmt::Formatter<W>) -> fmt::Result {
        let sign = if self.kept { '-' } else { '+' };
        write!(f, "{}/{}{sign}", self.number, self.count)
    }
}

// A change of a record or of the work buffers, by its number.
#[derive(Clone, Copy, PartialEq, Eq)]
enum Edit {
    Version,
    FirstLength,
    Tau,
    RowLength,
    IvLength,
    ByteLeftOver,
    TreeShorter,
    LeafCommitmentsLonger,
    QShorter,
    Challenge,
    Opening,
    Commitment,
}

const EDITS: [Edit; 12] = [
    Edit::Version,
    Edit::FirstLength,
    Edit::Tau,
    Edit::RowLength,
    Edit::IvLength,
    Edit::ByteLeftOver,
    Edit::TreeShorter,
    Edit::LeafCommitmentsLonger,
    Edit::QShorter,
    Edit::Challenge,
    Edit::Opening,
    Edit::Commitment,
];

impl Edit {
    // The place of the byte that is changed in a record of n bytes, whose first field has `head` bytes, and what it is xored with.
    fn byte(self, head: usize, n: usize) -> Option<(usize, u8)>
        requires head_small { head < 256 }
        requires small { n < 512 }
        ensures { IfSome result (λ change. change.0 < 512) }
    {
        match self {
            Edit::Version => Some((0, 4)),
            Edit::FirstLength => Some((4, 1)),
            Edit::Tau => Some((5, 0x20)),
            Edit::RowLength => Some((13, 4)),
            Edit::IvLength => Some((head + 8, 1)),
            // The last byte of the challenge, of the opening, and the first of the commitment.
            Edit::Challenge => Some((head + 44, 0x80)),
            Edit::Opening => Some((n.saturating_sub(37), 1)),
            Edit::Commitment => Some((n.saturating_sub(32), 1)),
            Edit::ByteLeftOver | Edit::TreeShorter | Edit::LeafCommitmentsLonger | Edit::QShorter =>
                None,
        }
    }
}

// A record of at most 511 bytes at the front of a buffer.
#[derive(Drop)]
pub struct SmallRecord {
    bytes: [u8; 512],
    length: usize,
    ghost small: { length < 512 },
}

impl SmallRecord {
    // The first bytes of a buffer.
    pub fn new(bytes: &[u8], n: usize) -> SmallRecord
        requires { 512 ≤ length bytes.now }
    {
        let mut front = [0u8; 512];
        front.copy_from_slice(&bytes[..512]);
        SmallRecord {
            bytes: front,
            length: n.min(511),
        }
    }

    fn as_slice(&self) -> &[u8] {
        &self.bytes[..self.length]
    }

    // Every prefix.
    pub fn prefixes(&self, rt: &impl Print) -> io::Result<()> {
        let l = broker::work_lengths(self.as_slice());
        for i in 0..self.length {
            println!(rt; "prefix {i} {}", Verdict::of(&self.bytes[..i], l))?;
        }
        Ok(())
    }

    // Each bit flipped.
    pub fn flips(&mut self, rt: &impl Print) -> io::Result<()> {
        let l = broker::work_lengths(self.as_slice());
        for i in 0..self.length {
            print!(rt; "byte {i}")?;
            for bit in [1u8, 2, 4, 8, 16, 32, 64, 128] {
                self.bytes[i] ^= bit;
                print!(rt; " {}", Verdict::of(self.as_slice(), l))?;
                self.bytes[i] ^= bit;
            }
            println!(rt;)?;
        }
        Ok(())
    }

    // Makes an edit of a byte, or takes it back.
    fn make(&mut self, edit: Edit, head: usize)
        requires { head < 256 }
    {
        if let Some((at, change)) = edit.byte(head, self.length) {
            self.bytes[at] ^= change;
        }
    }

    // The verdict on the record with two edits, or one where both are the same.
    fn edited(&mut self, first: Edit, second: Edit, l: Lengths) -> Verdict {
        let head = usize::from(self.bytes[4]);
        let has = |edit: Edit| first == edit || second == edit;
        let shorter = |n: usize, edit: Edit| if has(edit) {
            n.min(511).saturating_sub(1)
        } else {
            n
        };
        let longer = |n: usize, edit: Edit| if has(edit) { n.min(511) + 1 } else { n };
        self.make(first, head);
        if first != second {
            self.make(second, head);
        }
        let changed = Lengths {
            number: 0,
            tree: shorter(l.tree, Edit::TreeShorter),
            leaf_commitments: longer(l.leaf_commitments, Edit::LeafCommitmentsLonger),
            q: shorter(l.q, Edit::QShorter),
        };
        let n = longer(self.length, Edit::ByteLeftOver);
        let found = Verdict::of(front(&self.bytes, n), changed);
        if first != second {
            self.make(second, head);
        }
        self.make(first, head);
        found
    }

    // Each edit, and every two of them: an edit with each from it on.
    pub fn pairs(&mut self, rt: &impl Print) -> io::Result<()> {
        let l = broker::work_lengths(self.as_slice());
        for (i, first) in EDITS.iter().enumerate() {
            print!(rt; "edit {i}")?;
            for second in EDITS.iter().skip(i) {
                print!(rt; " {}", self.edited(*first, *second, l))?;
            }
            println!(rt;)?;
        }
        Ok(())
    }
}
