// The check of a whole record, and the check for named sets alone.
use record::Lengths;
use spec::Answer;
use std::io;
use test_support::parts::front_mut;
use vectors_calls::{print_answer, print_buffer};

// The work buffers of a check, of which the front of each is lent.
#[derive(Drop)]
pub struct Work<'a> {
    pub tree: &'a mut [u8],
    pub leaf_commitments: &'a mut [u8],
    pub q: &'a mut [u8],
}

impl Work<'_> {
    // Checks a record.
    pub fn check(&mut self, bytes: &[u8], l: Lengths) -> Answer {
        broker::check_record(
            bytes,
            front_mut(self.tree, l.tree),
            front_mut(self.leaf_commitments, l.leaf_commitments),
            front_mut(self.q, l.q),
        )
    }

    // Checks a record for named sets alone.
    fn check_named(&mut self, bytes: &[u8], l: Lengths) -> Answer {
        named_broker::check_named(
            bytes,
            front_mut(self.tree, l.tree),
            front_mut(self.leaf_commitments, l.leaf_commitments),
            front_mut(self.q, l.q),
        )
    }

    // Checks a record, and prints it with the work buffers where it is accepted.
    pub fn run(&mut self, rt: &impl Print, bytes: &[u8]) -> io::Result<()> {
        let l = broker::work_lengths(bytes);
        let r = self.check(bytes, l);
        print_answer(rt, r)?;
        if r.number == 0 {
            print_buffer(rt, "record", bytes, bytes.len())?;
            print_buffer(rt, "tree", self.tree, l.tree)?;
            print_buffer(
                rt,
                "leaf_commitments",
                self.leaf_commitments,
                l.leaf_commitments,
            )?;
            print_buffer(rt, "q", self.q, l.q)?;
        }
        Ok(())
    }

    // Checks a record for named sets alone, and prints the answer.
    pub fn run_named(&mut self, rt: &impl Print, bytes: &[u8]) -> io::Result<()> {
        let l = broker::work_lengths(bytes);
        print_answer(rt, self.check_named(bytes, l))
    }
}
