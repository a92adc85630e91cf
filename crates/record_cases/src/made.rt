// The record of a case: commit and open, and what they wrote written as a record.
use spec::Answer;
use test_support::parts::{front, front_mut};
use vectors_calls::{Buffers, Call, Inputs};

fn write_made(c: &Call, x: &Inputs, b: &Buffers, out: &mut [u8]) -> Answer {
    let n = record_writer::record_length(c.shape, c.rows.bits);
    let l = c.lengths;
    record_writer::write_record(
        c.shape,
        c.rows.bits,
        x.iv.as_slice(),
        x.challenge.as_slice(),
        front(&b.corrections, l.corrections),
        front(&b.opening, l.opening),
        front(&b.commitment, l.commitment),
        front_mut(out, n.bytes),
    )
}

// Writes the record to the front of `out`, and leaves what commit wrote in the buffers. The answer is that of the first call that is refused, or of the last.
// Where commit is refused, nothing is written; where open is refused, the record is written with zeros for an opening.
pub fn make(c: &Call, x: &Inputs, b: &mut Buffers, out: &mut [u8]) -> Answer {
    let made = c.commit(x.root.as_slice(), x.iv.as_slice(), &mut b.lend());
    if made.number != 0 {
        return made;
    }
    b.opening.fill(0);
    let opened = c.open(x.challenge.as_slice(), &mut b.lend());
    let wrote = write_made(c, x, b, out);
    if opened.number != 0 { opened } else { wrote }
}
