// Cases of records: what commit and open make is written as a record, and the record, or what is made of it, is checked. Printed is what the command line of
// reference/ prints.
#![tactic(auto)]

ghost use Rattle.std.specs.Prelude.{◌≤◌, length};

mod edits;
mod made;
mod whole;

use edits::SmallRecord;
use spec::Answer;
use std::io;
use test_support::parts::front;
use vectors_calls::{Buffers, Call, Inputs, print_answer};
use whole::Work;

// What is done with the record: it is checked with its bytes and the work buffers printed; every prefix of it is checked, each of its bits flipped, each edit
// and every two of them; it is checked for named sets alone.
#[derive(Clone, Copy, PartialEq, Eq)]
pub enum Form {
    Whole,
    Prefixes,
    Flips,
    Pairs,
    Named,
}

// The version of a record: 1, or that in which the writer writes its shape.
#[derive(Clone, Copy, PartialEq, Eq)]
pub enum CheckedVersion {
    One,
    Written,
}

// Puts the n bytes of a record that the writer wrote into the version that is asked for, and answers how many they are then. The first field of version 1 has
// no level, and what is behind it stands a byte before.
fn to_version(version: CheckedVersion, bytes: &mut [u8], n: usize) -> usize
    requires { 15 ≤ length bytes.old }
{
    match version {
        CheckedVersion::Written => n,
        CheckedVersion::One => {
            bytes[0] = 1;
            bytes[4] = 9;
            bytes.copy_within(15.., 14);
            n.saturating_sub(1)
        }
    }
}

// What is done with the first n bytes, of which r is the answer of what wrote them. Where that is a refusal, and the record is meant as it is, it is printed.
fn run_form(
    rt: &impl Print,
    form: Form,
    r: Answer,
    bytes: &[u8],
    n: usize,
    b: &mut Buffers,
) -> io::Result<()>
    requires { 512 ≤ length bytes.now }
{
    match form {
        Form::Prefixes => SmallRecord::new(bytes, n).prefixes(rt),
        Form::Flips => SmallRecord::new(bytes, n).flips(rt),
        Form::Pairs => SmallRecord::new(bytes, n).pairs(rt),
        Form::Whole | Form::Named if r.number != 0 => print_answer(rt, r),
        Form::Whole => work(b).run(rt, front(bytes, n)),
        Form::Named => work(b).run_named(rt, front(bytes, n)),
    }
}

// The work buffers of a check: what commit wrote stands in them.
fn work(b: &mut Buffers) -> Work<'_> {
    Work {
        tree: &mut b.tree,
        leaf_commitments: &mut b.leaf_commitments,
        q: &mut b.v,
    }
}

// The bytes of a buffer that a record is written to.
const RECORD: usize = 273600;

// A case of a record.
pub fn run_record(
    rt: &(impl Print + AllocGlobal),
    c: &Call,
    x: &Inputs,
    form: Form,
    version: CheckedVersion,
) -> io::Result<()> {
    let alloc = rt.alloc();
    let mut buffers = Buffers::new(alloc)?;
    let mut bytes = vec![in alloc; 0u8; RECORD]?;
    let r = made::make(c, x, &mut buffers, &mut bytes);
    let n = record_writer::record_length(c.shape, c.rows.bits).bytes;
    let m = to_version(version, &mut bytes, n);
    run_form(rt, form, r, &bytes, m, &mut buffers)
}
