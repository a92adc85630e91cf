// The check of a record whose front is read: a reader hands out its fields, reconstruct is made on them, and the commitment is compared. No test comes after a
// write but the last, 11. Nothing here depends on the signing half.
#![tactic(auto)]

ghost use Rattle.std.specs.Prelude.{◌≡◌, true, List, ℕ, length};
ghost use Rattle.spec.specs.Shapes.{resolved, hash_bytes, shape_ok};
ghost use Rattle.spec.specs.Primitives.{faest};
ghost use Rattle.record.specs.Record.{contents_of, read_number};
ghost use Rattle.record.specs.RecordCalls.{CheckRecord};
ghost use Rattle.record_reading.specs.Front.{FrontOf, ReadFront, SizesOf};

use record_reading::{Front, RecordRefusal, Sizes};
use spec::Answer;

// The check of every record that is read as these fields. The reconstructed commitment goes to a buffer that has its length.
fn compared<'a>(
    f: Front,
    iv: &'a [u8],
    challenge: &'a [u8],
    corrections: &'a [u8],
    opening: &'a [u8],
    expected: &'a [u8],
    commitment: &mut [u8],
    tree: &mut [u8],
    leaf_commitments: &mut [u8],
    q: &mut [u8],
) -> Answer
    requires { length commitment.old ≡ hash_bytes (resolved f.shape) }
    ensures { (rec : List ℕ) → read_number rec ≡ 0
        → contents_of rec ≡ record {
          shape = f.shape;
          row = f.row;
          iv = iv.now;
          challenge = challenge.now;
          corrections = corrections.now;
          opening = opening.now;
          commitment = expected.now;
        }
        → CheckRecord faest rec
        (record { tree = tree.entry.now; leaf_commitments = leaf_commitments.old; q = q.old })
        (record { tree = tree.exit.now; leaf_commitments = leaf_commitments.new; q = q.new })
        result }
{
    let s = f.shape;
    let r = verifier::reconstruct(
        s,
        f.row,
        iv,
        challenge,
        corrections,
        opening,
        commitment,
        tree,
        leaf_commitments,
        q,
    );
    if r.number != 0 {
        return r;
    }
    if !record_fields::same_bytes(commitment, expected) {
        return Answer {
            number: 11,
            count: r.count,
        };
    }
    r
}

// The same, with a buffer for the commitment.
fn check_parts<'a>(
    f: Front,
    iv: &'a [u8],
    challenge: &'a [u8],
    corrections: &'a [u8],
    opening: &'a [u8],
    expected: &'a [u8],
    tree: &mut [u8],
    leaf_commitments: &mut [u8],
    q: &mut [u8],
) -> Answer
    requires { (shape_ok f.resolved ≡ true) × (f.resolved ≡ resolved f.shape) }
    ensures { (rec : List ℕ) → read_number rec ≡ 0
        → contents_of rec ≡ record {
          shape = f.shape;
          row = f.row;
          iv = iv.now;
          challenge = challenge.now;
          corrections = corrections.now;
          opening = opening.now;
          commitment = expected.now;
        }
        → CheckRecord faest rec
        (record { tree = tree.entry.now; leaf_commitments = leaf_commitments.old; q = q.old })
        (record { tree = tree.exit.now; leaf_commitments = leaf_commitments.new; q = q.new })
        result }
{
    let s = f.resolved;
    let n = rules::hash_bytes(s);
    let mut commitment = [0u8; 64];
    compared(
        f,
        iv,
        challenge,
        corrections,
        opening,
        expected,
        &mut commitment[..n],
        tree,
        leaf_commitments,
        q,
    )
}

// The check of a record that is read: its fields are handed out by one reader, and passed on.
fn check_fields(
    record: &[u8],
    f: Front,
    z: Sizes,
    tree: &mut [u8],
    leaf_commitments: &mut [u8],
    q: &mut [u8],
) -> Answer
    requires { FrontOf «record».now f × SizesOf «record».now z × (read_number «record».now ≡ 0) }
    ensures { CheckRecord faest «record».now
        (record { tree = tree.entry.now; leaf_commitments = leaf_commitments.old; q = q.old })
        (record { tree = tree.exit.now; leaf_commitments = leaf_commitments.new; q = q.new })
        result }
{
    let p = record_reader::fields_of(
        record,
        z.head,
        16,
        z.challenge,
        z.corrections,
        z.opening,
        z.commitment,
    );
    check_parts(
        f,
        p.iv,
        p.challenge,
        p.corrections,
        p.opening,
        p.commitment,
        tree,
        leaf_commitments,
        q,
    )
}

// The check of a record whose front is read and not refused.
fn check_read(
    record: &[u8],
    f: Front,
    tree: &mut [u8],
    leaf_commitments: &mut [u8],
    q: &mut [u8],
) -> Answer
    requires { FrontOf «record».now f }
    ensures { CheckRecord faest «record».now
        (record { tree = tree.entry.now; leaf_commitments = leaf_commitments.old; q = q.old })
        (record { tree = tree.exit.now; leaf_commitments = leaf_commitments.new; q = q.new })
        result }
{
    let z = record_reading::sizes_of(f);
    if !record_reading::is_read(record, z) {
        return Answer::from(RecordRefusal::NotARecord);
    }
    check_fields(record, f, z, tree, leaf_commitments, q)
}

// The check of a record whose front is read, or refused.
pub fn check_front(
    record: &[u8],
    front: Result<Front, RecordRefusal>,
    tree: &mut [u8],
    leaf_commitments: &mut [u8],
    q: &mut [u8],
) -> Answer
    requires { ReadFront «record».now front }
    ensures { CheckRecord faest «record».now
        (record { tree = tree.entry.now; leaf_commitments = leaf_commitments.old; q = q.old })
        (record { tree = tree.exit.now; leaf_commitments = leaf_commitments.new; q = q.new })
        result }
{
    match front {
        Ok(f) => check_read(record, f, tree, leaf_commitments, q),
        Err(refusal) => Answer::from(refusal),
    }
}
