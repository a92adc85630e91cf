// The broker's public calls on a signing record: check_record, and the lengths of the work buffers that it asks for. Nothing here depends on the signing half.
#![tactic(auto)]

ghost use Rattle.spec.specs.Primitives.{faest};
ghost use Rattle.record.specs.RecordCalls.{WorkLengths, CheckRecord};

use record::Lengths;
use spec::Answer;

// WORK LENGTHS: the lengths of the work buffers of check_record, or the number with which the record's front is refused.
pub fn work_lengths(record: &[u8]) -> Lengths
    ensures { WorkLengths «record».now result }
{
    match record_reading::front_of(record) {
        Ok(f) => Lengths {
            number: 0,
            tree: lengths::tree_bytes(f.resolved),
            leaf_commitments: lengths::leaf_commitments_bytes(f.resolved),
            q: lengths::matrix_bytes(f.resolved, f.row_bytes),
        },
        Err(refusal) => Lengths {
            number: refusal.number(),
            tree: 0,
            leaf_commitments: 0,
            q: 0,
        },
    }
}

// CHECK RECORD: whether the record is read, reconstruct accepts its fields, and the commitment is the record's. No test comes after a write but the last, 11.
pub fn check_record(
    record: &[u8],
    tree: &mut [u8],
    leaf_commitments: &mut [u8],
    q: &mut [u8],
) -> Answer
    ensures { CheckRecord faest «record».now
        (record { tree = tree.entry.now; leaf_commitments = leaf_commitments.old; q = q.old })
        (record { tree = tree.exit.now; leaf_commitments = leaf_commitments.new; q = q.new })
        result }
{
    let front = record_reading::front_of(record);
    record_check::check_front(record, front, tree, leaf_commitments, q)
}
