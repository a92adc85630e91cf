// The broker's check of a record for named sets alone, document 02, E13: a layer over check_record. Nothing here depends on the signing half.
#![tactic(auto)]

ghost use Rattle.std.specs.Prelude.{◌≡◌, IfOk};
ghost use Rattle.spec.specs.Primitives.{faest};
ghost use Rattle.record_reading.specs.Front.{number_in, FrontOf};
ghost use Rattle.named_sets.specs.NamedCalls.{front_number, CheckNamed};

use record_reading::{Front, RecordRefusal};
use spec::Answer;

// The front of a record of a named set, or why it is refused: 9, 10, 1 or 2, then 13 where it is no named set's.
fn named_front(record: &[u8]) -> Result<Front, RecordRefusal>
    ensures number { number_in result ≡ front_number «record».now }
    ensures said { IfOk result (λ f. FrontOf «record».now f) }
{
    let f = record_reading::front_of(record)?;
    if !named_sets::is_named(f.shape, f.row) {
        return Err(RecordRefusal::NotANamedSet);
    }
    Ok(f)
}

// The number of the front: 9, 10, 1, 2, 13, or 0.
pub fn front_number(record: &[u8]) -> usize
    ensures { result ≡ front_number «record».now }
{
    match named_front(record) {
        Ok(_) => 0,
        Err(refusal) => refusal.number(),
    }
}

// CHECK NAMED: check_record for named sets alone. Nothing is written before 13 is tested.
pub fn check_named(
    record: &[u8],
    tree: &mut [u8],
    leaf_commitments: &mut [u8],
    q: &mut [u8],
) -> Answer
    ensures { CheckNamed faest «record».now
        (record { tree = tree.entry.now; leaf_commitments = leaf_commitments.old; q = q.old })
        (record { tree = tree.exit.now; leaf_commitments = leaf_commitments.new; q = q.new })
        result }
{
    match named_front(record) {
        Ok(f) => record_check::check_front(record, Ok(f), tree, leaf_commitments, q),
        Err(refusal) => Answer::from(refusal),
    }
}
