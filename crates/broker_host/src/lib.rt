// The broker's calls for a C host: check_record, the same for named sets alone, and the lengths of its work buffers. Nothing here depends on the signing half.
#![tactic(auto)]

ghost use Rattle.std.specs.Prelude.{◌≡◌};
ghost use Rattle.spec.specs.Primitives.{faest};
ghost use Rattle.record.specs.RecordCalls.{answered};
ghost use Rattle.record.specs.HostRecordCalls.{HostCheckRecord, HostWorkLengths};
ghost use Rattle.named_sets.specs.NamedCalls.{HostCheckNamed};

use spec::Answer;

// With 11 the count is given as with 0.
fn counting_number(number: usize) -> usize
    ensures { result ≡ answered number }
{
    if number == 11 {
        return 0;
    }
    number
}

// CHECK RECORD. Where the count slice has another length than 4, the tree is not passed on.
#[unsafe(no_mangle)]
pub extern "C" fn rachnoel_check_record(
    record: &[u8],
    tree: &mut [u8],
    leaf_commitments: &mut [u8],
    q: &mut [u8],
    count: &mut [u8],
) -> usize
    ensures { HostCheckRecord faest «record».now
        (record { tree = tree.entry.now; leaf_commitments = leaf_commitments.old; q = q.old })
        (record { tree = tree.exit.now; leaf_commitments = leaf_commitments.new; q = q.new })
        count.old count.new result }
{
    let n = host_words::passed_on(tree.len(), count.len());
    let a = broker::check_record(record, &mut tree[..n], leaf_commitments, q);
    let given = Answer {
        number: counting_number(a.number),
        count: a.count,
    };
    host_words::give(given, count);
    a.number
}

// CHECK NAMED: first the front, with 13 behind its other tests; of a named set it is check_record.
#[unsafe(no_mangle)]
pub extern "C" fn rachnoel_check_named(
    record: &[u8],
    tree: &mut [u8],
    leaf_commitments: &mut [u8],
    q: &mut [u8],
    count: &mut [u8],
) -> usize
    ensures { HostCheckNamed faest «record».now
        (record { tree = tree.entry.now; leaf_commitments = leaf_commitments.old; q = q.old })
        (record { tree = tree.exit.now; leaf_commitments = leaf_commitments.new; q = q.new })
        count.old count.new result }
{
    let number = named_broker::front_number(record);
    if number != 0 {
        return number;
    }
    rachnoel_check_record(record, tree, leaf_commitments, q, count)
}

// WORK LENGTHS: three numbers, of tree, leaf commitments and Q.
#[unsafe(no_mangle)]
pub extern "C" fn rachnoel_work_lengths(record: &[u8], lengths: &mut [u8]) -> usize
    ensures { HostWorkLengths «record».now lengths.old lengths.new result }
{
    let l = broker::work_lengths(record);
    if l.number != 0 {
        return l.number;
    }
    if lengths.len() != 12 {
        return 3;
    }
    let words = [l.tree as u32, l.leaf_commitments as u32, l.q as u32];
    host_words::put_list(0, &words, 3, lengths);
    0
}
