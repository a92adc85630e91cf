// The signing half's public call open.
#![tactic(auto)]

ghost use Rattle.spec.specs.Calls.{Open};

use refusals::OpenLengths;
use spec::{Answer, Shape};

// OPEN: the opening of a challenge, from the tree and the leaf commitments as lent. The nodes are planned once, into a list of the call's own, before
// anything is written.
pub fn open(
    shape: Shape,
    challenge: &[u8],
    tree: &[u8],
    leaf_commitments: &[u8],
    opening: &mut [u8],
) -> Answer
    ensures { Open shape challenge.now tree.now leaf_commitments.now opening.old opening.new result }
{
    let s = rules::resolve(shape);
    let x = OpenLengths {
        challenge: challenge.len(),
        tree: tree.len(),
        leaf_commitments: leaf_commitments.len(),
        opening: opening.len(),
    };
    let mut nodes = [0u32; 512];
    match signer_refusals::test_open(s, x, challenge, &mut nodes) {
        Ok(count) => {
            opening::write_hidden(s, challenge, leaf_commitments, opening);
            opening::write_slots(s, &nodes, count, tree, opening);
            Answer { number: 0, count }
        }
        Err(refusal) => Answer::from(refusal),
    }
}
