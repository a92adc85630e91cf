// The public calls decode and plan.
#![tactic(auto)]

ghost use Rattle.spec.specs.Calls.{Decode, Plan};

use spec::{Answer, Shape};

// DECODE: the hidden indices of a challenge.
pub fn decode(shape: Shape, challenge: &[u8], indices: &mut [u32]) -> Answer
    ensures { Decode shape challenge.now indices.old indices.new result }
{
    let s = rules::resolve(shape);
    match plan_refusals::test_decode(s, challenge, indices.len()) {
        Ok(()) => {
            challenge::write_indices(s, challenge, indices);
            Answer {
                number: 0,
                count: 0,
            }
        }
        Err(refusal) => Answer::from(refusal),
    }
}

// PLAN: the revealed nodes of a challenge, at the front of the list. They are planned once, into a list of the call's own, before anything is written.
pub fn plan(shape: Shape, challenge: &[u8], nodes: &mut [u32]) -> Answer
    ensures { Plan shape challenge.now nodes.old nodes.new result }
{
    let s = rules::resolve(shape);
    let mut list = [0u32; 512];
    match plan_refusals::test_plan(s, challenge, nodes.len(), &mut list) {
        Ok(count) => {
            nodes[..count].copy_from_slice(&list[..count]);
            Answer { number: 0, count }
        }
        Err(refusal) => Answer::from(refusal),
    }
}
