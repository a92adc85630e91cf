// The tests of an opening that has its length, for the checking half and for the report of openings.
#![tactic(auto)]

ghost use Rattle.std.specs.Prelude.{◌≡◌, true, ◌+◌, ◌*◌, ◌≤◌, length, drop};
ghost use Rattle.spec.specs.Bytes.{all_zero};
ghost use Rattle.spec.specs.Shapes.{node_bytes, challenge_bytes, leaf_commitment_bytes, shape_ok, planned_count, opening_bytes};
ghost use Rattle.refusals.specs.Numbers.{opening_number, Answered};
ghost use Rattle.refusals.specs.Refusal.{answer_in};

use refusals::Refusal;
use spec::Shape;

// Whether the slots of an opening behind the first n are zeros.
pub fn slots_clear(s: Shape, n: usize, opening: &[u8]) -> bool
    requires { (shape_ok s ≡ true) × (n ≤ s.t) × (length opening.now ≡ opening_bytes s) }
    ensures { result ≡ all_zero (drop (leaf_commitment_bytes s * s.tau + node_bytes s * n) opening.now) }
{
    let first = rules::commitment_bytes(s) * s.tau;
    buffers::is_clear_from(opening, first + rules::node_bytes(s) * n)
}

// The tests of an opening and its challenge, and the count of revealed nodes: of the challenge, then of the unused slots. The nodes are counted, and not listed.
pub fn test_opening(s: Shape, ch: &[u8], opening: &[u8]) -> Result<usize, Refusal>
    requires { (shape_ok s ≡ true) × (length ch.now ≡ challenge_bytes s) × (length opening.now ≡ opening_bytes s) }
    ensures { Answered (opening_number s ch.now opening.now) (planned_count s ch.now) (answer_in result) }
{
    let n = plan_refusals::test_challenge(s, ch, &mut [])?;
    refusals::test(slots_clear(s, n, opening), Refusal::UnusedSlot(n))?;
    Ok(n)
}
