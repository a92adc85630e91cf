// The tests of decode and plan, and those of a challenge that plan, open and reconstruct share, each by its list. Nothing here can write what a call is lent.
#![tactic(auto)]

ghost use Rattle.std.specs.Prelude.{◌≡◌, true, [], ◌∷◌, length};
ghost use Rattle.spec.specs.Shapes.{challenge_bytes, shape_ok, planned_count};
ghost use Rattle.spec.specs.Calls.{fits, decode_number, plan_number};
ghost use Rattle.refusals.specs.Numbers.{size_number, challenge_number, Answered};
ghost use Rattle.refusals.specs.Refusal.{number_in, answer_in};
ghost use Rattle.plan_refusals.specs.Nodes.{Listed};

use refusals::Refusal;
use spec::Shape;

// Whether a challenge has its length, and a list n places.
fn list_fits(s: Shape, challenge: usize, list: usize, n: usize) -> bool
    requires { shape_ok s ≡ true }
    ensures { result ≡ fits ((challenge, challenge_bytes s) ∷ (list, n) ∷ []) }
{
    (challenge, list) == (rules::node_bytes(s), n)
}

// The tests that decode and plan begin with, in their order: of the shape, of the lengths.
fn test_list(s: Shape, challenge: usize, list: usize, n: usize) -> Result<(), Refusal>
    ensures { number_in result ≡ size_number s ((challenge, challenge_bytes s) ∷ (list, n) ∷ []) }
{
    refusals::test(rules::is_shape(s), Refusal::NotAShape)?;
    refusals::test(list_fits(s, challenge, list, n), Refusal::BufferLength)
}

// The tests of decode, whose list has `list` places: of the shape, the lengths, the grinding bits.
pub fn test_decode(s: Shape, ch: &[u8], list: usize) -> Result<(), Refusal>
    ensures { number_in result ≡ decode_number s ch.now ((length ch.now, challenge_bytes s) ∷ (list, s.tau) ∷ []) }
{
    test_list(s, ch.len(), list, s.tau)?;
    refusals::test(challenge::grinding_ok(s, ch), Refusal::GrindingBit)
}

// The tests of a challenge that has its length: of the grinding bits, and of the count of revealed nodes, which it gives. The nodes are listed on the way, as far as
// there is room for them.
pub fn test_challenge(s: Shape, ch: &[u8], nodes: &mut [u32]) -> Result<usize, Refusal>
    requires { (shape_ok s ≡ true) × (length ch.now ≡ challenge_bytes s) }
    ensures { Answered (challenge_number s ch.now) (planned_count s ch.now) (answer_in result) × Listed s ch.now nodes.old nodes.new (answer_in result) }
{
    refusals::test(challenge::grinding_ok(s, ch), Refusal::GrindingBit)?;
    let n = planning::revealed_nodes(s, ch, nodes);
    refusals::test(n <= s.t, Refusal::TooManyNodes(n))?;
    Ok(n)
}

// The tests of plan, whose list has `list` places, and the count of revealed nodes.
pub fn test_plan(s: Shape, ch: &[u8], list: usize, nodes: &mut [u32]) -> Result<usize, Refusal>
    ensures { Answered (plan_number s ch.now ((length ch.now, challenge_bytes s) ∷ (list, s.t) ∷ [])) (planned_count s ch.now) (answer_in result)
        × Listed s ch.now nodes.old nodes.new (answer_in result) }
{
    test_list(s, ch.len(), list, s.t)?;
    test_challenge(s, ch, nodes)
}
