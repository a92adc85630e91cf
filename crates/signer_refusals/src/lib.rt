// The tests of commit and of open, each by its list. Nothing here can write what a call is lent.
#![tactic(auto)]

ghost use Rattle.std.specs.Prelude.{◌≡◌, true, ◌≤◌, length};
ghost use Rattle.spec.specs.Shapes.{shape_ok, planned_count};
ghost use Rattle.spec.specs.Calls.{fits, plan_number, commit_stretch_number};
ghost use Rattle.refusals.specs.Numbers.{size_number, Answered};
ghost use Rattle.refusals.specs.Refusal.{number_in, answer_in};
ghost use Rattle.plan_refusals.specs.Nodes.{Listed};
ghost use Rattle.refusals.specs.Sizes.{commit_sizes, open_sizes};

use refusals::{CommitLengths, OpenLengths, Refusal};
use spec::{Shape, Stretch};

// Whether the buffers of commit have their lengths, for a stretch of b bytes.
fn commit_fits(s: Shape, b: usize, x: CommitLengths) -> bool
    requires { (shape_ok s ≡ true) × (b ≤ 8192) }
    ensures { result ≡ fits (commit_sizes s b x) }
{
    x == CommitLengths {
        root: rules::node_bytes(s),
        iv: 16,
        commitment: rules::hash_bytes(s),
        tree: lengths::tree_bytes(s),
        leaf_commitments: lengths::leaf_commitments_bytes(s),
        u: b,
        v: lengths::matrix_bytes(s, b),
        corrections: lengths::corrections_bytes(s, b),
    }
}

// The tests of commit_stretch: of the shape, the row length, the stretch, the lengths.
pub fn test_commit(s: Shape, row_bits: usize, z: Stretch, x: CommitLengths) -> Result<(), Refusal>
    ensures { number_in result ≡ commit_stretch_number s row_bits z (commit_sizes s z.width x) }
{
    refusals::test_front(s, row_bits, z)?;
    refusals::test(commit_fits(s, z.width, x), Refusal::BufferLength)
}

// Whether the buffers of open have their lengths.
fn open_fits(s: Shape, x: OpenLengths) -> bool
    requires { shape_ok s ≡ true }
    ensures { result ≡ fits (open_sizes s x) }
{
    x == OpenLengths {
        challenge: rules::node_bytes(s),
        tree: lengths::tree_bytes(s),
        leaf_commitments: lengths::leaf_commitments_bytes(s),
        opening: lengths::opening_bytes(s),
    }
}

// The tests that open begins with: of the shape, the lengths.
fn test_sizes(s: Shape, x: OpenLengths) -> Result<(), Refusal>
    ensures { number_in result ≡ size_number s (open_sizes s x) }
{
    refusals::test(rules::is_shape(s), Refusal::NotAShape)?;
    refusals::test(open_fits(s, x), Refusal::BufferLength)
}

// The tests of open, and the count of revealed nodes: of the shape, the lengths, the challenge.
pub fn test_open(s: Shape, x: OpenLengths, ch: &[u8], nodes: &mut [u32]) -> Result<usize, Refusal>
    requires { x.challenge ≡ length ch.now }
    ensures { Answered (plan_number s ch.now (open_sizes s x)) (planned_count s ch.now) (answer_in result) × Listed s ch.now nodes.old nodes.new (answer_in result) }
{
    test_sizes(s, x)?;
    plan_refusals::test_challenge(s, ch, nodes)
}
