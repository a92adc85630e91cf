// The tests of reconstruct, by its list. Nothing here can write what the call is lent.
#![tactic(auto)]

ghost use Rattle.std.specs.Prelude.{◌≡◌, true, ◌≤◌, length};
ghost use Rattle.spec.specs.Shapes.{shape_ok, planned_count};
ghost use Rattle.spec.specs.Calls.{fits, commit_stretch_number, reconstruct_stretch_number};
ghost use Rattle.refusals.specs.Numbers.{Answered};
ghost use Rattle.refusals.specs.Refusal.{number_in, answer_in};
ghost use Rattle.refusals.specs.Sizes.{reconstruct_sizes};

use refusals::{ReconstructLengths, Refusal};
use spec::{Shape, Stretch};

// Whether the buffers of reconstruct have their lengths, for a stretch of b bytes.
fn reconstruct_fits(s: Shape, b: usize, x: ReconstructLengths) -> bool
    requires { (shape_ok s ≡ true) × (b ≤ 8192) }
    ensures { result ≡ fits (reconstruct_sizes s b x) }
{
    x == ReconstructLengths {
        iv: 16,
        challenge: rules::node_bytes(s),
        corrections: lengths::corrections_bytes(s, b),
        opening: lengths::opening_bytes(s),
        commitment: rules::hash_bytes(s),
        tree: lengths::tree_bytes(s),
        leaf_commitments: lengths::leaf_commitments_bytes(s),
        q: lengths::matrix_bytes(s, b),
    }
}

// The tests that reconstruct_stretch begins with, which are those of commit_stretch: of the shape, the row length, the stretch, the lengths.
fn test_sizes(s: Shape, row_bits: usize, z: Stretch, x: ReconstructLengths) -> Result<(), Refusal>
    ensures { number_in result ≡ commit_stretch_number s row_bits z (reconstruct_sizes s z.width x) }
{
    refusals::test_front(s, row_bits, z)?;
    refusals::test(reconstruct_fits(s, z.width, x), Refusal::BufferLength)
}

// The tests of reconstruct_stretch, and the count of revealed nodes: behind those above, of the challenge and of the opening.
pub fn test_reconstruct(
    s: Shape,
    row_bits: usize,
    z: Stretch,
    x: ReconstructLengths,
    ch: &[u8],
    opening: &[u8],
) -> Result<usize, Refusal>
    requires { (x.challenge ≡ length ch.now) × (x.opening ≡ length opening.now) }
    ensures { Answered (reconstruct_stretch_number s row_bits z ch.now opening.now (reconstruct_sizes s z.width x)) (planned_count s ch.now) (answer_in result) }
{
    test_sizes(s, row_bits, z, x)?;
    slots::test_opening(s, ch, opening)
}
