// The shape rules of version 1's calls (document 02, E12), and the numbers that a shape gives there.
#![tactic(auto)]

ghost use Rattle.std.specs.Prelude.{◌≡◌, true, [], ◌∷◌, ◌+◌, ◌*◌, ◌<◌, ◌≤◌};
ghost use Rattle.spec.specs.Shapes.{shape_ok, entries_of, leaves};
ghost use Rattle.spec.specs.Calls.{first_refusal, row_ok};
ghost use Rattle.spec.specs.Version1.{shape1_ok, first_node, leaf_in, decommitment_from, trees1_bytes, leaf_commitments1_bytes, opening1_bytes};
ghost use Rattle.refusals.specs.Refusal.{number_in};
ghost use Rattle.v1_rules.specs.Inner.{job_of};

use job::{Job, Version};
use refusals::Refusal;
use spec::{Shape, Stretch};

// Whether it is a shape of version 1: one of version 2 without grinding bits and with T 1, whose leaves are ordinary.
pub fn is_shape(s: Shape) -> bool
    ensures { result ≡ shape1_ok s }
{
    rules::is_shape(s) & (s.w == 0) & (s.t == 1) & rules::is_ordinary(s)
}

// The tests that commit and reconstruct begin with: of the shape, the row length.
pub fn test_front(s: Shape, row_bits: usize) -> Result<(), Refusal>
    ensures { number_in result ≡ first_refusal ((shape1_ok s, 1) ∷ (row_ok row_bits, 2) ∷ []) }
{
    refusals::test(is_shape(s), Refusal::NotAShape)?;
    refusals::test(rules::is_row_length(row_bits), Refusal::NotARowLength)
}

// The job of rows of b bytes. Inside, the shape has the leaf kind whose leaf commitments have two nodes' length and no hash keys.
pub fn job_of(s: Shape, b: usize, iv: [u8; 16]) -> Job
    ensures { result ≡ job_of s b iv }
{
    let inner = Shape {
        tau: s.tau,
        k: s.k,
        w: s.w,
        t: s.t,
        level: s.level,
        kind: 1,
    };
    let whole = Stretch { first: 0, width: b };
    Job {
        shape: inner,
        stretch: whole,
        iv,
        version: Version::One,
    }
}

// How many nodes the trees before that of vector i have.
pub fn first_node(s: Shape, i: usize) -> usize
    requires { (shape_ok s ≡ true) × (i ≤ s.tau) }
    ensures { (result ≡ first_node s i) × (result ≤ 172032) }
{
    2 * rules::first_entry(s, i) - i
}

// The node of entry j of vector i among the trees of all vectors.
pub fn leaf_node(s: Shape, i: usize, j: usize) -> usize
    requires { (shape_ok s ≡ true) × (i < s.tau) × (j < entries_of s i) }
    ensures { (result ≡ first_node s i + leaf_in s i j) × (result + s.tau < 2 * leaves s) × (result < 172032) }
{
    first_node(s, i) + (rules::entry_count(s, i) - 1 + j)
}

// Where the decommitment of vector i begins in an opening.
pub fn decommitment_from(s: Shape, i: usize) -> usize
    requires { (shape_ok s ≡ true) × (i ≤ s.tau) }
    ensures { (result ≡ decommitment_from s i) × (result ≤ 10240) }
{
    rules::node_bytes(s) * (rules::first_bit(s, i) + 2 * i)
}

// The bytes of all trees.
pub fn trees_bytes(s: Shape) -> usize
    requires { shape_ok s ≡ true }
    ensures { (result ≡ trees1_bytes s) × (result ≤ 5505024) }
{
    rules::node_bytes(s) * (2 * rules::leaf_count(s) - s.tau)
}

// The bytes of all leaf commitments.
pub fn leaf_commitments_bytes(s: Shape) -> usize
    requires { shape_ok s ≡ true }
    ensures { (result ≡ leaf_commitments1_bytes s) × (result ≤ 5505024) }
{
    2 * rules::node_bytes(s) * rules::leaf_count(s)
}

// The bytes of an opening.
pub fn opening_bytes(s: Shape) -> usize
    requires { shape_ok s ≡ true }
    ensures { (result ≡ opening1_bytes s) × (result ≤ 10240) }
{
    rules::node_bytes(s) * (rules::level_bits(s) + 2 * s.tau)
}
