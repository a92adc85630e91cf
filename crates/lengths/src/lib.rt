// The lengths in bytes of the buffers of a resolved shape; b is the length of a row.
#![tactic(auto)]

ghost use Rattle.std.specs.Prelude.{◌≡◌, true, ◌≤◌};
ghost use Rattle.spec.specs.Shapes.{shape_ok, tree_bytes, leaf_commitments_bytes, opening_bytes, matrix_bytes, corrections_bytes};

use spec::Shape;

// The tree, 2 L - 1 nodes.
pub fn tree_bytes(s: Shape) -> usize
    requires { shape_ok s ≡ true }
    ensures { (result ≡ tree_bytes s) × (result ≤ 5504992) }
{
    let n = rules::leaf_count(s);
    rules::node_bytes(s) * (2 * n - 1)
}

// The leaf commitments.
pub fn leaf_commitments_bytes(s: Shape) -> usize
    requires { shape_ok s ≡ true }
    ensures { (result ≡ leaf_commitments_bytes s) × (result ≤ 8257536) }
{
    let n = rules::leaf_count(s);
    rules::commitment_bytes(s) * n
}

// An opening: the hidden leaf commitments and T slots.
pub fn opening_bytes(s: Shape) -> usize
    requires { shape_ok s ≡ true }
    ensures { (result ≡ opening_bytes s) × (result ≤ 19456) }
{
    rules::commitment_bytes(s) * s.tau + rules::node_bytes(s) * s.t
}

// V or Q.
pub fn matrix_bytes(s: Shape, b: usize) -> usize
    requires { (shape_ok s ≡ true) × (b ≤ 8192) }
    ensures { (result ≡ matrix_bytes s b) × (result ≤ 2097152) }
{
    b * rules::level_bits(s)
}

// The corrections of all vectors but the first.
pub fn corrections_bytes(s: Shape, b: usize) -> usize
    requires { (shape_ok s ≡ true) × (b ≤ 8192) }
    ensures { (result ≡ corrections_bytes s b) × (result ≤ 253952) }
{
    b * (s.tau - 1)
}
