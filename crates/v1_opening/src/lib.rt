// The bytes of an opening of version 1: the decommitment of each vector, in vector order.
#![tactic(auto)]

ghost use Rattle.std.specs.Prelude.{◌≡◌, true, ◌++◌, ◌+◌, ◌-◌, ◌*◌, ◌^◌, ◌≤◌, ◌<◌, length, take};
ghost use Rattle.spec.specs.Bytes.{part, concat};
ghost use Rattle.spec.specs.Shapes.{challenge_bytes, shape_ok};
ghost use Rattle.spec.specs.Version1.{sibling_at, decommitment, opening1_of, decommitment_from, trees1_bytes, leaf_commitments1_bytes, opening1_bytes};

use spec::Shape;

// The sibling at level l + 1 of the path to leaf j, in a tree of depth d.
fn sibling(d: usize, j: usize, l: usize) -> usize
    requires { (d ≤ 12) × (j < 2 ^ d) × (l < d) }
    ensures { (result ≡ sibling_at d j (l + 1)) × (result < 2 * 2 ^ d - 1) }
{
    (2 << l) - 1 + ((j >> (d - 1 - l)) ^ 1)
}

// Writes a decommitment: of nodes of n bytes the siblings of the path to leaf j, from the root's child down, then the hidden leaf commitment.
fn write_decommitment(n: usize, d: usize, j: usize, tree: &[u8], hidden: &[u8], out: &mut [u8])
    requires { (n ≤ 32) × (d ≤ 12) × (j < 2 ^ d) × (length tree.now ≡ n * (2 * 2 ^ d - 1)) × (length hidden.now ≡ 2 * n) × (length out.old ≡ n * d + 2 * n) }
    ensures { out.new ≡ concat d (λ l. part tree.now (n * sibling_at d j (l + 1)) n) ++ hidden.now }
{
    for l in 0..d {
        let node = sibling(d, j, l);
        buffers::copy_part(tree, n * node, n, out, n * l);
    }
    buffers::copy_part(hidden, 0, 2 * n, out, n * d);
}

// Writes the decommitment of vector i behind those before it.
fn write_vector(s: Shape, ch: &[u8], i: usize, trees: &[u8], lcs: &[u8], opening: &mut [u8])
    requires s_value { (shape_ok s ≡ true) × (s.w ≡ 0) × (length ch.now ≡ challenge_bytes s) × (i < s.tau) }
    requires trees_len { (length trees.now ≡ trees1_bytes s) × (length lcs.now ≡ leaf_commitments1_bytes s) × (length opening.old ≡ opening1_bytes s) }
    ensures { take (decommitment_from s i) opening.old ≡ concat i (decommitment s ch.now trees.now lcs.now)
        → take (decommitment_from s (i + 1)) opening.new ≡ concat (i + 1) (decommitment s ch.now trees.now lcs.now) }
{
    let n = rules::node_bytes(s);
    let d = rules::depth_of(s, i);
    let j = challenge::hidden_index(s, ch, i);
    let from = n * v1_rules::first_node(s, i);
    let to = n * v1_rules::first_node(s, i + 1);
    let lc = 2 * n * rules::entry_of(s, i, j);
    let at = v1_rules::decommitment_from(s, i);
    let end = v1_rules::decommitment_from(s, i + 1);
    let hidden = &lcs[lc..lc + 2 * n];
    write_decommitment(n, d, j, &trees[from..to], hidden, &mut opening[at..end]);
}

// Writes an opening: of each vector the siblings of the path to its hidden leaf, from the root's child down, then the hidden leaf commitment.
pub fn write_opening(s: Shape, ch: &[u8], trees: &[u8], lcs: &[u8], opening: &mut [u8])
    requires s_value { (shape_ok s ≡ true) × (s.w ≡ 0) × (length ch.now ≡ challenge_bytes s) }
    requires trees_len { (length trees.now ≡ trees1_bytes s) × (length lcs.now ≡ leaf_commitments1_bytes s) × (length opening.old ≡ opening1_bytes s) }
    ensures { opening.new ≡ opening1_of s ch.now trees.now lcs.now }
{
    let tau = s.tau;
    for i in 0..tau {
        write_vector(s, ch, i, trees, lcs, opening);
    }
}
