// The bytes of an opening: the hidden leaf commitments, and behind them the slots, which hold the revealed nodes and then zeros.
#![tactic(auto)]

ghost use Rattle.std.specs.Prelude.{◌≡◌, true, ◌++◌, ℕ, ◌+◌, ◌-◌, ◌*◌, ◌≤◌, ◌<◌, length, get_or, take};
ghost use Rattle.spec.specs.Bytes.{part, concat, zeros};
ghost use Rattle.spec.specs.Shapes.{node_bytes, challenge_bytes, leaf_commitment_bytes, shape_ok, leaves, hidden_index, tree_bytes, leaf_commitments_bytes, opening_bytes};
ghost use Rattle.spec.specs.Leaves.{node_at};
ghost use Rattle.spec.specs.Signer.{leaf_commitment_at};

use spec::Shape;

// The hidden leaf commitment of each vector, at the front.
pub fn write_hidden(s: Shape, ch: &[u8], lcs: &[u8], out: &mut [u8])
    requires { (shape_ok s ≡ true) × (length ch.now ≡ challenge_bytes s) × (length lcs.now ≡ leaf_commitments_bytes s) × (leaf_commitment_bytes s * s.tau ≤ length out.old) }
    ensures { take (leaf_commitment_bytes s * s.tau) out.new ≡ concat s.tau (λ i. leaf_commitment_at s lcs.now i (hidden_index s ch.now i)) }
{
    let w = rules::commitment_bytes(s);
    for i in 0..s.tau {
        let j = challenge::hidden_index(s, ch, i);
        buffers::copy_part(lcs, w * rules::entry_of(s, i, j), w, out, w * i);
    }
}

// The first n of the nodes listed, each of w bytes, from byte `at` on.
fn write_nodes(w: usize, nodes: &[u32], n: usize, tree: &[u8], out: &mut [u8], at: usize)
    requires { (1 ≤ w) × (n ≤ length nodes.now) × (at + w * n ≤ length out.old) × ((m : ℕ) → m < n → w * get_or nodes.now m 0 + w ≤ length tree.now) }
    ensures { take (at + w * n) out.new ≡ take at out.old ++ concat n (λ m. part tree.now (w * get_or nodes.now m 0) w) }
{
    for m in 0..n {
        buffers::copy_part(tree, w * (nodes[m] as usize), w, out, at + w * m);
    }
}

// The slots behind the hidden leaf commitments: the first n of the nodes listed, and zeros in the unused slots.
pub fn write_slots(s: Shape, nodes: &[u32], n: usize, tree: &[u8], out: &mut [u8])
    requires s_value { (shape_ok s ≡ true) × (length tree.now ≡ tree_bytes s) × (length out.old ≡ opening_bytes s) }
    requires n_le_t { (n ≤ s.t) × (n ≤ length nodes.now) × ((m : ℕ) → m < n → get_or nodes.now m 0 < 2 * leaves s - 1) }
    ensures { out.new ≡ (take (leaf_commitment_bytes s * s.tau) out.old ++ concat n (λ m. node_at s tree.now (get_or nodes.now m 0))) ++ zeros (node_bytes s * (s.t - n)) }
{
    let w = rules::node_bytes(s);
    let first = rules::commitment_bytes(s) * s.tau;
    write_nodes(w, nodes, n, tree, out, first);
    buffers::clear_from(out, first + w * n);
}
