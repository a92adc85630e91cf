// The trees that the checking half of version 1 makes of an opening (document 02, E12): one for each vector.
#![tactic(auto)]

ghost use Rattle.std.specs.Prelude.{◌≡◌, true, List, ℕ, ◌+◌, ◌-◌, ◌*◌, ◌%◌, ◌^◌, ◌≤◌, ◌<◌, length};
ghost use Rattle.spec.specs.declared.Shape.{Shape};
ghost use Rattle.spec.specs.Bytes.{part};
ghost use Rattle.spec.specs.Shapes.{challenge_bytes, shape_ok};
ghost use Rattle.spec.specs.Version1.{faest1, reconstructed_vector_tree, reconstructed_trees, trees1_bytes, opening1_bytes};
ghost use Rattle.verifier_forest.specs.ByWay.{CoveredPair, VectorOf};

use aes::Sbox;
use job::Version;
use spec::Shape;

// Writes the two children of a covered node a, each of w bytes: child b, 0 or 1, is covered too and becomes zeros; the other comes from slot l.
fn write_covered(w: usize, a: usize, b: usize, l: usize, slots: &[u8], tree: &mut [u8])
    requires { (16 ≤ w) × (b ≤ 1) × (w * l + w ≤ length slots.now) × (w * (2 * a + 3) ≤ length tree.old) × (length tree.old < 2 ^ 32) }
    ensures { CoveredPair w a b (part slots.now (w * l) w) tree.old tree.new }
{
    let from = w * (2 * a + 1 + b);
    buffers::clear_from(&mut tree[from..from + w], 0);
    buffers::copy_part(slots, w * l, w, tree, w * (2 * a + 2 - b));
}

// Writes the tree of depth d whose leaf j is hidden, where slots has the siblings of the way to it in front, from the root's child down.
fn write_tree(
    sbox: &Sbox,
    w: usize,
    iv: [u8; 16],
    d: usize,
    j: usize,
    slots: &[u8],
    tree: &mut [u8],
)
    requires { (16 ≤ w) × (w ≤ 32) × (w % 8 ≡ 0) × (d ≤ 12) × (j < 2 ^ d) × (w * d ≤ length slots.now) × (length tree.old ≡ w * (2 * 2 ^ d - 1)) }
    ensures { (s : Shape) (ch opening : List ℕ) (i : ℕ) → VectorOf w d j slots.now s ch opening i
        → tree.new ≡ reconstructed_vector_tree faest1 s iv ch opening i }
{
    buffers::clear_from(&mut tree[0..w], 0);
    let inner = (1usize << d) - 1;
    // the next node of the way to leaf j, and its level
    let mut path: usize = 0;
    let mut l: usize = 0;
    for a in 0..inner {
        if a == path {
            let m = d - 1 - l;
            let b = (j >> m) % 2;
            write_covered(w, a, b, l, slots, tree);
            path = 2 * a + 1 + b;
            l += 1;
            continue;
        }
        tree::expand_node(sbox, w, Version::One, iv, a, tree);
    }
}

// The trees that an opening gives, those of all vectors: covered nodes are zeros, siblings of the paths come from the opening, all others from their parents.
pub fn reconstruct_trees(
    sbox: &Sbox,
    s: Shape,
    ch: &[u8],
    iv: [u8; 16],
    opening: &[u8],
    trees: &mut [u8],
)
    requires { (shape_ok s ≡ true) × (length ch.now ≡ challenge_bytes s) × (length opening.now ≡ opening1_bytes s) × (length trees.old ≡ trees1_bytes s) }
    ensures { trees.new ≡ reconstructed_trees faest1 s iv ch.now opening.now }
{
    let w = rules::node_bytes(s);
    let tau = s.tau;
    for i in 0..tau {
        let d = rules::depth_of(s, i);
        let j = challenge::hidden_index(s, ch, i);
        let from = v1_rules::decommitment_from(s, i);
        let at = w * v1_rules::first_node(s, i);
        let end = w * v1_rules::first_node(s, i + 1);
        write_tree(sbox, w, iv, d, j, &opening[from..], &mut trees[at..end]);
    }
}
