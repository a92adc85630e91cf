// The tree that the checking half makes of an opening (document 000, figure 5.5).
#![tactic(auto)]

ghost use Rattle.std.specs.Prelude.{◌≡◌, true, ◌||◌, ◌++◌, ◌+◌, ◌-◌, ◌*◌, ◌%◌, ◌^◌, ◌≤◌, ◌<◌, length, take, drop};
ghost use Rattle.spec.specs.declared.Shape.{Shape};
ghost use Rattle.spec.specs.Bytes.{part, zeros};
ghost use Rattle.spec.specs.Tree.{expand_tree};
ghost use Rattle.spec.specs.Shapes.{node_bytes, challenge_bytes, shape_ok, planned_count, tree_bytes, opening_bytes};
ghost use Rattle.spec.specs.Primitives.{faest};
ghost use Rattle.spec.specs.Verifier.{reconstructed_tree};
ghost use Rattle.planning_laws.specs.Lists.{Descending};
ghost use Rattle.verifier_tree.specs.ByNodes.{listed, at_or_after, ByChildren, read_before, Before, read_with, node_by, children_by};

use aes::Sbox;
use job::Version;
use spec::Shape;

// Where the writing stands: how many of the covered nodes are at or after the node whose children come next, and how many at or after the next child; how many slots are read.
#[derive(Clone, Copy)]
pub struct Place {
    pub node: usize,
    pub child: usize,
    pub read: usize,
}

// A number of 32 bits as an index.
fn wide(x: u32) -> usize
    ensures { result ≡ x }
{
    x as usize
}

// Whether x is covered, where `left` of the covered nodes are at or after it: then it is the last of these.
fn is_next(nodes: &[u32], left: usize, x: usize) -> bool
    requires { Descending nodes.now × (left ≡ at_or_after nodes.now x) }
    ensures { result ≡ listed nodes.now x }
{
    if left == 0 {
        return false;
    }
    wide(nodes[left - 1]) == x
}

// Writes node c, of w bytes, a child of a covered node: zeros if it is covered too, else the next of the n slots from the end. Returns where the writing stands then.
fn write_child(
    w: usize,
    nodes: &[u32],
    c: usize,
    p: Place,
    slots: &[u8],
    n: usize,
    tree: &mut [u8],
) -> Place
    requires { Descending nodes.now × (p.child ≡ at_or_after nodes.now c) × (read_with nodes.now c p.read ≤ n) × (w * n ≤ length slots.now) × (w * c + w ≤ length tree.old) }
    ensures { (result.child ≡ at_or_after nodes.now (c + 1)) × (result.read ≡ read_with nodes.now c p.read)
        × (tree.new ≡ take (w * c) tree.old ++ (node_by w nodes.now slots.now n p.read c ++ drop (w * c + w) tree.old)) }
{
    let node = p.node;
    let child = p.child;
    let read = p.read;
    if is_next(nodes, child, c) {
        buffers::clear_from(&mut tree[w * c..w * c + w], 0);
        return Place {
            node,
            child: child - 1,
            read,
        };
    }
    let next = read + 1;
    buffers::copy_part(slots, w * (n - next), w, tree, w * c);
    Place {
        node,
        child,
        read: next,
    }
}

// Writes the two children of node a, where the nodes before it have theirs. Returns where the writing stands then.
fn write_children(
    sbox: &Sbox,
    w: usize,
    iv: [u8; 16],
    nodes: &[u32],
    a: usize,
    p: Place,
    slots: &[u8],
    n: usize,
    tree: &mut [u8],
) -> Place
    requires { Descending nodes.now × (listed nodes.now a ≡ (listed nodes.now (2 * a + 1) || listed nodes.now (2 * a + 2)))
        × Before nodes.now a p × (read_before nodes.now (a + 1) ≤ n) × (w * n ≤ length slots.now)
        × (w * (2 * a + 3) ≤ length tree.old) × (length tree.old < 2 ^ 32) × (16 ≤ w) × (w ≤ 32) × (w % 8 ≡ 0) }
    ensures { Before nodes.now (a + 1) result
        × ((s : Shape) → shape_ok s ≡ true → w ≡ node_bytes s
        → tree.new ≡ take (w * (2 * a + 1)) tree.old ++ (children_by w nodes.now slots.now n s iv a (part tree.old (w * a) w) ++ drop (w * (2 * a + 3)) tree.old)) }
{
    let node = p.node;
    if !is_next(nodes, node, a) {
        tree::expand_node(sbox, w, Version::Two, iv, a, tree);
        return p;
    }
    let left = write_child(w, nodes, 2 * a + 1, p, slots, n, tree);
    let both = write_child(w, nodes, 2 * a + 2, left, slots, n, tree);
    Place {
        node: node - 1,
        child: both.child,
        read: both.read,
    }
}

// Writes the tree with l leaves and these covered nodes.
fn write_tree(
    sbox: &Sbox,
    w: usize,
    iv: [u8; 16],
    nodes: &[u32],
    l: usize,
    slots: &[u8],
    n: usize,
    tree: &mut [u8],
)
    requires { (1 ≤ l) × Descending nodes.now × (listed nodes.now 0 ≡ true) × ByChildren (listed nodes.now) (l - 1) × (n ≡ read_before nodes.now (l - 1))
        × (w * n ≤ length slots.now) × (length tree.old ≡ w * (2 * l - 1)) × (length tree.old < 2 ^ 32) × (16 ≤ w) × (w ≤ 32) × (w % 8 ≡ 0) }
    ensures { (s : Shape) → shape_ok s ≡ true → w ≡ node_bytes s → tree.new ≡ expand_tree w (zeros w) (children_by w nodes.now slots.now n s iv) (l - 1) }
{
    buffers::clear_from(&mut tree[0..w], 0);
    let m = nodes.len();
    let mut p = Place {
        node: m,
        child: m - 1,
        read: 0,
    };
    for a in 0..l - 1 {
        p = write_children(sbox, w, iv, nodes, a, p, slots, n, tree);
    }
}

// The tree that an opening gives: covered nodes are zeros, revealed nodes come from the opening, all others from their parents.
pub fn reconstruct_tree(
    sbox: &Sbox,
    s: Shape,
    ch: &[u8],
    iv: [u8; 16],
    n: usize,
    opening: &[u8],
    tree: &mut [u8],
)
    requires { (shape_ok s ≡ true) × (length ch.now ≡ challenge_bytes s) × (n ≡ planned_count s ch.now) × (n ≤ s.t) × (length opening.now ≡ opening_bytes s) × (length tree.old ≡ tree_bytes s) }
    ensures { tree.new ≡ reconstructed_tree faest s iv ch.now opening.now }
{
    let w = rules::node_bytes(s);
    let first = rules::commitment_bytes(s) * s.tau;
    let mut nodes = [0u32; 576];
    let m = planning::covered_nodes(s, ch, &mut nodes);
    let l = rules::leaf_count(s);
    write_tree(sbox, w, iv, &nodes[0..m], l, &opening[first..], n, tree);
}
