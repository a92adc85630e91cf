// The tree of document 000, figure 5.4, as the signing half grows it: node 0 is the root, and every other node comes from its parent.
#![tactic(auto)]

ghost use Rattle.std.specs.Prelude.{◌≡◌, true, ◌+◌, ◌*◌, ◌%◌, ◌^◌, ◌≤◌, ◌<◌, length};
ghost use Rattle.spec.specs.declared.Shape.{Shape};
ghost use Rattle.spec.specs.Tree.{expand_tree};
ghost use Rattle.spec.specs.Shapes.{node_bytes, shape_ok, tree_bytes};
ghost use Rattle.spec.specs.Primitives.{faest};
ghost use Rattle.spec.specs.Leaves.{children};
ghost use Rattle.spec.specs.Signer.{signer_tree};
ghost use Rattle.job.specs.Versions.{primitives_of};

use aes::Sbox;
use job::Version;
use spec::Shape;

// Writes the tree of a root, with nodes of n bytes and `inner` nodes that have children.
pub fn grow_tree(
    sbox: &Sbox,
    n: usize,
    version: Version,
    inner: usize,
    root: &[u8],
    iv: [u8; 16],
    tree: &mut [u8],
)
    requires { (16 ≤ n) × (n ≤ 32) × (n % 8 ≡ 0) × (length root.now ≡ n) × (length tree.old ≡ n * (2 * inner + 1)) × (length tree.old < 2 ^ 32) }
    ensures { (s : Shape) → shape_ok s ≡ true → n ≡ node_bytes s → tree.new ≡ expand_tree n root.now (children (primitives_of version) s iv) inner }
{
    buffers::copy(root, tree);
    for a in 0..inner {
        tree::expand_node(sbox, n, version, iv, a, tree);
    }
}

// Writes the tree of a root: the single tree of version 2.
pub fn grow(sbox: &Sbox, s: Shape, root: &[u8], iv: [u8; 16], tree: &mut [u8])
    requires { (shape_ok s ≡ true) × (length root.now ≡ node_bytes s) × (length tree.old ≡ tree_bytes s) }
    ensures { tree.new ≡ signer_tree faest s root.now iv }
{
    let n = rules::node_bytes(s);
    let inner = rules::leaf_count(s) - 1;
    grow_tree(sbox, n, Version::Two, inner, root, iv, tree);
}
