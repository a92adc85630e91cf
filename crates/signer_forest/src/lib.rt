// Version 1: the trees of all vectors, as the signing half grows them from one root.
#![tactic(auto)]

ghost use Rattle.std.specs.Prelude.{◌≡◌, true, ◌-◌, ◌*◌, length};
ghost use Rattle.spec.specs.Bytes.{part, concat};
ghost use Rattle.spec.specs.Tree.{expand_tree};
ghost use Rattle.spec.specs.Shapes.{node_bytes, entries_of, shape_ok};
ghost use Rattle.spec.specs.Version1.{faest1, children1, signer_trees, trees1_bytes};

use aes::Sbox;
use job::{Nonce, Version};
use spec::Shape;

// Writes the trees of the roots, one behind another.
fn grow_each(sbox: &Sbox, s: Shape, roots: &[u8], iv: [u8; 16], trees: &mut [u8])
    requires { (shape_ok s ≡ true) × (length roots.now ≡ node_bytes s * s.tau) × (length trees.old ≡ trees1_bytes s) }
    ensures { trees.new ≡ concat s.tau (λ i. expand_tree (node_bytes s) (part roots.now (node_bytes s * i) (node_bytes s)) (children1 faest1 s iv) (entries_of s i - 1)) }
{
    let n = rules::node_bytes(s);
    let tau = s.tau;
    for i in 0..tau {
        let inner = rules::entry_count(s, i) - 1;
        let from = n * v1_rules::first_node(s, i);
        let to = from + n * (2 * inner + 1);
        let at = n * i;
        let root = &roots[at..at + n];
        signer_tree::grow_tree(sbox, n, Version::One, inner, root, iv, &mut trees[from..to]);
    }
}

// Writes the trees of all vectors, through a lent buffer for their roots.
fn grow_through(
    sbox: &Sbox,
    s: Shape,
    root: &[u8],
    iv: [u8; 16],
    trees: &mut [u8],
    roots: &mut [u8],
)
    requires { (shape_ok s ≡ true) × (length root.now ≡ node_bytes s) × (length trees.old ≡ trees1_bytes s) × (length roots.old ≡ node_bytes s * s.tau) }
    ensures { trees.new ≡ signer_trees faest1 s root.now iv }
{
    let x = Nonce {
        iv,
        tweak: 0,
        version: Version::One,
    };
    generator::fill(sbox, root, x, 0, roots);
    grow_each(sbox, s, roots, iv, trees);
}

// Writes the trees of all vectors, one behind another: their roots are parts of one output of the generator.
pub fn grow_trees(sbox: &Sbox, s: Shape, root: &[u8], iv: [u8; 16], trees: &mut [u8])
    requires { (shape_ok s ≡ true) × (length root.now ≡ node_bytes s) × (length trees.old ≡ trees1_bytes s) }
    ensures { trees.new ≡ signer_trees faest1 s root.now iv }
{
    let mut roots = [0u8; 1024];
    let end = rules::node_bytes(s) * s.tau;
    grow_through(sbox, s, root, iv, trees, &mut roots[0..end]);
}
