// One step of the tree of document 000, figure 5.4: a node is the generator's key of its two children. Both halves use it.
#![tactic(auto)]

ghost use Rattle.std.specs.Prelude.{◌≡◌, true, ◌++◌, ◌+◌, ◌*◌, ◌%◌, ◌^◌, ◌≤◌, ◌<◌, length, take, drop};
ghost use Rattle.spec.specs.declared.Shape.{Shape};
ghost use Rattle.spec.specs.Bytes.{part};
ghost use Rattle.spec.specs.Shapes.{node_bytes, shape_ok};
ghost use Rattle.spec.specs.Leaves.{children};
ghost use Rattle.job.specs.Versions.{primitives_of};

use aes::{KeySchedule, Sbox};
use job::{Nonce, Version};

// Writes the two children of node a, whose bytes stand in the tree; n is the length of a node.
pub fn expand_node(sbox: &Sbox, n: usize, version: Version, iv: [u8; 16], a: usize, tree: &mut [u8])
    requires { (16 ≤ n) × (n ≤ 32) × (n % 8 ≡ 0) × (n * (2 * a + 3) ≤ length tree.old) × (length tree.old < 2 ^ 32) }
    ensures { (s : Shape) → shape_ok s ≡ true → n ≡ node_bytes s
        → tree.new ≡ take (n * (2 * a + 1)) tree.old ++ (children (primitives_of version) s iv a (part tree.old (n * a) n) ++ drop (n * (2 * a + 3)) tree.old) }
{
    let from = n * (2 * a + 1);
    let schedule = KeySchedule::new(sbox, &tree[n * a..n * a + n]);
    let x = Nonce {
        iv,
        tweak: a as u32,
        version,
    };
    generator::fill_keyed(sbox, &schedule, x, 0, &mut tree[from..from + 2 * n]);
}
