// The leaf hash of ordinary leaves at a shape's level: in the field of 384, 576 or 768 bits (document 000, sections 3.2 and 5.1).
#![tactic(auto)]

ghost use Rattle.std.specs.Prelude.{◌≡◌, true, List, ℕ, ◌+◌, length, take, drop};
ghost use Rattle.spec.specs.Bytes.{number, tabulate};
ghost use Rattle.spec.specs.Shapes.{ordinary, node_bytes, leaf_commitment_bytes, field_width, field_polynomial, shape_ok};
ghost use Rattle.spec.specs.LeafHash.{leaf_hash_byte};
ghost use Rattle.field.specs.Multiples.{Multiples};

use field::{Field384, Field576, Field768};
use spec::Shape;

// The multiples of a hash key, of one type at every level.
pub fn multiples(s: Shape, key: &[u8]) -> [[u64; 12]; 16]
    requires { (shape_ok s ≡ true) × (ordinary s ≡ true) × (length key.now ≡ leaf_commitment_bytes s) }
    ensures { Multiples (field_width s) (field_polynomial s) (number 8 key.now) result }
{
    if s.level == 128 {
        return field::multiples::<Field384, 6>(key);
    }
    if s.level == 192 {
        return field::multiples::<Field576, 9>(key);
    }
    field::multiples::<Field768, 12>(key)
}

// The leaf hash of a stretched leaf: the hash key, given as its multiples, times the seed, plus the rest.
pub fn leaf_hash(s: Shape, m: &[[u64; 12]; 16], stretched: &[u8], out: &mut [u8])
    requires { (shape_ok s ≡ true) × (ordinary s ≡ true) × (length stretched.now ≡ node_bytes s + leaf_commitment_bytes s) × (length out.old ≡ leaf_commitment_bytes s) }
    ensures { (u : List ℕ) → Multiples (field_width s) (field_polynomial s) (number 8 u) m.now → out.new ≡ tabulate (leaf_commitment_bytes s) (leaf_hash_byte (field_width s) (field_polynomial s) u (take (node_bytes s) stretched.now) (drop (node_bytes s) stretched.now)) }
{
    if s.level == 128 {
        field::leaf_hash::<Field384, 6>(m, stretched, out);
        return;
    }
    if s.level == 192 {
        field::leaf_hash::<Field576, 9>(m, stretched, out);
        return;
    }
    field::leaf_hash::<Field768, 12>(m, stretched, out);
}
