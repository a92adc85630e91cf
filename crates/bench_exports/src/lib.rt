// The primitives, the tree and plan as C calls them, for bench/ alone, each with the promise of what it calls. The host lends the table that
// `rattle_table` wrote.
#![tactic(auto)]

ghost use Rattle.std.specs.Prelude.{◌≡◌, true, List, ℕ, ◌+◌, ◌*◌, ◌^◌, ◌≤◌, ◌<◌, length, take, drop};
ghost use Rattle.spec.specs.declared.Answer.{Answer};
ghost use Rattle.spec.specs.Bytes.{tabulate, number};
ghost use Rattle.spec.specs.Gf256.{SboxTable};
ghost use Rattle.spec.specs.Aes.{encrypt};
ghost use Rattle.spec.specs.Keccak.{keccak_f};
ghost use Rattle.spec.specs.Generator.{generator_byte};
ghost use Rattle.spec.specs.Hashes.{hash0, hash1};
ghost use Rattle.spec.specs.LeafHash.{leaf_hash_byte};
ghost use Rattle.spec.specs.Shapes.{node_bytes, shape_ok, tree_bytes};
ghost use Rattle.spec.specs.Primitives.{faest};
ghost use Rattle.spec.specs.Signer.{signer_tree};
ghost use Rattle.spec.specs.Calls.{Plan};
ghost use Rattle.field.specs.Multiples.{Multiples};
ghost use Rattle.field.specs.Fields.{p384};
ghost use Rattle.columns.specs.Columns.{Xored};

use aes::{KeySchedule, Sbox};
use field::Field384;
use job::{Nonce, Version};
use spec::{Answer, Shape};

#[unsafe(no_mangle)]
pub extern "C" fn rattle_table(out: &mut [u8; 256])
    ensures { SboxTable out.new }
{
    let t = aes::table();
    *out = t;
}

// The key schedule of the key, and one block: the key's own bytes, encrypted.
#[unsafe(no_mangle)]
pub extern "C" fn rattle_schedule_and_block(t: &[u8; 256], key: &[u8; 16], out: &mut [u8; 16])
    requires { SboxTable t.now }
    ensures { out.new ≡ encrypt 4 key.now key.now }
{
    let sbox = Sbox::of_table(t);
    let schedule = KeySchedule::new(&sbox, key);
    let r = aes::bytes_of(aes::encrypt(&sbox, &schedule, aes::load_state(key)));
    *out = r;
}

// A node of a tree: 32 bytes of the generator.
#[unsafe(no_mangle)]
pub extern "C" fn rattle_node(t: &[u8; 256], key: &[u8; 16], iv: &[u8; 16], out: &mut [u8; 32])
    requires { SboxTable t.now }
    ensures { out.new ≡ tabulate (length out.old) (λ p. generator_byte 4 key.now iv.now 5 (0 + p)) }
{
    let sbox = Sbox::of_table(t);
    let x = *iv;
    let y = Nonce {
        iv: x,
        tweak: 5,
        version: Version::Two,
    };
    generator::fill(&sbox, key, y, 0, out);
}

// A row of 1,680 bits and some more: 224 bytes of the generator.
#[unsafe(no_mangle)]
pub extern "C" fn rattle_row(t: &[u8; 256], key: &[u8; 16], iv: &[u8; 16], out: &mut [u8; 224])
    requires { SboxTable t.now }
    ensures { out.new ≡ tabulate (length out.old) (λ p. generator_byte 4 key.now iv.now 5 (0 + p)) }
{
    let sbox = Sbox::of_table(t);
    let x = *iv;
    let y = Nonce {
        iv: x,
        tweak: 5,
        version: Version::Two,
    };
    generator::fill(&sbox, key, y, 0, out);
}

#[unsafe(no_mangle)]
pub extern "C" fn rattle_keccak(a: &mut [u64; 25])
    ensures { a.new ≡ keccak_f a.old }
{
    let s = *a;
    let r = keccak::keccak_f(s);
    *a = r;
}

#[unsafe(no_mangle)]
pub extern "C" fn rattle_h0(iv: &[u8], out: &mut [u8])
    ensures { out.new ≡ hash0 168 iv.now (length out.old) }
{
    shake::h0(168, iv, out);
}

#[unsafe(no_mangle)]
pub extern "C" fn rattle_h1(message: &[u8], out: &mut [u8])
    ensures { out.new ≡ hash1 168 message.now (length out.old) }
{
    shake::h1(168, message, out);
}

#[unsafe(no_mangle)]
pub extern "C" fn rattle_multiples(key: &[u8; 48], m: &mut [[u64; 12]; 16])
    ensures { Multiples 384 p384 (number 8 key.now) m.new }
{
    let r = field::multiples::<Field384, 6>(key);
    *m = r;
}

#[unsafe(no_mangle)]
pub extern "C" fn rattle_leaf_hash(m: &[[u64; 12]; 16], stretched: &[u8; 64], out: &mut [u8; 48])
    ensures { (u : List ℕ) → Multiples 384 p384 (number 8 u) m.now → out.new ≡ tabulate 48 (leaf_hash_byte 384 p384 u (take 16 stretched.now) (drop 16 stretched.now)) }
{
    field::leaf_hash::<Field384, 6>(m, stretched, out);
}

// The tree of a root, at level 128.
#[unsafe(no_mangle)]
pub extern "C" fn rattle_grow(
    t: &[u8; 256],
    root: &[u8],
    iv: &[u8; 16],
    tau: usize,
    k: usize,
    w: usize,
    most: usize,
    tree: &mut [u8],
)
    requires sbox_table { SboxTable t.now }
    requires kind_value { (shape_ok (record { tau = tau; k = k; w = w; t = most; level = 128; kind = 0 }) ≡ true) × (length root.now ≡ node_bytes (record { tau = tau; k = k; w = w; t = most; level = 128; kind = 0 })) × (length tree.old ≡ tree_bytes (record { tau = tau; k = k; w = w; t = most; level = 128; kind = 0 })) }
    ensures { tree.new ≡ signer_tree faest (record { tau = tau; k = k; w = w; t = most; level = 128; kind = 0 }) root.now iv.now }
{
    let s = Shape {
        tau,
        k,
        w,
        t: most,
        level: 128,
        kind: 0,
    };
    let sbox = Sbox::of_table(t);
    signer_tree::grow(&sbox, s, root, *iv, tree);
}

// A row, added to a sum of rows.
#[unsafe(no_mangle)]
pub extern "C" fn rattle_add_row(
    t: &[u8; 256],
    seed: &[u8],
    iv: &[u8; 16],
    tweak: u32,
    sum: &mut [u8],
)
    requires sbox_table { SboxTable t.now }
    requires seed_len { (length seed.now ≡ 16) × (length sum.old ≤ 8192) }
    ensures { Xored 0 (length sum.old) (λ p. generator_byte 4 seed.now iv.now tweak (0 + p)) sum.old sum.new }
{
    let sbox = Sbox::of_table(t);
    let x = *iv;
    let y = Nonce {
        iv: x,
        tweak,
        version: Version::Two,
    };
    rows::add_row(&sbox, seed, y, 0, sum);
}

fn count_of(r: Answer) -> usize
    ensures { result ≡ r.count }
{
    r.count
}

// The public call plan at level 128; the answer's count.
#[unsafe(no_mangle)]
pub extern "C" fn rattle_plan(
    tau: usize,
    k: usize,
    w: usize,
    t: usize,
    challenge: &[u8],
    nodes: &mut [u32],
) -> usize
    ensures { (a : Answer) × Plan (record { tau = tau; k = k; w = w; t = t; level = 128; kind = 0 }) challenge.now nodes.old nodes.new a × (result ≡ a.count) }
{
    count_of(shape::plan(
        Shape {
            tau,
            k,
            w,
            t,
            level: 128,
            kind: 0,
        },
        challenge,
        nodes,
    ))
}
