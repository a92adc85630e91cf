// The entries of one vector: their leaf commitments, the xor of their rows, and the columns, from the bytes of a tree; and a vector's parts of the buffers of
// all vectors. The rows are added in the order of their numbers to one sum, which stands in the place of the last column, and from there to another column only
// where its bit of the number changes.
#![tactic(auto)]

ghost use Rattle.std.specs.Prelude.{◌≡◌, true, ◌+◌, ◌-◌, ◌*◌, ◌≤◌, ◌<◌, length};
ghost use Rattle.spec.specs.Shapes.{node_bytes, leaf_commitment_bytes, shape_ok, depth_of, entries_of, first_bit, first_entry};
ghost use Rattle.leaf.specs.HashKeys.{HashMultiples};
ghost use Rattle.columns.specs.Columns.{Xored, Marked, Running};
ghost use Rattle.job.specs.Versions.{leaf_node, nodes_bytes};
ghost use Rattle.job.specs.Jobs.{entry_commitment, entry_byte};
ghost use Rattle.vector.specs.Entries.{numbered, Lent, Inside, Written};

use aes::Sbox;
use job::{Job, Nonce, Version};
use spec::Shape;

// Entries of a vector, in the order of their numbers: those whose numbers are from `from` on and below `to`. Number x is that of entry x xor the mask.
#[derive(Clone, Copy)]
pub struct Run {
    pub vector: usize,
    pub from: usize,
    pub to: usize,
    pub mask: usize,
}

// Where the leaf commitments of vector i begin, and those before it end.
pub fn commitments_from(s: Shape, i: usize) -> usize
    requires { (shape_ok s ≡ true) × (i ≤ s.tau) }
    ensures { result ≡ leaf_commitment_bytes s * first_entry s i }
{
    rules::commitment_bytes(s) * rules::first_entry(s, i)
}

// The same of its columns.
pub fn columns_from(s: Shape, i: usize, b: usize) -> usize
    requires { (shape_ok s ≡ true) × (i ≤ s.tau) × (b ≤ 8192) }
    ensures { result ≡ b * first_bit s i }
{
    b * rules::first_bit(s, i)
}

// Where the leaf of entry e of vector i stands among the nodes lent.
fn leaf_node(g: Job, i: usize, e: usize) -> usize
    requires { (shape_ok g.shape ≡ true) × (i < g.shape.tau) × (e < entries_of g.shape i) }
    ensures { (result ≡ leaf_node g.version g.shape i e) × (node_bytes g.shape * result + node_bytes g.shape ≤ nodes_bytes g.version g.shape) × (result < 172032) }
{
    let s = g.shape;
    let version = g.version;
    match version {
        Version::One => v1_rules::leaf_node(s, i, e),
        Version::Two => rules::leaf_of(s, i, e),
    }
}

// Entry e of vector i, with room for its seed lent: writes its leaf commitment, and adds the stretch of its row to the sum.
fn add_leaf(
    sbox: &Sbox,
    m: &[[u64; 12]; 16],
    g: Job,
    i: usize,
    e: usize,
    tree: &[u8],
    seed: &mut [u8],
    commitment: &mut [u8],
    sum: &mut [u8],
)
    requires lent { Lent g tree.now × HashMultiples g.shape g.iv i m.now × (i < g.shape.tau) × (e < entries_of g.shape i) }
    requires seed_len { (length seed.old ≡ node_bytes g.shape) × (length commitment.old ≡ leaf_commitment_bytes g.shape) × (length sum.old ≡ g.stretch.width) }
    ensures commitment_after { commitment.new ≡ entry_commitment g tree.now i e }
    ensures xored { Xored 0 (length sum.old) (entry_byte g tree.now i e) sum.old sum.new }
{
    let s = g.shape;
    let iv = g.iv;
    let n = rules::node_bytes(s);
    let version = g.version;
    let a = n * leaf_node(g, i, e);
    let tweak = leaf::leaf_tweak(i, rules::leaf_count(s));
    let row = (i as u32) + 2147483648;
    leaf::commit_leaf(
        sbox,
        m,
        s,
        &tree[a..a + n],
        Nonce { iv, tweak, version },
        seed,
        commitment,
    );
    rows::add_row(
        sbox,
        seed,
        Nonce {
            iv,
            tweak: row,
            version,
        },
        g.stretch.first,
        sum,
    );
}

// Entry e of vector i: writes its leaf commitment, and adds the stretch of its row to the sum.
fn add_entry(
    sbox: &Sbox,
    m: &[[u64; 12]; 16],
    g: Job,
    i: usize,
    e: usize,
    tree: &[u8],
    commitment: &mut [u8],
    sum: &mut [u8],
)
    requires lent { Lent g tree.now × HashMultiples g.shape g.iv i m.now × (i < g.shape.tau) × (e < entries_of g.shape i) }
    requires commitment_len { (length commitment.old ≡ leaf_commitment_bytes g.shape) × (length sum.old ≡ g.stretch.width) }
    ensures commitment_after { commitment.new ≡ entry_commitment g tree.now i e }
    ensures xored { Xored 0 (length sum.old) (entry_byte g tree.now i e) sum.old sum.new }
{
    let n = rules::node_bytes(g.shape);
    let mut seed = [0u8; 32];
    add_leaf(sbox, m, g, i, e, tree, &mut seed[0..n], commitment, sum);
}

// The entries of a run, which ends with a half of the numbers or with all: writes their leaf commitments, adds their rows to the columns, and leaves the xor of
// their rows in the last column. The other columns have the rows of the numbers before them.
pub fn add_half(
    sbox: &Sbox,
    m: &[[u64; 12]; 16],
    g: Job,
    run: Run,
    tree: &[u8],
    commitments: &mut [u8],
    cols: &mut [u8],
)
    requires lent { Lent g tree.now × HashMultiples g.shape g.iv run.vector m.now × Inside g run }
    requires commitments_len { (length commitments.old ≡ leaf_commitment_bytes g.shape * entries_of g.shape run.vector)
        × Marked g.stretch.width (depth_of g.shape run.vector - 1) run.from (numbered g tree.now run) cols.old }
    ensures written { Written (leaf_commitment_bytes g.shape) (entry_commitment g tree.now run.vector) run.mask run.from run.to commitments.old commitments.new }
    ensures running { Running g.stretch.width (depth_of g.shape run.vector - 1) run.from run.to (numbered g tree.now run) cols.new }
{
    let i = run.vector;
    let b = g.stretch.width;
    let w = rules::commitment_bytes(g.shape);
    let h = rules::depth_of(g.shape, i) - 1;
    let last = b * h;
    buffers::clear_from(cols, last);
    for x in run.from..run.to {
        let e = x ^ run.mask;
        add_entry(
            sbox,
            m,
            g,
            i,
            e,
            tree,
            &mut commitments[w * e..w * e + w],
            &mut cols[last..last + b],
        );
        columns::add_last(cols, b, h, x ^ (x + 1));
    }
}
