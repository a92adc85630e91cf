// All vectors of the signing half: leaf commitments and the hashes of the vectors, u, corrections and the matrix, from the bytes of a tree.
#![tactic(auto)]

ghost use Rattle.std.specs.Prelude.{◌≡◌, ◌*◌, ◌+◌, ◌<◌, length, get_or};
ghost use Rattle.std.specs.Int.Bits.{bit_xor};
ghost use Rattle.spec.specs.Bytes.{tabulate, concat};
ghost use Rattle.spec.specs.Shapes.{leaf_commitment_bytes, hash_bytes, depth_of, entries_of, leaf_commitments_bytes, matrix_bytes, corrections_bytes};
ghost use Rattle.spec.specs.Primitives.{faest};
ghost use Rattle.spec.specs.Leaves.{leaf_commitments, vector_hash};
ghost use Rattle.spec.specs.Rows.{u_byte, matrix_of};
ghost use Rattle.spec.specs.Signer.{signer_u, signer_column};
ghost use Rattle.spec.specs.Signer as signer;
ghost use Rattle.leaf.specs.HashKeys.{HashKeys};
ghost use Rattle.job.specs.Jobs.{entry_commitment, entry_byte};
ghost use Rattle.vector.specs.Entries.{Lent};
ghost use Rattle.vector.specs.Vectors.{Converted, Before};

use aes::Sbox;
use job::Job;
use vector::Run;

// Vector i: writes its leaf commitments, its columns and its hash, and adds the xor of its rows to `total`.
fn convert(
    sbox: &Sbox,
    g: Job,
    i: usize,
    keys: &[u8],
    tree: &[u8],
    total: &mut [u8],
    lcs: &mut [u8],
    cols: &mut [u8],
    hash: &mut [u8],
)
    requires lent { Lent g tree.now × HashKeys g.shape g.iv keys.now × (i < g.shape.tau) × (length total.old ≡ g.stretch.width) }
    requires lcs_len { (length lcs.old ≡ leaf_commitment_bytes g.shape * entries_of g.shape i) × (length cols.old ≡ g.stretch.width * depth_of g.shape i) × (length hash.old ≡ hash_bytes g.shape) }
    ensures total_after { total.new ≡ tabulate g.stretch.width (λ p. bit_xor (get_or total.old p 0) (u_byte g.shape (entry_byte g tree.now) i p)) }
    ensures converted { Converted g.shape (entry_commitment g tree.now) (signer_column g.shape g.stretch.width (entry_byte g tree.now)) i lcs.new cols.new hash.new }
{
    let m = leaf::hash_multiples(g.shape, i, keys);
    let last = g.stretch.width * (rules::depth_of(g.shape, i) - 1);
    let n = rules::entry_count(g.shape, i);
    let half = n / 2;
    let lower = Run {
        vector: i,
        from: 0,
        to: half,
        mask: 0,
    };
    let upper = Run {
        vector: i,
        from: half,
        to: n,
        mask: 0,
    };
    buffers::clear_from(cols, 0);
    vector::add_half(sbox, &m, g, lower, tree, lcs, cols);
    columns::add_part(total, cols, last);
    vector::add_half(sbox, &m, g, upper, tree, lcs, cols);
    columns::add_part(total, cols, last);
    shake::h1(rules::rate_bytes(g.shape), lcs, hash);
}

// Vector i in its parts of the buffers, behind those before it; the xor of its rows is added to `total`.
fn next_vector(
    sbox: &Sbox,
    g: Job,
    i: usize,
    keys: &[u8],
    tree: &[u8],
    total: &mut [u8],
    lcs: &mut [u8],
    v: &mut [u8],
    hashes: &mut [u8],
)
    requires lent { Lent g tree.now × HashKeys g.shape g.iv keys.now × (i < g.shape.tau) × (length total.old ≡ g.stretch.width) }
    requires lcs_len { (length lcs.old ≡ leaf_commitments_bytes g.shape) × (length v.old ≡ matrix_bytes g.shape g.stretch.width) × (length hashes.old ≡ hash_bytes g.shape * g.shape.tau) }
    ensures total_after { total.new ≡ tabulate g.stretch.width (λ p. bit_xor (get_or total.old p 0) (u_byte g.shape (entry_byte g tree.now) i p)) }
    ensures before { Before g.shape g.stretch.width (entry_commitment g tree.now) (signer_column g.shape g.stretch.width (entry_byte g tree.now)) i lcs.old v.old hashes.old
        → Before g.shape g.stretch.width (entry_commitment g tree.now) (signer_column g.shape g.stretch.width (entry_byte g tree.now)) (i + 1) lcs.new v.new hashes.new }
{
    let s = g.shape;
    let h = rules::hash_bytes(s);
    let lcs_from = vector::commitments_from(s, i);
    let lcs_to = vector::commitments_from(s, i + 1);
    let v_from = vector::columns_from(s, i, g.stretch.width);
    let v_to = vector::columns_from(s, i + 1, g.stretch.width);
    convert(
        sbox,
        g,
        i,
        keys,
        tree,
        total,
        &mut lcs[lcs_from..lcs_to],
        &mut v[v_from..v_to],
        &mut hashes[h * i..h * i + h],
    );
}

// All vectors: the rows of the first make u, those of each other, added to u, a correction. The last w columns are zeros.
pub fn write_vectors(
    sbox: &Sbox,
    g: Job,
    keys: &[u8],
    tree: &[u8],
    lcs: &mut [u8],
    u: &mut [u8],
    v: &mut [u8],
    corrections: &mut [u8],
    hashes: &mut [u8],
)
    requires lent { Lent g tree.now × HashKeys g.shape g.iv keys.now × (length lcs.old ≡ leaf_commitments_bytes g.shape) × (length hashes.old ≡ hash_bytes g.shape * g.shape.tau) }
    requires u_len { (length u.old ≡ g.stretch.width) × (length v.old ≡ matrix_bytes g.shape g.stretch.width) × (length corrections.old ≡ corrections_bytes g.shape g.stretch.width) }
    ensures lcs_after { lcs.new ≡ leaf_commitments g.shape (entry_commitment g tree.now) }
    ensures u_after { u.new ≡ signer_u g.shape g.stretch.width (entry_byte g tree.now) }
    ensures v_after { v.new ≡ matrix_of g.shape g.stretch.width (signer_column g.shape g.stretch.width (entry_byte g tree.now)) }
    ensures corrections_after { corrections.new ≡ signer.corrections g.shape g.stretch.width (entry_byte g tree.now) }
    ensures hashes_after { hashes.new ≡ concat g.shape.tau (vector_hash faest g.shape (entry_commitment g tree.now)) }
{
    let b = g.stretch.width;
    let others = g.shape.tau - 1;
    buffers::clear_from(u, 0);
    next_vector(sbox, g, 0, keys, tree, u, lcs, v, hashes);
    for j in 0..others {
        let at = b * j;
        buffers::copy_part(u, 0, b, corrections, at);
        next_vector(
            sbox,
            g,
            j + 1,
            keys,
            tree,
            &mut corrections[at..at + b],
            lcs,
            v,
            hashes,
        );
    }
    let used = vector::columns_from(g.shape, g.shape.tau, b);
    buffers::clear_from(v, used);
}
