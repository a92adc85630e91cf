// Planning for a C host: decode and plan on numbers and byte slices, and the lengths of a shape's buffers. The call beneath is lent the front of a local list, as long as the slice says, and a front that no
// shape has where a slice has another length.
#![tactic(auto)]

ghost use Rattle.std.specs.Prelude.{◌≡◌, true, ◌≤◌, length};
ghost use Rattle.spec.specs.Shapes.{shape_ok};
ghost use Rattle.spec.specs.HostCalls.{HostDecode, HostPlan};
ghost use Rattle.shape_host.specs.LengthCalls.{length_words, HostLengths};

use spec::Shape;

// Decode, with room for one index more than any shape has.
fn decode_by(
    shape: Shape,
    challenge: &[u8],
    list: &mut [u32],
    indices: &mut [u8],
    count: &mut [u8],
) -> usize
    requires { length list.old ≡ 33 }
    ensures { HostDecode shape challenge.now indices.old indices.new count.old count.new result }
{
    let n = host_words::numbers_in(indices.len(), count.len(), 33);
    let a = shape::decode(shape, challenge, &mut list[..n]);
    host_words::put_list(a.number, list, n, indices);
    host_words::give(a, count)
}

// Plan, with room for one node more than any shape allows.
fn plan_by(
    shape: Shape,
    challenge: &[u8],
    list: &mut [u32],
    nodes: &mut [u8],
    count: &mut [u8],
) -> usize
    requires { length list.old ≡ 513 }
    ensures { HostPlan shape challenge.now nodes.old nodes.new count.old count.new result }
{
    let n = host_words::numbers_in(nodes.len(), count.len(), 513);
    let a = shape::plan(shape, challenge, &mut list[..n]);
    host_words::put_list(a.number, list, a.count, nodes);
    host_words::give(a, count)
}

// DECODE.
#[unsafe(no_mangle)]
pub extern "C" fn rachnoel_decode(
    tau: usize,
    k: usize,
    w: usize,
    t: usize,
    level: usize,
    kind: usize,
    challenge: &[u8],
    indices: &mut [u8],
    count: &mut [u8],
) -> usize
    ensures { HostDecode (record { tau = tau; k = k; w = w; t = t; level = level; kind = kind }) challenge.now indices.old indices.new count.old count.new result }
{
    let mut list = [0u32; 33];
    decode_by(
        Shape {
            tau,
            k,
            w,
            t,
            level,
            kind,
        },
        challenge,
        &mut list,
        indices,
        count,
    )
}

// PLAN.
#[unsafe(no_mangle)]
pub extern "C" fn rachnoel_plan(
    tau: usize,
    k: usize,
    w: usize,
    t: usize,
    level: usize,
    kind: usize,
    challenge: &[u8],
    nodes: &mut [u8],
    count: &mut [u8],
) -> usize
    ensures { HostPlan (record { tau = tau; k = k; w = w; t = t; level = level; kind = kind }) challenge.now nodes.old nodes.new count.old count.new result }
{
    let mut list = [0u32; 513];
    plan_by(
        Shape {
            tau,
            k,
            w,
            t,
            level,
            kind,
        },
        challenge,
        &mut list,
        nodes,
        count,
    )
}

// The lengths of a resolved shape with rows of b bytes, in the order of the call.
fn length_words(s: Shape, b: usize) -> [u32; 11]
    requires { (shape_ok s ≡ true) × (b ≤ 8192) }
    ensures { result ≡ length_words s b }
{
    [
        rules::leaf_count(s) as u32,
        rules::node_bytes(s) as u32,
        rules::hash_bytes(s) as u32,
        (4 * s.tau) as u32,
        (4 * s.t) as u32,
        lengths::tree_bytes(s) as u32,
        lengths::leaf_commitments_bytes(s) as u32,
        b as u32,
        lengths::matrix_bytes(s, b) as u32,
        lengths::corrections_bytes(s, b) as u32,
        lengths::opening_bytes(s) as u32,
    ]
}

// LENGTHS: eleven numbers.
#[unsafe(no_mangle)]
pub extern "C" fn rachnoel_lengths(
    tau: usize,
    k: usize,
    w: usize,
    t: usize,
    level: usize,
    kind: usize,
    row_bits: usize,
    out: &mut [u8],
) -> usize
    ensures { HostLengths (record { tau = tau; k = k; w = w; t = t; level = level; kind = kind }) row_bits out.old out.new result }
{
    let s = rules::resolve(Shape {
        tau,
        k,
        w,
        t,
        level,
        kind,
    });
    if !rules::is_shape(s) {
        return 1;
    }
    if !rules::is_row_length(row_bits) {
        return 2;
    }
    if out.len() != 44 {
        return 3;
    }
    let words = length_words(s, row_bits / 8);
    host_words::put_list(0, &words, 11, out);
    0
}
