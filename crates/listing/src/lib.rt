// The listing program of document 01, from the bytes of its input to the bytes of its output.
#![tactic(auto)]

ghost use Rattle.std.specs.Prelude.{◌≡◌, List, ℕ, ◌≤◌, length, take, drop};
ghost use Rattle.spec.specs.Shapes.{resolved};
ghost use Rattle.listing_text.specs.Put.{Put};
ghost use Rattle.listing.specs.Listing.{plan_text, listing};

use spec::Shape;

// Writes the nodes of a plan or its refusal. `nodes` has room for every T that is allowed; a larger one is refused whatever the list's length.
fn put_plan(out: &mut [u8], shape: Shape, challenge: &[u8], nodes: &mut [u32]) -> usize
    requires { (4096 ≤ length out.old) × (512 ≤ length nodes.old) × (shape.level ≡ 128) }
    ensures { Put (plan_text (resolved shape) challenge.now) 0 out.old out.new result }
{
    let s = rules::resolve(shape);
    let t = s.t.min(512);
    let answer = shape::plan(shape, challenge, &mut nodes[..t]);
    if answer.number != 0 {
        return listing_text::put_refused(out, answer.number);
    }
    let count = answer.count;
    listing_text::put_nodes(out, &nodes[..count])
}

// Writes the listing of an input to the front of `out`, and answers its length.
pub fn list(input: &[u8], out: &mut [u8]) -> usize
    requires { 4096 ≤ length out.old }
    ensures { (result ≤ length out.new) × (take result out.new ≡ listing input.now) × (drop result out.new ≡ drop result out.old) }
{
    if !listing_line::line_ok(input) {
        return listing_text::put_refused(out, 7);
    }
    let challenge = listing_line::challenge_of(listing_line::behind(input, 4));
    let mut nodes = [0u32; 512];
    put_plan(out, listing_line::shape_of(input), &challenge, &mut nodes)
}

// The listing of an input of which the first n bytes, at most 64, have been read: of a longer one 64 are enough.
pub fn list_read(read: [u8; 64], n: usize, out: &mut [u8]) -> usize
    requires { (n ≤ 64) × (4096 ≤ length out.old) }
    ensures { (result ≤ length out.new) × ((input : List ℕ) → take 64 input ≡ take n read → take result out.new ≡ listing input) × (drop result out.new ≡ drop result out.old) }
{
    list(&read[..n], out)
}
