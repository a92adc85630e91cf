// The opening report, document 02, E14: the definitions stand in ../specs. Each function here puts a text of it at a place of the output and answers the place behind it.
#![tactic(auto)]

ghost use Rattle.std.specs.Prelude.{◌+◌, ◌<◌, ◌≤◌, length};
ghost use Rattle.listing_text.specs.Put.{Put};
ghost use Rattle.report_text.specs.Text.{line_text, total_text};

// What the record that begins a string gives: 0 or the number of its refusal; with 0 its node count and its unused slots; and the bytes that it takes.
// The number stands beside the others because the theorems of ../specs/Claims.antt speak of every such value.
#[derive(Clone, Copy)]
pub struct Entry {
    pub number: usize,
    pub count: usize,
    pub unused: usize,
    pub bytes: usize,
}

// A line: the place, a space, then the node count, a space and the unused slots, or the refusal.
pub fn put_entry(out: &mut [u8], at: usize, place: usize, e: Entry) -> usize
    requires { (place < 100000) × (e.number < 100000) × (e.count < 10000000000) × (e.unused < 10000000000) × (at + 28 ≤ length out.old) }
    ensures { Put (line_text place e) at out.old out.new result × (result ≤ at + 28) }
{
    let end = listing_text::put_decimal(out, at, place);
    let next = listing_text::put_byte(out, end, b' ');
    if e.number != 0 {
        return listing_text::put_refusal(out, next, e.number);
    }
    listing_text::put_pair(out, next, e.count, e.unused)
}

// The last line: `total `, the nodes, a space and the unused slots.
pub fn put_total(out: &mut [u8], at: usize, nodes: usize, unused: usize) -> usize
    requires { (nodes < 10000000000) × (unused < 10000000000) × (at + 28 ≤ length out.old) }
    ensures { Put (total_text nodes unused) at out.old out.new result }
{
    let end = listing_text::put_bytes(out, at, b"total ");
    listing_text::put_pair(out, end, nodes, unused)
}
