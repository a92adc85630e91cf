// The opening report (document 02, E14), from the bytes of its input to the bytes of its output. It reads records and plans openings; nothing here depends on either half.
#![tactic(auto)]

ghost use Rattle.std.specs.Prelude.{◌≡◌, true, ◌≤◌, length, take, drop};
ghost use Rattle.spec.specs.Shapes.{challenge_bytes, opening_bytes, shape_ok};
ghost use Rattle.record.specs.Record.{fields_number, end_of};
ghost use Rattle.record_reading.specs.Front.{FrontOf, SizesOf};
ghost use Rattle.listing_text.specs.Put.{Put};
ghost use Rattle.report_text.specs.Entries.{entry_of, opened_entry, entries};
ghost use Rattle.report_text.specs.Text.{entries_text, report_text};

use record_reading::{Front, RecordRefusal, Sizes};
use report_text::Entry;

// The entry of a record that is refused.
fn refused(number: usize, bytes: usize) -> Entry
    ensures { result ≡ record { number = number; count = 0; unused = 0; bytes = bytes } }
{
    Entry {
        number,
        count: 0,
        unused: 0,
        bytes,
    }
}

// The entry of an opening in a record of that many bytes: 4, 5 and 6 are tested, and nothing is reconstructed.
fn opened<'a>(f: Front, challenge: &'a [u8], opening: &'a [u8], bytes: usize) -> Entry
    requires { (shape_ok f.resolved ≡ true) × (length challenge.now ≡ challenge_bytes f.resolved) × (length opening.now ≡ opening_bytes f.resolved) }
    ensures { result ≡ opened_entry f.resolved challenge.now opening.now bytes }
{
    match slots::test_opening(f.resolved, challenge, opening) {
        Ok(n) => Entry {
            number: 0,
            count: n,
            unused: f.resolved.t - n,
            bytes,
        },
        Err(refusal) => refused(refusal.number(), bytes),
    }
}

// The entry of a record whose fields are there, up to its end: the fields are handed out by one reader, and two of them passed on.
fn open_fields(bytes: &[u8], f: Front, z: Sizes, end: usize) -> Entry
    requires { FrontOf bytes.now f × SizesOf bytes.now z × (fields_number bytes.now ≡ 0) × (end ≡ end_of bytes.now) }
    ensures { result ≡ entry_of bytes.now }
{
    let p = record_reader::fields_of(
        bytes,
        z.head,
        16,
        z.challenge,
        z.corrections,
        z.opening,
        z.commitment,
    );
    opened(f, p.challenge, p.opening, end)
}

// The entry of a record whose front is read.
fn entry_behind(bytes: &[u8], f: Front) -> Entry
    requires { FrontOf bytes.now f }
    ensures { result ≡ entry_of bytes.now }
{
    let z = record_reading::sizes_of(f);
    match record_reading::rest(bytes, z) {
        Ok(end) => open_fields(bytes, f, z, end),
        Err(_) => refused(RecordRefusal::NotARecord.number(), bytes.len()),
    }
}

// The entry of the record that begins a string. One with a number of the front or of a missing field takes all that is left, so that nothing is read behind it.
fn entry(bytes: &[u8]) -> Entry
    ensures { result ≡ entry_of bytes.now }
{
    match record_reading::front_of(bytes) {
        Ok(f) => entry_behind(bytes, f),
        Err(refusal) => refused(refusal.number(), bytes.len()),
    }
}

// Puts a line for each record of the input, and the totals behind them. The loop is a `while`, since a turn goes on by a record.
fn put_entries(input: &[u8], out: &mut [u8]) -> usize
    requires { (length input.now ≤ 65536) × (65600 ≤ length out.old) }
    ensures { Put (entries_text (entries input.now)) 0 out.old out.new result }
{
    let mut nodes: usize = 0;
    let mut unused: usize = 0;
    let mut place: usize = 1;
    let mut end: usize = 0;
    let mut at: usize = 0;
    while at < input.len() {
        let e = entry(&input[at..]);
        end = report_text::put_entry(out, end, place, e);
        nodes += e.count;
        unused += e.unused;
        place += 1;
        at += e.bytes;
    }
    report_text::put_total(out, end, nodes, unused)
}

// Writes the report of an input to the front of `out`, and answers its length.
pub fn report(input: &[u8], out: &mut [u8]) -> usize
    requires { 65600 ≤ length out.old }
    ensures { (result ≤ length out.new) × (take result out.new ≡ report_text input.now) × (drop result out.new ≡ drop result out.old) }
{
    if 65536 < input.len() {
        return listing_text::put_refused(out, 7);
    }
    put_entries(input, out)
}
