// The record maker's public calls: write_record, and how long a record is. Nothing here depends on either half.
#![tactic(auto)]

ghost use Rattle.std.specs.Prelude.{◌≡◌, true, [], ◌∷◌, ◌++◌, ◌+◌, ◌/◌, ◌%◌, ◌<◌, ◌≤◌, length, take};
ghost use Rattle.spec.specs.Shapes.{resolved, challenge_bytes, hash_bytes, shape_ok, opening_bytes, corrections_bytes};
ghost use Rattle.spec.specs.Calls.{first_refusal, fits};
ghost use Rattle.refusals.specs.Refusal.{number_in};
ghost use Rattle.record.specs.Fields.{field_of};
ghost use Rattle.spec.specs.Bytes.{big_endian_bytes};
ghost use Rattle.record.specs.Record.{head_bytes, version_for, head_for, record_of, record_bytes};
ghost use Rattle.record.specs.RecordCalls.{LengthOf, WriteRecord};
ghost use Rattle.record_writer.specs.Put.{Put};
ghost use Rattle.record_writer.specs.Tests.{row_tests, write_sizes};

use record::RecordLength;
use refusals::Refusal;
use spec::{Answer, Shape};

fn low_byte(n: usize) -> u8
    ensures { result ≡ n % 256 }
{
    (n % 256) as u8
}

// A number in four bytes, most significant first.
fn four_bytes(n: usize) -> [u8; 4]
    ensures { result ≡ big_endian_bytes 4 n }
{
    [
        low_byte(n / 16777216),
        low_byte(n / 65536),
        low_byte(n / 256),
        low_byte(n),
    ]
}

// The head: the shape as given, the row length, the level in bytes and the leaf kind, which is the head's last byte only where it is not 0.
fn head_of(s: Shape, n: usize) -> [u8; 11]
    requires { shape_ok (resolved s) ≡ true }
    ensures { take (head_bytes (version_for s)) result ≡ head_for s n }
{
    let row = four_bytes(n);
    [
        low_byte(s.tau),
        low_byte(s.k),
        low_byte(s.w),
        low_byte(s.t / 256),
        low_byte(s.t),
        row[0],
        row[1],
        row[2],
        row[3],
        low_byte(s.level / 8),
        low_byte(s.kind),
    ]
}

// A field; answers the place behind it.
fn put_field(out: &mut [u8], at: usize, bytes: &[u8]) -> usize
    requires { at + 4 + length bytes.now ≤ length out.old }
    ensures { (result ≡ at + 4 + length bytes.now) × Put (field_of bytes.now) at out.old out.new }
{
    let length = four_bytes(bytes.len());
    buffers::copy_part(&length, 0, 4, out, at);
    buffers::copy_part(bytes, 0, bytes.len(), out, at + 4);
    at + 4 + bytes.len()
}

// The version byte.
fn put_version(out: &mut [u8], version: u8)
    requires { 0 < length out.old }
    ensures { Put (version ∷ []) 0 out.old out.new }
{
    out[0] = version;
}

// The version byte and the head; answers the place behind them.
fn put_front(out: &mut [u8], s: Shape, n: usize) -> usize
    requires { (shape_ok (resolved s) ≡ true) × (5 + length (head_for s n) ≤ length out.old) }
    ensures { (result ≡ 5 + length (head_for s n)) × Put (version_for s ∷ field_of (head_for s n)) 0 out.old out.new }
{
    let head = head_of(s, n);
    let version = record_fields::version_for(s);
    let h = version.head_length();
    put_version(out, version.byte());
    put_field(out, 1, &head[..h])
}

// The record, part by part.
fn write_fields(
    shape: Shape,
    row_bits: usize,
    iv: &[u8],
    challenge: &[u8],
    corrections: &[u8],
    opening: &[u8],
    commitment: &[u8],
    record: &mut [u8],
)
    requires { (shape_ok (resolved shape) ≡ true) × (length «record».old ≡ 25 + length (head_for shape row_bits) + length iv.now + length challenge.now + length corrections.now + length opening.now + length commitment.now) }
    ensures { «record».new ≡ record_of
        (record { shape = shape; row = row_bits; iv = iv.now; challenge = challenge.now; corrections = corrections.now; opening = opening.now; commitment = commitment.now }) }
{
    let two = put_front(record, shape, row_bits);
    let three = put_field(record, two, iv);
    let four = put_field(record, three, challenge);
    let five = put_field(record, four, corrections);
    let six = put_field(record, five, opening);
    put_field(record, six, commitment);
}

// The lengths of the fields, and of the buffer that the record is written to.
#[derive(Clone, Copy, PartialEq, Eq)]
struct WriteLengths {
    iv: usize,
    challenge: usize,
    corrections: usize,
    opening: usize,
    commitment: usize,
    bytes: usize,
}

// Whether the fields and the record have their lengths.
fn write_fits(s: Shape, b: usize, x: WriteLengths) -> bool
    requires { (shape_ok s ≡ true) × (b ≤ 8192) }
    ensures { result ≡ fits (write_sizes s b x) }
{
    x == WriteLengths {
        iv: 16,
        challenge: record_fields::challenge_length(s),
        corrections: lengths::corrections_bytes(s, b),
        opening: lengths::opening_bytes(s),
        commitment: rules::hash_bytes(s),
        bytes: record_fields::record_length(s, b),
    }
}

// The tests of a shape and a row length.
fn test_rows(s: Shape, row_bits: usize) -> Result<(), Refusal>
    ensures { number_in result ≡ first_refusal (row_tests s row_bits) }
{
    refusals::test(rules::is_shape(s), Refusal::NotAShape)?;
    refusals::test(rules::is_row_length(row_bits), Refusal::NotARowLength)
}

// The tests of write_record: of the shape, the row length, the lengths.
fn test_write(s: Shape, row_bits: usize, x: WriteLengths) -> Result<(), Refusal>
    ensures { number_in result ≡ first_refusal (row_tests s row_bits ++ (fits (write_sizes s (row_bits / 8) x), 3) ∷ []) }
{
    test_rows(s, row_bits)?;
    refusals::test(write_fits(s, row_bits / 8, x), Refusal::BufferLength)
}

// RECORD LENGTH: how many bytes a record has, or the number with which its shape or its row length is refused.
pub fn record_length(shape: Shape, row_bits: usize) -> RecordLength
    ensures { LengthOf shape row_bits result }
{
    let s = rules::resolve(shape);
    match test_rows(s, row_bits) {
        Ok(()) => RecordLength {
            number: 0,
            bytes: record_fields::record_length(s, row_bits / 8),
        },
        Err(refusal) => RecordLength {
            number: refusal.number(),
            bytes: 0,
        },
    }
}

// WRITE RECORD: the record of a shape, a row length and the other fields. Every test comes before the first write.
pub fn write_record(
    shape: Shape,
    row_bits: usize,
    iv: &[u8],
    challenge: &[u8],
    corrections: &[u8],
    opening: &[u8],
    commitment: &[u8],
    record: &mut [u8],
) -> Answer
    ensures { WriteRecord
        (record { shape = shape; row = row_bits; iv = iv.now; challenge = challenge.now; corrections = corrections.now; opening = opening.now; commitment = commitment.now })
        «record».old «record».new result }
{
    let x = WriteLengths {
        iv: iv.len(),
        challenge: challenge.len(),
        corrections: corrections.len(),
        opening: opening.len(),
        commitment: commitment.len(),
        bytes: record.len(),
    };
    match test_write(rules::resolve(shape), row_bits, x) {
        Ok(()) => {
            write_fields(
                shape,
                row_bits,
                iv,
                challenge,
                corrections,
                opening,
                commitment,
                record,
            );
            Answer {
                number: 0,
                count: 0,
            }
        }
        Err(refusal) => Answer::from(refusal),
    }
}
