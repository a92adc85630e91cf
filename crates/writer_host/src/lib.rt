// The record maker's calls for a C host: write_record, and how long a record is. Nothing here depends on either half.
#![tactic(auto)]

ghost use Rattle.std.specs.Prelude.{◌≡◌};
ghost use Rattle.record.specs.HostRecordCalls.{HostRecordLength, HostWriteRecord};

use spec::Shape;

// RECORD LENGTH: one number.
#[unsafe(no_mangle)]
pub extern "C" fn rachnoel_record_length(
    tau: usize,
    k: usize,
    w: usize,
    t: usize,
    level: usize,
    kind: usize,
    row_bits: usize,
    length: &mut [u8],
) -> usize
    ensures { HostRecordLength (record { tau = tau; k = k; w = w; t = t; level = level; kind = kind }) row_bits length.old length.new result }
{
    let n = record_writer::record_length(
        Shape {
            tau,
            k,
            w,
            t,
            level,
            kind,
        },
        row_bits,
    );
    if n.number != 0 {
        return n.number;
    }
    if length.len() != 4 {
        return 3;
    }
    let words = [n.bytes as u32];
    host_words::put_list(0, &words, 1, length);
    0
}

// WRITE RECORD.
#[unsafe(no_mangle)]
pub extern "C" fn rachnoel_write_record(
    tau: usize,
    k: usize,
    w: usize,
    t: usize,
    level: usize,
    kind: usize,
    row_bits: usize,
    iv: &[u8],
    challenge: &[u8],
    corrections: &[u8],
    opening: &[u8],
    commitment: &[u8],
    record: &mut [u8],
) -> usize
    ensures { HostWriteRecord
        (record { shape = record { tau = tau; k = k; w = w; t = t; level = level; kind = kind }; row = row_bits; iv = iv.now; challenge = challenge.now; corrections = corrections.now; opening = opening.now; commitment = commitment.now })
        «record».old «record».new result }
{
    let a = record_writer::write_record(
        Shape {
            tau,
            k,
            w,
            t,
            level,
            kind,
        },
        row_bits,
        iv,
        challenge,
        corrections,
        opening,
        commitment,
        record,
    );
    a.number
}
