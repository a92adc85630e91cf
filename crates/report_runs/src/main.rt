// Runs the opening report on fixed inputs and writes the outputs one after another. An input is made in a buffer of zeros: records, of which the numbers of
// the head and the lengths of the fields are given, and single bytes. `stdout` holds what reference/ derives from the same lines.
#![tactic(auto)]

use std::io;

// The report of the first at + more bytes.
fn run(rt: &impl Print, input: &[u8], at: usize, more: usize) -> io::Result<()> {
    let end = at.saturating_add(more).min(input.len());
    let mut out = [0u8; 65600];
    let m = report::report(&input[..end], &mut out);
    rt.write_all(&out[..m])
}

// Sets the byte at + more, where there is one.
fn set(input: &mut [u8], at: usize, more: usize, value: usize) {
    if let Some(byte) = input.get_mut(at.saturating_add(more)) {
        *byte = (value % 256) as u8;
    }
}

// The length of a field; answers the place behind the field.
fn field(input: &mut [u8], at: usize, n: usize) -> usize {
    let length = n.min(65535);
    set(input, at, 2, length / 256);
    set(input, at, 3, length);
    at.saturating_add(4 + length)
}

// The version and the numbers of the head; `node` is the level / 8, and in version 3 the kind is 1. Answers the place behind them.
fn head(
    input: &mut [u8],
    at: usize,
    version: usize,
    tau: usize,
    k: usize,
    w: usize,
    t: usize,
    row: usize,
    node: usize,
) -> usize {
    set(input, at, 0, version);
    set(input, at, 5, tau);
    set(input, at, 6, k);
    set(input, at, 7, w);
    set(input, at, 8, t / 256);
    set(input, at, 9, t);
    set(input, at, 12, row / 256);
    set(input, at, 13, row);
    if 1 < version {
        set(input, at, 14, node);
    }
    if 2 < version {
        set(input, at, 15, 1);
    }
    field(input, at.saturating_add(1), 8 + version.min(3))
}

// A record from a place on; answers the place behind it.
fn record(
    input: &mut [u8],
    at: usize,
    version: usize,
    tau: usize,
    k: usize,
    w: usize,
    t: usize,
    row: usize,
    node: usize,
    corrections: usize,
    opening: usize,
) -> usize {
    let two = head(input, at, version, tau, k, w, t, row, node);
    let three = field(input, two, 16);
    let four = field(input, three, node);
    let five = field(input, four, corrections);
    let six = field(input, five, opening);
    field(input, six, 2 * node.min(32))
}

// The first n bytes over and over, up to a length.
fn repeat(input: &mut [u8], n: usize, length: usize) {
    for p in n..length.min(input.len()) {
        input[p] = input[p - n];
    }
}

// No record; a byte that begins none; the smallest records of versions 1 and 2; the default; FAEST-128s.
fn single(rt: &impl Print, input: &mut [u8]) -> io::Result<()> {
    input.fill(0);
    run(rt, input, 0, 0)?;
    run(rt, input, 1, 0)?;
    let a = record(input, 0, 1, 1, 1, 127, 1, 8, 16, 0, 64);
    run(rt, input, a, 0)?;
    input.fill(0);
    let b = record(input, 0, 2, 1, 1, 127, 2, 8, 16, 0, 80);
    run(rt, input, b, 0)?;
    input.fill(0);
    let c = record(input, 0, 2, 0, 0, 0, 0, 16, 16, 30, 2528);
    run(rt, input, c, 0)?;
    input.fill(0);
    let d = record(input, 0, 1, 11, 11, 7, 102, 8, 16, 10, 2160);
    run(rt, input, d, 0)
}

// Levels 192 and 256, and level 128 behind them; the largest T.
fn levels(rt: &impl Print, input: &mut [u8]) -> io::Result<()> {
    input.fill(0);
    let a = record(input, 0, 2, 6, 11, 126, 70, 8, 24, 5, 2112);
    let b = record(input, a, 2, 11, 12, 124, 140, 8, 32, 10, 5536);
    let c = record(input, b, 2, 2, 2, 124, 512, 8, 16, 1, 8288);
    let d = record(input, c, 1, 2, 2, 124, 4, 8, 16, 1, 160);
    run(rt, input, d, 0)?;
    set(input, a, 39, 255);
    set(input, c, 38, 12);
    run(rt, input, d, 0)
}

// The three versions one behind another; then another kind than 1 in a version 3 record, which stops.
fn kinds(rt: &impl Print, input: &mut [u8]) -> io::Result<()> {
    input.fill(0);
    let a = record(input, 0, 3, 1, 1, 127, 1, 8, 16, 0, 48);
    let b = record(input, a, 1, 1, 1, 127, 2, 8, 16, 0, 80);
    let c = record(input, b, 3, 2, 2, 124, 4, 8, 16, 1, 128);
    let d = record(input, c, 2, 1, 1, 127, 2, 8, 16, 0, 80);
    run(rt, input, d, 0)?;
    set(input, b, 15, 0);
    run(rt, input, d, 0)?;
    set(input, b, 15, 2);
    run(rt, input, d, 0)
}

// 4, 5 and 6 before, between and behind records that are counted, and where two of them hold the earlier one.
fn refused(rt: &impl Print, input: &mut [u8]) -> io::Result<()> {
    input.fill(0);
    let a = record(input, 0, 1, 1, 1, 127, 2, 8, 16, 0, 80);
    let b = record(input, a, 2, 2, 2, 124, 4, 8, 16, 1, 160);
    let c = record(input, b, 1, 1, 2, 126, 1, 8, 16, 0, 64);
    let d = record(input, c, 1, 1, 1, 127, 2, 8, 16, 0, 80);
    let e = record(input, d, 2, 2, 2, 124, 3, 8, 16, 1, 144);
    let f = record(input, e, 2, 1, 1, 127, 3, 8, 16, 0, 96);
    run(rt, input, f, 0)?;
    set(input, 53, 0, 128);
    set(input, c, 141, 1);
    set(input, d, 39, 12);
    run(rt, input, f, 0)?;
    set(input, a, 40, 1);
    set(input, b, 53, 1);
    set(input, c, 53, 255);
    set(input, d, 170, 7);
    set(input, e, 158, 2);
    run(rt, input, f, 0)
}

// 9 and 10: a version that is not known, a head and each other field of another length; nothing is read behind them.
fn stopped_by_fields(rt: &impl Print, input: &mut [u8]) -> io::Result<()> {
    input.fill(0);
    let a = record(input, 0, 2, 1, 1, 127, 2, 8, 16, 0, 80);
    let b = record(input, a, 1, 1, 1, 127, 2, 8, 16, 0, 80);
    let c = record(input, b, 1, 1, 1, 127, 2, 8, 16, 0, 80);
    run(rt, input, c, 0)?;
    set(input, a, 0, 0);
    run(rt, input, c, 0)?;
    set(input, a, 0, 4);
    run(rt, input, c, 0)?;
    set(input, a, 0, 2);
    run(rt, input, c, 0)?;
    set(input, a, 0, 1);
    set(input, a, 4, 10);
    run(rt, input, c, 0)?;
    set(input, a, 4, 9);
    set(input, a, 17, 15);
    run(rt, input, c, 0)?;
    set(input, a, 17, 16);
    set(input, a, 36, 1);
    run(rt, input, c, 0)?;
    set(input, a, 36, 0);
    set(input, a, 57, 1);
    run(rt, input, c, 0)?;
    set(input, a, 57, 0);
    set(input, a, 61, 81);
    run(rt, input, c, 0)?;
    set(input, a, 61, 80);
    set(input, a, 145, 31);
    run(rt, input, c, 0)
}

// 1 and 2 of field one, also where 9 and 10 do not hold; and before both of them.
fn stopped_by_front(rt: &impl Print, input: &mut [u8]) -> io::Result<()> {
    input.fill(0);
    let a = record(input, 0, 1, 1, 1, 127, 2, 8, 16, 0, 80);
    let b = record(input, a, 2, 1, 1, 127, 2, 8, 16, 0, 80);
    let c = record(input, b, 1, 1, 1, 127, 2, 8, 16, 0, 80);
    set(input, a, 14, 17);
    run(rt, input, c, 0)?;
    set(input, a, 14, 24);
    run(rt, input, c, 0)?;
    set(input, a, 14, 16);
    set(input, a, 13, 12);
    run(rt, input, c, 0)?;
    set(input, a, 13, 0);
    run(rt, input, c, 0)?;
    set(input, a, 11, 1);
    set(input, a, 13, 8);
    run(rt, input, c, 0)?;
    set(input, a, 5, 0);
    run(rt, input, c, 0)?;
    set(input, 9, 0, 0);
    run(rt, input, c, 0)?;
    set(input, 4, 0, 8);
    run(rt, input, c, 0)
}

// A record cut after others, and bytes behind the last record.
fn cut(rt: &impl Print, input: &mut [u8]) -> io::Result<()> {
    input.fill(0);
    let a = record(input, 0, 1, 1, 1, 127, 2, 8, 16, 0, 80);
    let b = record(input, a, 2, 2, 2, 124, 4, 8, 16, 1, 160);
    let c = record(input, b, 2, 1, 1, 127, 2, 8, 16, 0, 80);
    run(rt, input, a, 1)?;
    run(rt, input, a, 14)?;
    run(rt, input, a, 259)?;
    run(rt, input, b, 1)?;
    run(rt, input, b, 147)?;
    run(rt, input, b, 178)?;
    run(rt, input, c, 1)?;
    run(rt, input, c, 200)?;
    set(input, c, 0, 2);
    run(rt, input, c, 1)
}

// 256 records of 256 bytes: 65,536 bytes, one fewer, and one more. Then as many of the smallest as there is room for, and a part of another.
fn longest(rt: &impl Print, input: &mut [u8]) -> io::Result<()> {
    input.fill(0);
    let a = record(input, 0, 1, 2, 1, 126, 2, 240, 16, 30, 128);
    repeat(input, a, 65536);
    run(rt, input, 65536, 0)?;
    run(rt, input, 65535, 0)?;
    run(rt, input, 65537, 0)?;
    input.fill(0);
    run(rt, input, 65537, 0)?;
    let b = record(input, 0, 1, 1, 1, 127, 1, 8, 16, 0, 64);
    repeat(input, b, 65600);
    run(rt, input, 65536, 0)?;
    run(rt, input, 65600, 0)
}

fn main(rt: HostRuntime) -> io::Result<()> {
    let mut input = [0u8; 65600];
    single(&rt, &mut input)?;
    levels(&rt, &mut input)?;
    kinds(&rt, &mut input)?;
    refused(&rt, &mut input)?;
    stopped_by_fields(&rt, &mut input)?;
    stopped_by_front(&rt, &mut input)?;
    cut(&rt, &mut input)?;
    longest(&rt, &mut input)
}
