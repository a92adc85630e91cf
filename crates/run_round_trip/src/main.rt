// Commit, open and reconstruct at FAEST-128s and at two small shapes, and of a stretch of the rows at FAEST-128s, by the proved round trip: the answers, the
// commitment of both halves, how many columns agree, and the opened nodes. `stdout` holds what reference/ derives (reference/round_trip.py).
#![tactic(auto)]

use round_trip_report::run;
use spec::Shape;
use std::io;
use test_support::lengths::Rows;

// A shape at level 128, of kind 0.
const fn shape(tau: usize, k: usize, w: usize, t: usize) -> Shape {
    Shape {
        tau,
        k,
        w,
        t,
        level: 128,
        kind: 0,
    }
}

// A challenge that begins with these bytes and is zeros behind them.
fn challenge(first: [u8; 2]) -> [u8; 16] {
    let mut bytes = [0; 16];
    bytes[..2].copy_from_slice(&first);
    bytes
}

fn main(rt: HostRuntime) -> io::Result<()> {
    let faest_128s = shape(11, 11, 7, 102);
    let long = *b"\xef\xe3\x4b\x32\x4e\x8c\xc9\xab\x25\x79\x40\xfe\x1b\xd0\x38\x00";
    run(&rt, faest_128s, Rows::whole(1680), long)?;
    run(
        &rt,
        shape(2, 2, 124, 4),
        Rows::whole(8),
        challenge([0x0c, 0]),
    )?;
    run(
        &rt,
        shape(3, 3, 119, 8),
        Rows::whole(136),
        challenge([0x6a, 1]),
    )?;
    run(&rt, faest_128s, Rows::part(1680, 13, 37), long)
}
