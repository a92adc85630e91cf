// Runs the program that lists all challenges on fixed inputs and writes the outputs one after another, of long ones the SHAKE128 digest. `stdout` holds what
// reference/ derives.
#![tactic(auto)]

use shake::Sponge;
use std::io;
use test_support::print::Hex;

// The outputs of these are written out.
const SHORT: [&str; 12] = [
    // Shapes of document 01's examples; the last without a line feed, and with leading zeros.
    "1 1 127 1\n",
    "2 2 124 4\n",
    "2 2 124 3\n",
    "2 2 124 1\n",
    "3 1 125 2\n",
    "3 1 125 512\n",
    "1 3 125 2",
    "00002 00002 00124 00004\n",
    // Two depths.
    "2 1 125 2\n",
    "2 2 123 4\n",
    "3 1 124 3\n",
    "3 2 121 5\n",
];

// Of the outputs of these the digest is written.
const LONG: [&str; 8] = [
    // Pieces: half a piece of 1,024 lines, one, two, four, and 64; even and uneven, one vector and sixteen.
    "3 3 119 7\n",
    "5 2 118 9\n",
    "2 5 117 8\n",
    "1 12 116 12\n",
    "8 2 112 9\n",
    "16 1 112 8\n",
    "2 8 112 13\n",
    "5 3 112 13\n",
];

// The outputs of these are one line each.
const REFUSED: [&str; 46] = [
    // Refusal 12: the default, FAEST's sets, and the shapes next to 16 bits.
    "0 0 0 0\n",
    "0 00 0 00000\n",
    "11 11 7 102\n",
    "16 7 8 110\n",
    "17 1 111 8\n",
    "16 1 111 8\n",
    "2 8 111 13\n",
    // Refusal 1.
    "0 0 0 1\n",
    "0 1 127 1\n",
    "33 1 95 8\n",
    "1 13 115 4\n",
    "1 12 115 4\n",
    "2 2 122 4\n",
    "2 2 125 4\n",
    "1 1 128 1\n",
    "2 2 124 0\n",
    "2 2 124 513\n",
    "99999 99999 99999 99999\n",
    // Refusal 7: nothing, what follows T, a line of the listing program, numbers missing or one too many.
    "",
    "\n",
    "2\n",
    "2 2\n",
    "2 2 124\n",
    "2 2 124 \n",
    "2 2 124 4 ",
    "2 2 124 4 \n",
    "2 2 124 4\n\n",
    "2 2 124 4\r\n",
    "2 2 124 4\n2",
    "2 2 124 4x",
    "2 2 124 4 0\n",
    "2 2 124 4 0c000000000000000000000000000000\n",
    "00002 00002 00124 00004\n2",
    // Refusal 7: other spaces, six digits, signs, other digits; and a line whose shape is refused too.
    "2 2 124\t4\n",
    "2 2  124 4\n",
    " 2 2 124 4\n",
    "\n2 2 124 4\n",
    "000002 2 124 4\n",
    "2 2 124 000004\n",
    "2 2 124 -4\n",
    "+2 2 124 4\n",
    "2 2 124 0x4\n",
    "2,2,124,4\n",
    "2 2 12: 4\n",
    "2 2 124 /\n",
    "99 99 99 zz\n",
];

// Writes the output.
fn run(rt: &impl Print, input: &str) -> io::Result<()> {
    let r = enumeration::read(input.as_bytes());
    let mut out = [0u8; 65536];
    for i in 0..enumeration::piece_count(r) {
        let m = enumeration::put_piece(r, i, &mut out);
        rt.write_all(&out[..m])?;
    }
    Ok(())
}

// 32 bytes of SHAKE128 of the output.
fn digest(input: &[u8]) -> [u8; 32] {
    let r = enumeration::read(input);
    let mut out = [0u8; 65536];
    let mut sponge = Sponge::new(168);
    for i in 0..enumeration::piece_count(r) {
        let m = enumeration::put_piece(r, i, &mut out);
        sponge = sponge.absorb(&out[..m]);
    }
    let mut bytes = [0u8; 32];
    sponge.squeeze(&mut bytes);
    bytes
}

fn main(rt: HostRuntime) -> io::Result<()> {
    for input in SHORT {
        run(&rt, input)?;
    }
    for input in LONG {
        println!(rt; "shake128 {}", Hex(&digest(input.as_bytes())))?;
    }
    for input in REFUSED {
        run(&rt, input)?;
    }
    Ok(())
}
