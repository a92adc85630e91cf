// What a round trip found, as text on standard output: the answers of the three calls, the commitment of both halves, how many columns agree, and the
// opened nodes.
#![tactic(auto)]

use round_trip::Answers;
use spec::{Answer, Shape, Stretch};
use std::alloc::{AllocError, Global};
use std::io;
use test_support::lengths::{Lengths, Rows};
use test_support::parts::{front, front_mut};
use test_support::print::Hex;

fn say_shape(rt: &impl Print, s: Shape, rows: Rows) -> io::Result<()> {
    print!(rt;
        "shape {} {} {} {}, rows of {} bits",
        s.tau, s.k, s.w, s.t, rows.bits
    )?;
    if let Some(Stretch { first, width }) = rows.stretch {
        print!(rt; ", {width} bytes from byte {first} on")?;
    }
    println!(rt;)
}

fn say_answer(rt: &impl Print, call: &str, a: Answer) -> io::Result<()> {
    println!(rt; "{call} answers {} with count {}", a.number, a.count)
}

// Whether column q is column v, xored with u where the bit is 1.
fn agrees(bit: u8, u: &[u8], v: &[u8], q: &[u8]) -> bool {
    let expected = u
        .iter()
        .zip(v)
        .map(|(u, v)| if bit == 1 { v ^ u } else { *v });
    expected.zip(q).all(|(x, q)| x == *q)
}

// How many of the 128 columns of q are those that the challenge asks for. Columns of no bytes agree.
fn agreeing(challenge: &[u8; 16], u: &[u8], v: &[u8], q: &[u8]) -> usize {
    if u.is_empty() {
        return 128;
    }
    let mut columns = v.chunks_exact(u.len()).zip(q.chunks_exact(u.len()));
    let mut n = 0;
    for c in 0..128 {
        let Some((v, q)) = columns.next() else {
            return n;
        };
        let bit = (challenge[c / 8] >> (c % 8)) % 2;
        if agrees(bit, u, v, q) {
            n += 1;
        }
    }
    n
}

// The nodes of the opening, by plan.
fn say_nodes(rt: &impl Print, s: Shape, challenge: &[u8; 16]) -> io::Result<()> {
    let mut nodes = [0u32; 512];
    let t = s.t.min(512);
    let a = shape::plan(s, challenge, &mut nodes[..t]);
    print!(rt; "opened nodes")?;
    for node in &nodes[..a.count.min(t)] {
        print!(rt; " {node}")?;
    }
    println!(rt;)
}

// What the three calls are lent: there is room for FAEST-128s with rows of 1680 bits. The checking half has the last four.
#[derive(Drop)]
struct Buffers {
    commitment: Vec<u8>,
    tree: Vec<u8>,
    leaf_commitments: Vec<u8>,
    u: Vec<u8>,
    v: Vec<u8>,
    corrections: Vec<u8>,
    opening: Vec<u8>,
    commitment2: Vec<u8>,
    tree2: Vec<u8>,
    leaf_commitments2: Vec<u8>,
    q: Vec<u8>,
}

impl Buffers {
    fn new(alloc: Global) -> Result<Buffers, AllocError> {
        Ok(Buffers {
            commitment: vec![in alloc; 0; 32]?,
            tree: vec![in alloc; 0; 720880]?,
            leaf_commitments: vec![in alloc; 0; 1081344]?,
            u: vec![in alloc; 0; 210]?,
            v: vec![in alloc; 0; 26880]?,
            corrections: vec![in alloc; 0; 2100]?,
            opening: vec![in alloc; 0; 2160]?,
            commitment2: vec![in alloc; 0; 32]?,
            tree2: vec![in alloc; 0; 720880]?,
            leaf_commitments2: vec![in alloc; 0; 1081344]?,
            q: vec![in alloc; 0; 26880]?,
        })
    }
    // The three calls on the front of each buffer, of whole rows.
    fn call_whole(&mut self, s: Shape, bits: usize, l: Lengths, challenge: &[u8]) -> Answers {
        round_trip::round_trip(
            s,
            bits,
            &ROOT,
            &IV,
            challenge,
            &mut self.commitment,
            front_mut(&mut self.tree, l.tree),
            front_mut(&mut self.leaf_commitments, l.leaf_commitments),
            front_mut(&mut self.u, l.u),
            front_mut(&mut self.v, l.v),
            front_mut(&mut self.corrections, l.corrections),
            front_mut(&mut self.opening, l.opening),
            &mut self.commitment2,
            front_mut(&mut self.tree2, l.tree),
            front_mut(&mut self.leaf_commitments2, l.leaf_commitments),
            front_mut(&mut self.q, l.v),
        )
    }

    // The same of a stretch of the rows.
    fn call_stretch(
        &mut self,
        s: Shape,
        bits: usize,
        stretch: Stretch,
        l: Lengths,
        challenge: &[u8],
    ) -> Answers {
        round_trip::round_trip_stretch(
            s,
            bits,
            stretch,
            &ROOT,
            &IV,
            challenge,
            &mut self.commitment,
            front_mut(&mut self.tree, l.tree),
            front_mut(&mut self.leaf_commitments, l.leaf_commitments),
            front_mut(&mut self.u, l.u),
            front_mut(&mut self.v, l.v),
            front_mut(&mut self.corrections, l.corrections),
            front_mut(&mut self.opening, l.opening),
            &mut self.commitment2,
            front_mut(&mut self.tree2, l.tree),
            front_mut(&mut self.leaf_commitments2, l.leaf_commitments),
            front_mut(&mut self.q, l.v),
        )
    }
}

const ROOT: [u8; 16] = *b"\x00\x01\x02\x03\x04\x05\x06\x07\x08\x09\x0a\x0b\x0c\x0d\x0e\x0f";

const IV: [u8; 16] = *b"\x10\x11\x12\x13\x14\x15\x16\x17\x18\x19\x1a\x1b\x1c\x1d\x1e\x1f";

// Makes the three calls, and writes to standard output what they answered and wrote.
pub fn run(
    rt: &(impl Print + AllocGlobal),
    s: Shape,
    rows: Rows,
    challenge: [u8; 16],
) -> io::Result<()> {
    let l = Lengths::of(s, rows);
    let mut b = Buffers::new(rt.alloc())?;
    say_shape(rt, s, rows)?;
    let r = match rows.stretch {
        None => b.call_whole(s, rows.bits, l, &challenge),
        Some(stretch) => b.call_stretch(s, rows.bits, stretch, l, &challenge),
    };
    say_answer(rt, "commit", r.made)?;
    say_answer(rt, "open", r.opened)?;
    say_answer(rt, "reconstruct", r.checked)?;
    println!(rt; "commitment of the signing half  {}", Hex(&b.commitment))?;
    println!(rt; "commitment of the checking half {}", Hex(&b.commitment2))?;
    let n = agreeing(
        &challenge,
        front(&b.u, l.u),
        front(&b.v, l.v),
        front(&b.q, l.v),
    );
    println!(rt; "{n} of 128 columns agree")?;
    say_nodes(rt, s, &challenge)
}
