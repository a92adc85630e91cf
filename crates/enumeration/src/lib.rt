// The program that lists all challenges of a small shape (document 02, E10), from the bytes of its input to the bytes of its output, piece after piece.
#![tactic(auto)]

ghost use Rattle.std.specs.Prelude.{◌≡◌, true, cond, List, [], ◌∷◌, ℕ, ◌+◌, ◌*◌, ◌^◌, ◌<◌, ◌≤◌, leb, length, take, drop};
ghost use Rattle.spec.specs.Calls.{first_refusal};
ghost use Rattle.spec.specs.declared.Shape.{Shape};
ghost use Rattle.spec.specs.Shapes.{level, shape_ok, planned_count};
ghost use Rattle.listing_text.specs.Put.{Put};
ghost use Rattle.enumeration_text.specs.Listed.{open_bits, challenge_at, listed_at, listed, within, total};
ghost use Rattle.enumeration_text.specs.Text.{line_text};
ghost use Rattle.enumeration.specs.Pieces.{Reads, Readable, lines_from, totals_text, line_pieces, list_piece, piece_count, piece_text};

use spec::Shape;

// What an input gives: 0 or the number of its refusal, and with 0 the shape, four zeros resolved. The number stands beside the shape because the
// theorem `Whole` (../specs/Pieces.antt) speaks of every such value.
#[derive(Clone, Copy)]
pub struct Reading {
    pub number: usize,
    pub shape: Shape,
}

// How many lines need at most T nodes, and the sum of all counts.
#[derive(Clone, Copy)]
struct Totals {
    within: usize,
    total: usize,
}

// 0, or the number of the first of the two rules that the shape breaks.
fn shape_number(s: Shape) -> usize
    ensures { result ≡ first_refusal ((shape_ok s, 1) ∷ (leb (open_bits s) 16, 12) ∷ []) }
{
    if !rules::is_shape(s) {
        return 1;
    }
    if 16 < s.level - s.w {
        return 12;
    }
    0
}

// Reads an input.
pub fn read(input: &[u8]) -> Reading
    ensures { Readable result × Reads input.now result }
{
    if !listing_line::shape_line_ok(input) {
        let none = Shape {
            tau: 0,
            k: 0,
            w: 0,
            t: 0,
            level: 128,
            kind: 0,
        };
        return Reading {
            number: 7,
            shape: none,
        };
    }
    let s = rules::resolve(listing_line::shape_of(input));
    let number = shape_number(s);
    Reading { number, shape: s }
}

// Reads an input of which the first n bytes, at most 64, are there: of a longer one 64 are enough.
pub fn read_start(start: [u8; 64], n: usize) -> Reading
    requires { n ≤ 64 }
    ensures { Readable result × ((input : List ℕ) → take 64 input ≡ take n start → Reads input result) }
{
    read(&start[..n])
}

// The bytes of challenge x at level 128: x, least byte first.
fn challenge_at(x: usize) -> [u8; 16]
    ensures { (s : Shape) → level s ≡ 128 → result ≡ challenge_at s x }
{
    let mut challenge = [0u8; 16];
    let mut rest = x;
    for byte in &mut challenge {
        *byte = (rest % 256) as u8;
        rest = rest / 256;
    }
    challenge
}

// The node count of a challenge. The list has room for one node, and is not read.
fn count_of(s: Shape, challenge: [u8; 16]) -> usize
    requires { (shape_ok s ≡ true) × (level s ≡ 128) }
    ensures { (result ≡ planned_count s challenge) × (result < 86016) }
{
    let mut none = [0u32; 1];
    planning::revealed_nodes(s, &challenge, &mut none)
}

// Puts the line of challenge x.
fn put_line(s: Shape, x: usize, out: &mut [u8], at: usize) -> usize
    requires { (shape_ok s ≡ true) × (level s ≡ 128) × (at + 39 ≤ length out.old) }
    ensures { (Put (line_text (listed_at s x)) at out.old out.new result) × (result ≤ at + 39) }
{
    let challenge = challenge_at(x);
    let count = count_of(s, challenge);
    enumeration_text::put_listed(out, at, &challenge, count)
}

// Puts n lines, from line `from` on.
fn put_lines(s: Shape, from: usize, n: usize, out: &mut [u8]) -> usize
    requires { (shape_ok s ≡ true) × (level s ≡ 128) × (from + n ≤ 65536) × (39 * n ≤ length out.old) }
    ensures { Put (lines_from s from n) 0 out.old out.new result }
{
    let mut end = 0;
    for i in 0..n {
        end = put_line(s, from + i, out, end);
    }
    end
}

// How many challenges are listed.
fn line_count(s: Shape) -> usize
    requires { (shape_ok s ≡ true) × (open_bits s ≤ 16) }
    ensures { (result ≡ 2 ^ open_bits s) × (1 ≤ result) × (result ≤ 65536) }
{
    1usize << (s.level - s.w)
}

// 1 for a count that is at most t, and else 0.
fn one_within(count: usize, t: usize) -> usize
    ensures { (result ≡ cond (leb count t) 1 0) × (result ≤ 1) }
{
    if count <= t { 1 } else { 0 }
}

// What the lines give, counted anew.
fn count_all(s: Shape) -> Totals
    requires { (shape_ok s ≡ true) × (open_bits s ≤ 16) }
    ensures { (result.within ≡ within s.t (listed s)) × (result.total ≡ total (listed s)) × (result.within ≤ 65536) × (result.total ≤ 5637144576) }
{
    let all = line_count(s);
    let t = s.t;
    let mut within: usize = 0;
    let mut total: usize = 0;
    for x in 0..all {
        let count = count_of(s, challenge_at(x));
        within += one_within(count, t);
        total += count;
    }
    Totals { within, total }
}

// Puts the last line.
fn put_totals(s: Shape, out: &mut [u8]) -> usize
    requires { (shape_ok s ≡ true) × (open_bits s ≤ 16) × (22 ≤ length out.old) }
    ensures { Put (totals_text s) 0 out.old out.new result }
{
    let t = count_all(s);
    listing_text::put_pair(out, 0, t.within, t.total)
}

// How many pieces the lines have.
fn line_pieces(s: Shape) -> usize
    requires { (shape_ok s ≡ true) × (open_bits s ≤ 16) }
    ensures { (result ≡ line_pieces s) × (result ≤ 64) }
{
    (line_count(s) + 1023) / 1024
}

// How many pieces the output has.
pub fn piece_count(r: Reading) -> usize
    requires { Readable r }
    ensures { result ≡ piece_count r }
{
    if r.number != 0 {
        return 1;
    }
    let s = r.shape;
    line_pieces(s) + 1
}

// Puts piece i of the output of a shape.
fn put_list_piece(s: Shape, i: usize, out: &mut [u8]) -> usize
    requires { (shape_ok s ≡ true) × (open_bits s ≤ 16) × (39936 ≤ length out.old) }
    ensures { Put (list_piece s i) 0 out.old out.new result }
{
    if i < line_pieces(s) {
        let from = 1024 * i;
        let n = (line_count(s) - from).min(1024);
        return put_lines(s, from, n, out);
    }
    put_totals(s, out)
}

// Writes piece i of the output to the front of `out`, and answers its length.
pub fn put_piece(r: Reading, i: usize, out: &mut [u8]) -> usize
    requires { Readable r × (39936 ≤ length out.old) }
    ensures { (result ≤ length out.new) × (take result out.new ≡ piece_text r i) × (drop result out.new ≡ drop result out.old) }
{
    if r.number != 0 {
        return listing_text::put_refused(out, r.number);
    }
    let s = r.shape;
    put_list_piece(s, i, out)
}
