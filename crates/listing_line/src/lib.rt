// Reads the line of the listing program, four numbers, each with a space behind it, and a challenge in hexadecimal; and the line that has the four numbers alone.
#![tactic(auto)]

ghost use Rattle.std.specs.Prelude.{◌≡◌, true, ◌<◌, ◌≤◌, length};
ghost use Rattle.listing_line.specs.Line.{is_digit, digit_run, number_ok, number_of, after_number, behind};
ghost use Rattle.listing_line.specs.Line.{is_hex_digit, hex_value, hex_below, challenge_ok, challenge_of};
ghost use Rattle.listing_line.specs.Line.{line_ok, last_number_ok, shape_line_ok, ShortNumbers, shape_of};

use spec::Shape;

fn is_digit(c: u8) -> bool
    ensures { result ≡ is_digit c }
{
    (b'0' <= c) & (c <= b'9')
}

// How many decimal digits a text begins with.
fn digit_run(text: &[u8]) -> usize
    ensures { (result ≡ digit_run text.now) × (result ≤ length text.now) }
{
    for (i, c) in text.iter().enumerate() {
        if !is_digit(*c) {
            return i;
        }
    }
    text.len()
}

// Whether a text begins with a number of one to five digits and a space.
fn number_ok(text: &[u8]) -> bool
    ensures { result ≡ number_ok text.now }
{
    let n = digit_run(text);
    if n == text.len() {
        return false;
    }
    (1 <= n) & (n <= 5) & (text[n] == b' ')
}

// The number that a text begins with.
fn number_of(text: &[u8]) -> usize
    requires { digit_run text.now ≤ 5 }
    ensures { result ≡ number_of text.now }
{
    let n = digit_run(text);
    let mut v: usize = 0;
    for i in 0..n {
        v = 10 * v + (text[i] - b'0') as usize;
    }
    v
}

// What stands behind a number and one byte more.
fn after_number(text: &[u8]) -> &[u8]
    ensures { result.now ≡ after_number text.now }
{
    let n = digit_run(text);
    if n == text.len() {
        return &text[n..];
    }
    &text[n + 1..]
}

// What stands behind n numbers.
pub fn behind(input: &[u8], n: usize) -> &[u8]
    ensures { result.now ≡ behind n input.now }
{
    let mut text = input;
    for _i in 0..n {
        text = after_number(text);
    }
    text
}

fn is_hex_digit(c: u8) -> bool
    ensures { result ≡ is_hex_digit c }
{
    is_digit(c) | ((b'a' <= c) & (c <= b'f'))
}

// The value of a hexadecimal digit.
fn hex_value(c: u8) -> u8
    requires { is_hex_digit c ≡ true }
    ensures { (result ≡ hex_value c) × (result < 16) }
{
    if is_digit(c) {
        return c - b'0';
    }
    c - b'a' + 10
}

// Whether each of the first n bytes is a hexadecimal digit.
fn hex_below(text: &[u8], n: usize) -> bool
    requires { n ≤ length text.now }
    ensures { result ≡ hex_below n text.now }
{
    for i in 0..n {
        if !is_hex_digit(text[i]) {
            return false;
        }
    }
    true
}

// Whether a text is 32 hexadecimal digits and at most a line feed.
fn challenge_ok(text: &[u8]) -> bool
    ensures { result ≡ challenge_ok text.now }
{
    let n = text.len();
    if n == 32 {
        return hex_below(text, 32);
    }
    if n == 33 {
        return hex_below(text, 32) & (text[32] == b'\n');
    }
    false
}

// The challenge, two digits for each byte.
pub fn challenge_of(text: &[u8]) -> [u8; 16]
    requires { challenge_ok text.now ≡ true }
    ensures { result ≡ challenge_of text.now }
{
    let mut challenge = [0u8; 16];
    for (i, byte) in challenge.iter_mut().enumerate() {
        *byte = 16 * hex_value(text[2 * i]) + hex_value(text[2 * i + 1]);
    }
    challenge
}

// Whether an input is a whole line.
pub fn line_ok(input: &[u8]) -> bool
    ensures { result ≡ line_ok input.now }
{
    number_ok(input)
        & number_ok(behind(input, 1))
        & number_ok(behind(input, 2))
        & number_ok(behind(input, 3))
        & challenge_ok(behind(input, 4))
}

// Whether a text is a number of one to five digits and at most a line feed.
fn last_number_ok(text: &[u8]) -> bool
    ensures { result ≡ last_number_ok text.now }
{
    let n = digit_run(text);
    if n == text.len() {
        return (1 <= n) & (n <= 5);
    }
    (1 <= n) & (n <= 5) & ((text.len() == n + 1) & (text[n] == b'\n'))
}

// Whether an input is a line that has the four numbers alone.
pub fn shape_line_ok(input: &[u8]) -> bool
    ensures { result ≡ shape_line_ok input.now }
{
    number_ok(input)
        & number_ok(behind(input, 1))
        & number_ok(behind(input, 2))
        & last_number_ok(behind(input, 3))
}

// The shape that a line gives, at level 128 and with ordinary leaves.
pub fn shape_of(input: &[u8]) -> Shape
    requires { ShortNumbers input.now }
    ensures { result ≡ shape_of input.now }
{
    Shape {
        tau: number_of(input),
        k: number_of(behind(input, 1)),
        w: number_of(behind(input, 2)),
        t: number_of(behind(input, 3)),
        level: 128,
        kind: 0,
    }
}
