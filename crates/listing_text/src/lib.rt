// Writes the texts of the listing program: each function puts one at a place of the output and answers the place behind it.
#![tactic(auto)]

ghost use Rattle.std.specs.Prelude.{[], ◌∷◌, ℕ, ◌+◌, ◌*◌, ◌<◌, ◌≤◌, length, get_or};
ghost use Rattle.listing_text.specs.Text.{decimal, refused_text, pair_text, nodes_text};
ghost use Rattle.listing_text.specs.Put.{Put, number_line, number_lines};

pub fn put_byte(out: &mut [u8], at: usize, b: u8) -> usize
    requires { at < length out.old }
    ensures { Put (b ∷ []) at out.old out.new result }
{
    out[at] = b;
    at + 1
}

pub fn put_bytes(out: &mut [u8], at: usize, bytes: &[u8]) -> usize
    requires { at + length bytes.now ≤ length out.old }
    ensures { Put bytes.now at out.old out.new result }
{
    let mut end = at;
    for byte in bytes {
        end = put_byte(out, end, *byte);
    }
    end
}

fn put_digit(out: &mut [u8], at: usize, d: usize) -> usize
    requires { (d < 10) × (at < length out.old) }
    ensures { Put ((48 + d) ∷ []) at out.old out.new result }
{
    put_byte(out, at, b'0' + d as u8)
}

// A number in decimal, without leading zeros.
pub fn put_decimal(out: &mut [u8], at: usize, n: usize) -> usize
    requires { at + length (decimal n) ≤ length out.old }
    ensures { Put (decimal n) at out.old out.new result }
{
    if n < 10 {
        return put_digit(out, at, n);
    }
    let end = put_decimal(out, at, n / 10);
    put_digit(out, end, n % 10)
}

// A number of at most five digits, and a line feed.
pub fn put_line(out: &mut [u8], at: usize, n: usize) -> usize
    requires { (n < 100000) × (at + 6 ≤ length out.old) }
    ensures { Put (number_line n) at out.old out.new result }
{
    let end = put_decimal(out, at, n);
    put_byte(out, end, b'\n')
}

// A line for each number.
fn put_lines(out: &mut [u8], at: usize, numbers: &[u32]) -> usize
    requires { (at + 6 * length numbers.now ≤ length out.old) × ((m : ℕ) → get_or numbers.now m 0 < 100000) }
    ensures { Put (number_lines numbers.now (length numbers.now)) at out.old out.new result }
{
    let mut end = at;
    for number in numbers {
        end = put_line(out, end, *number as usize);
    }
    end
}

// Two numbers of at most ten digits, with a space between them, and a line feed.
pub fn put_pair(out: &mut [u8], at: usize, m: usize, n: usize) -> usize
    requires { (m < 10000000000) × (n < 10000000000) × (at + 22 ≤ length out.old) }
    ensures { Put (pair_text m n) at out.old out.new result × (result ≤ at + 22) }
{
    let end = put_decimal(out, at, m);
    let next = put_byte(out, end, b' ');
    let last = put_decimal(out, next, n);
    put_byte(out, last, b'\n')
}

// `refused ` and the number, at a place.
pub fn put_refusal(out: &mut [u8], at: usize, number: usize) -> usize
    requires { (number < 100000) × (at + 14 ≤ length out.old) }
    ensures { Put (refused_text number) at out.old out.new result × (result ≤ at + 14) }
{
    let end = put_bytes(out, at, b"refused ");
    put_line(out, end, number)
}

// The same as all of the output.
pub fn put_refused(out: &mut [u8], number: usize) -> usize
    requires { (number < 100000) × (14 ≤ length out.old) }
    ensures { Put (refused_text number) 0 out.old out.new result }
{
    put_refusal(out, 0, number)
}

// `nodes ` and the count, then each node on its own line.
pub fn put_nodes(out: &mut [u8], nodes: &[u32]) -> usize
    requires { (length nodes.now < 100000) × (12 + 6 * length nodes.now ≤ length out.old) × ((m : ℕ) → get_or nodes.now m 0 < 100000) }
    ensures { Put (nodes_text nodes.now (length nodes.now)) 0 out.old out.new result }
{
    let at = put_bytes(out, 0, b"nodes ");
    let first = put_line(out, at, nodes.len());
    put_lines(out, first, nodes)
}
