// Writes the texts of the program that lists all challenges of a shape: each function puts one at a place of the output and answers the place behind it.
#![tactic(auto)]

ghost use Rattle.std.specs.Prelude.{◌≡◌, [], ◌∷◌, ◌+◌, ◌*◌, ◌<◌, ◌≤◌, length};
ghost use Rattle.listing_text.specs.Put.{Put};
ghost use Rattle.enumeration_text.specs.Listed.{Listed};
ghost use Rattle.enumeration_text.specs.Text.{hex_digit, hex_byte, hex_text, line_text};

fn hex_digit(d: u8) -> u8
    requires { d < 16 }
    ensures { result ≡ hex_digit d }
{
    if d < 10 { b'0' + d } else { b'a' - 10 + d }
}

// The two hexadecimal digits of a byte.
fn put_hex_byte(out: &mut [u8], at: usize, b: u8) -> usize
    requires { at + 2 ≤ length out.old }
    ensures { Put (hex_byte b) at out.old out.new result }
{
    let end = listing_text::put_byte(out, at, hex_digit(b / 16));
    listing_text::put_byte(out, end, hex_digit(b % 16))
}

// A string of bytes in hexadecimal, byte 0 first.
fn put_hex(out: &mut [u8], at: usize, bytes: &[u8]) -> usize
    requires { at + 2 * length bytes.now ≤ length out.old }
    ensures { Put (hex_text bytes.now) at out.old out.new result }
{
    let mut end = at;
    for byte in bytes {
        end = put_hex_byte(out, end, *byte);
    }
    end
}

// A line: the challenge, a space and the node count, of at most five digits.
pub fn put_listed(out: &mut [u8], at: usize, challenge: &[u8], count: usize) -> usize
    requires { (length challenge.now ≡ 16) × (count < 100000) × (at + 39 ≤ length out.old) }
    ensures { (Put (line_text (record { challenge = challenge.entry.now; count = count })) at out.old out.new result) × (result ≤ at + 39) }
{
    let end = put_hex(out, at, challenge);
    let next = listing_text::put_byte(out, end, b' ');
    listing_text::put_line(out, next, count)
}
