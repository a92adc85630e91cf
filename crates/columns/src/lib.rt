// Blocks of a row, and whole strings, xored straight into the columns of a vector that is lent. No row is ever held.
#![tactic(auto)]

ghost use Rattle.std.specs.Prelude.{◌≡◌, ◌+◌, ◌-◌, ◌*◌, ◌≤◌, ◌<◌, length, get_or};
ghost use Rattle.spec.specs.Bytes.{bit, tabulate};
ghost use Rattle.columns.specs.Columns.{Xored, Added, Done};

// Xors the digit's multiple of a string into d from byte `at` on. The digit is 0 or 1: it selects without a branch.
fn xor_bytes(d: &mut [u8], at: usize, digit: u8, bytes: &[u8])
    requires { (at + length bytes.now ≤ length d.old) × (digit < 2) }
    ensures { Xored at (at + length bytes.now) (λ p. digit * get_or bytes.now (p - at) 0) d.old d.new }
{
    let n = bytes.len();
    for i in 0..n {
        d[at + i] = d[at + i] ^ (digit * bytes[i]);
    }
}

// Xors the bytes of a string from byte `at` on, as many as the sum has, into the sum.
pub fn add_part(sum: &mut [u8], bytes: &[u8], at: usize)
    requires { at + length sum.old ≤ length bytes.now }
    ensures { Xored 0 (length sum.old) (λ p. get_or bytes.now (at + p) 0) sum.old sum.new }
{
    let n = sum.len();
    xor_bytes(sum, 0, 1, &bytes[at..at + n]);
}

// Xors a string of b bytes into each of k columns of b bytes whose bit the number has set.
pub fn add_bytes(cols: &mut [u8], b: usize, k: usize, number: usize, bytes: &[u8])
    requires { (k ≤ 12) × (length bytes.now ≡ b) × (length cols.old ≡ b * k) }
    ensures { Added b k (λ j p. bit j number * get_or bytes.now p 0) cols.old cols.new }
{
    for j in 0..k {
        xor_bytes(cols, b * j, ((number >> j) % 2) as u8, bytes);
    }
}

// Xors a block into d from byte `at` on.
fn xor_16(d: &mut [u8], at: usize, block: [u8; 16])
    requires { at + 16 ≤ length d.old }
    ensures { Xored at (at + 16) (λ p. get_or block (p - at) 0) d.old d.new }
{
    for i in 0..16 {
        d[at + i] = d[at + i] ^ block[i];
    }
}

// The same for its n bytes from byte `from` on. A whole block has a function of its own, so that the compiler knows the count.
pub fn xor_block(d: &mut [u8], at: usize, from: usize, n: usize, block: [u8; 16])
    requires { (from + n ≤ 16) × (at + n ≤ length d.old) }
    ensures { Xored at (at + n) (λ p. get_or block (from + (p - at)) 0) d.old d.new }
{
    if n == 16 {
        xor_16(d, at, block);
    } else {
        xor_bytes(d, at, 1, &block[from..from + n]);
    }
}

// The 16 bytes of d from byte `at` on.
fn block_at(d: &[u8], at: usize) -> [u8; 16]
    requires { at + 16 ≤ length d.now }
    ensures { result ≡ tabulate 16 (λ i. get_or d.now (at + i) 0) }
{
    let mut block = [0u8; 16];
    for i in 0..16 {
        block[i] = d[at + i];
    }
    block
}

// Xors n bytes of d from byte `from` on into those from byte `to` on, which stand before them. By blocks, for which the compiler sees that they do not overlap.
// The loop is a `while`, since a turn goes on by 16 bytes or by one.
fn xor_within(d: &mut [u8], from: usize, to: usize, n: usize)
    requires { (to + n ≤ from) × (from + n ≤ length d.old) }
    ensures { Xored to (to + n) (λ p. get_or d.old (from + (p - to)) 0) d.old d.new }
{
    let mut at = 0;
    while at < n {
        if 16 <= n - at {
            let block = block_at(d, from + at);
            xor_16(d, to + at, block);
            at += 16;
        } else {
            d[to + at] = d[to + at] ^ d[from + at];
            at += 1;
        }
    }
}

// Xors the last of h + 1 columns of b bytes into each of the others whose bit the number has set.
pub fn add_last(cols: &mut [u8], b: usize, h: usize, number: usize)
    requires { (h ≤ 11) × (length cols.old ≡ b * (h + 1)) }
    ensures { Done b h (λ j p. bit j number * get_or cols.old (b * h + p) 0) cols.old cols.new }
{
    for j in 0..h {
        let set = (number >> j) % 2 == 1;
        if set {
            xor_within(cols, b * h, b * j, b);
        }
    }
}
