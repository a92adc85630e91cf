// What the calls exported for a C host share: numbers in four bytes, least byte first, and how much of a slice or of a local list is lent to the call beneath.
#![tactic(auto)]

ghost use Rattle.std.specs.Prelude.{◌≡◌, true, ◌&&◌, cond, ◌++◌, ℕ, ◌*◌, ◌≤◌, ◌<◌, eqb, length, take, drop};
ghost use Rattle.spec.specs.Bytes.{digits};
ghost use Rattle.spec.specs.Calls.{count_given, written};
ghost use Rattle.spec.specs.HostCalls.{word_bytes, count_slice};

use spec::Answer;

// How many of n bytes are passed on: all of them, or none where the count slice has another length than 4, so that the call beneath refuses with 3 in its turn.
pub fn passed_on(n: usize, count: usize) -> usize
    ensures { (result ≡ cond (eqb count 4) n 0) × (result ≤ n) }
{
    if count == 4 {
        return n;
    }
    0
}

// How many numbers are lent for a slice of n bytes: as many as it holds, or `most`, which no shape asks for, where it holds no such list or the count slice has
// another length than 4.
pub fn numbers_in(n: usize, count: usize, most: usize) -> usize
    ensures { (result ≤ most) × ((m : ℕ) → m < most → eqb result m ≡ (eqb count 4 && eqb n (4 * m))) }
{
    if count != 4 {
        return most;
    }
    if n % 4 != 0 {
        return most;
    }
    if most < n / 4 {
        return most;
    }
    n / 4
}

// Writes a number.
fn put_word(x: usize, out: &mut [u8])
    requires { length out.old ≡ 4 }
    ensures { out.new ≡ digits 8 4 x }
{
    out[0] = (x % 256) as u8;
    out[1] = (x / 256 % 256) as u8;
    out[2] = (x / 65536 % 256) as u8;
    out[3] = (x / 16777216 % 256) as u8;
}

// Writes numbers to the front of a slice.
fn put_words(words: &[u32], out: &mut [u8])
    requires { 4 * length words.now ≤ length out.old }
    ensures { out.new ≡ word_bytes words.now ++ drop (4 * length words.now) out.old }
{
    for (i, word) in words.iter().enumerate() {
        let at = 4 * i;
        put_word(*word as usize, &mut out[at..at + 4]);
    }
}

// Writes the first n numbers to the front of a slice, with answer 0.
pub fn put_list(number: usize, words: &[u32], n: usize, out: &mut [u8])
    requires { number ≡ 0 → (n ≤ length words.now) × (4 * n ≤ length out.old) }
    ensures { out.new ≡ written number (word_bytes (take n words.now) ++ drop (4 * n) out.old) out.old }
{
    if number == 0 {
        put_words(&words[..n], out);
    }
}

// Whether a call that answers `number` gives the count.
fn count_given(number: usize) -> bool
    ensures { result ≡ count_given number }
{
    (number == 0) | ((number == 5) | (number == 6))
}

// An answer for a C host: its number is returned, and its count written where it is given.
pub fn give(a: Answer, count: &mut [u8]) -> usize
    requires { count_given a.number ≡ true → length count.old ≡ 4 }
    ensures { (result ≡ a.number) × (count.new ≡ count_slice a.number a.count count.old) }
{
    if count_given(a.number) {
        put_word(a.count, count);
    }
    a.number
}
