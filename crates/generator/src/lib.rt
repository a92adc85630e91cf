// The generator, for keys of 128, 192 and 256 bits: AES in counter mode. That of document 000, section 3.3, figure 3.6, with a tweak, and that of version 1,
// which differs in the counter alone.
#![tactic(auto)]

ghost use Rattle.std.specs.Prelude.{◌≡◌, List, ℕ, ◌+◌, ◌*◌, ◌%◌, ◌^◌, ◌<◌, ◌≤◌, length};
ghost use Rattle.spec.specs.Bytes.{tabulate};
ghost use Rattle.spec.specs.Aes.{state_of};
ghost use Rattle.spec.specs.Generator.{add_to_word, add_to_upper_word, add_to_lower_word};
ghost use Rattle.spec.specs.Version1.{add_to_iv};
ghost use Rattle.job.specs.Versions.{counter_of, block_of, byte_of};
ghost use Rattle.aes_keys.specs.Scheduled.{Expands};
ghost use Rattle.generator.specs.Stored.{Stored};

use aes::{Blocks, KeySchedule, Sbox};
use job::{Nonce, Version};

// An IV of 16 lent bytes.
pub fn load_iv(s: &[u8]) -> [u8; 16]
    requires { length s.now ≡ 16 }
    ensures { result ≡ s.now }
{
    aes::bytes_of(aes::load_state(s))
}

fn add_to_word(a: [u8; 4], v: u32) -> [u8; 4]
    ensures { result ≡ add_to_word a v }
{
    aes::unpack(aes::pack(a).wrapping_add(v))
}

// The counter of version 2: the tweak goes into the upper word, the block's number into the lower one.
fn add_to_words(iv: [[u8; 4]; 4], tweak: u32, n: u32) -> [[u8; 4]; 4]
    ensures { result ≡ add_to_lower_word (add_to_upper_word iv tweak) n }
{
    [
        add_to_word(iv[0], n),
        iv[1],
        iv[2],
        add_to_word(iv[3], tweak),
    ]
}

// The counter of version 1: n is added to the whole IV, the highest byte first, from its last byte on as far as something is carried.
fn add_to_iv(iv: [u8; 16], n: u32) -> [u8; 16]
    ensures { result ≡ add_to_iv iv n }
{
    let mut out = iv;
    let mut carry = n as u64;
    for i in 0..16 {
        if carry == 0 {
            return out;
        }
        let at = 15 - i;
        let sum = (out[at] as u64) + carry;
        out[at] = (sum % 256) as u8;
        carry = sum / 256;
    }
    out
}

// What block n encrypts.
fn counter(x: Nonce, n: u32) -> [[u8; 4]; 4]
    ensures { result ≡ counter_of x.version x.iv x.tweak n }
{
    let iv = x.iv;
    let version = x.version;
    match version {
        Version::One => {
            let whole = add_to_iv(iv, n);
            aes::load_state(&whole)
        }
        Version::Two => add_to_words(aes::load_state(&iv), x.tweak, n),
    }
}

// Block n of any key whose schedule it is.
pub fn block(sbox: &Sbox, schedule: &KeySchedule, x: Nonce, n: u32) -> [u8; 16]
    ensures { (nk : ℕ) (key : List ℕ) → Expands nk key schedule.now → result ≡ block_of nk key x n }
{
    aes::bytes_of(aes::encrypt(sbox, schedule, counter(x, n)))
}

// Blocks n and n + 1, encrypted together.
pub fn block_pair(sbox: &Sbox, schedule: &KeySchedule, x: Nonce, n: u32) -> Blocks
    requires { n + 1 < 2 ^ 32 }
    ensures first { (nk : ℕ) (key : List ℕ) → Expands nk key schedule.now → result.first ≡ block_of nk key x n }
    ensures second { (nk : ℕ) (key : List ℕ) → Expands nk key schedule.now → result.second ≡ block_of nk key x (n + 1) }
{
    let iv = x.iv;
    let version = x.version;
    match version {
        Version::One => {
            let one = block(sbox, schedule, x, n);
            let two = block(sbox, schedule, x, n + 1);
            Blocks {
                first: one,
                second: two,
            }
        }
        Version::Two => {
            let s = aes::load_state(&iv);
            aes::encrypt_pair(
                sbox,
                schedule,
                add_to_words(s, x.tweak, n),
                add_to_words(s, x.tweak, n + 1),
            )
        }
    }
}

// Stores a whole block at place p of out: a copy of 16 bytes, which is quicker where their number is a constant.
fn store_whole(block: [u8; 16], p: usize, out: &mut [u8]) -> usize
    requires { p + 16 ≤ length out.old }
    ensures { Stored block 0 p result out.old out.new }
{
    for k in 0..16 {
        out[p + k] = block[k];
    }
    p + 16
}

// Stores the block's bytes from byte `from` on, as many as there is room for.
fn store_part(block: [u8; 16], from: usize, p: usize, out: &mut [u8]) -> usize
    requires { (from < 16) × (p ≤ length out.old) }
    ensures { Stored block from p result out.old out.new }
{
    let n = (16 - from).min(out.len() - p);
    for k in 0..n {
        out[p + k] = block[from + k];
    }
    p + n
}

// Stores the block's bytes from byte `from` on at place p of out, and gives the place after them.
fn store(block: [u8; 16], from: usize, p: usize, out: &mut [u8]) -> usize
    requires { (from < 16) × (p ≤ length out.old) }
    ensures { Stored block from p result out.old out.new }
{
    if from == 0 {
        if 16 <= out.len() - p {
            return store_whole(block, p, out);
        }
    }
    store_part(block, from, p, out)
}

// Fills out with the output of any key whose schedule it is, from byte `first` on: byte p of the output is byte p % 16 of block p / 16.
pub fn fill_keyed(sbox: &Sbox, schedule: &KeySchedule, x: Nonce, first: usize, out: &mut [u8])
    requires { first + length out.old < 2 ^ 32 }
    ensures { (nk : ℕ) (key : List ℕ) → Expands nk key schedule.now
        → out.new ≡ tabulate (length out.old) (λ p. byte_of nk key x (first + p)) }
{
    // a `while`, since a turn goes on by what it stored: the first block is cut in front, the last behind
    let mut p = 0;
    while p < out.len() {
        let at = first + p;
        let pair = block_pair(sbox, schedule, x, (at / 16) as u32);
        let one = pair.first;
        let two = pair.second;
        let mid = store(one, at % 16, p, out);
        p = store(two, 0, mid, out);
    }
}

// The same for a key.
pub fn fill(sbox: &Sbox, key: &[u8], x: Nonce, first: usize, out: &mut [u8])
    requires { (16 ≤ length key.now) × (length key.now ≤ 32) × (length key.now % 8 ≡ 0) × (first + length out.old < 2 ^ 32) }
    ensures { (nk : ℕ) → length key.now ≡ 4 * nk
        → out.new ≡ tabulate (length out.old) (λ p. byte_of nk key.now x (first + p)) }
{
    let schedule = KeySchedule::new(sbox, key);
    fill_keyed(sbox, &schedule, x, first, out);
}
