// The row of a seed, section 5.5.2 of document 000: added block by block to a sum of rows, so that outside the lent buffers no array has
// more than 16 bytes of a row.
#![tactic(auto)]

ghost use Rattle.std.specs.Prelude.{◌≡◌, ℕ, ◌+◌, ◌-◌, ◌*◌, ◌%◌, ◌≤◌, ◌<◌, min, length, get_or};
ghost use Rattle.job.specs.Versions.{byte_of};
ghost use Rattle.columns.specs.Columns.{Xored};

use aes::{KeySchedule, Sbox};
use job::Nonce;

// Adds a block's bytes from byte `from` on to the sum from byte `at` on, as many as there is room for, and gives the place after them.
fn add_block(block: [u8; 16], from: usize, at: usize, sum: &mut [u8]) -> usize
    requires { (from < 16) × (at ≤ length sum.old) }
    ensures { (result ≡ at + min (16 - from) (length sum.old - at))
        × Xored at result (λ p. get_or block (from + (p - at)) 0) sum.old sum.new }
{
    let n = (16 - from).min(sum.len() - at);
    columns::xor_block(sum, at, from, n, block);
    at + n
}

// Adds the bytes of a seed's row from byte `first` on, as many as the sum has, to the sum.
pub fn add_row(sbox: &Sbox, seed: &[u8], x: Nonce, first: usize, sum: &mut [u8])
    requires { (16 ≤ length seed.now) × (length seed.now ≤ 32) × (length seed.now % 8 ≡ 0) × (first + length sum.old ≤ 8192) }
    ensures { (nk : ℕ) → length seed.now ≡ 4 * nk
        → Xored 0 (length sum.old) (λ p. byte_of nk seed.now x (first + p)) sum.old sum.new }
{
    let schedule = KeySchedule::new(sbox, seed);
    let b = sum.len();
    // a `while`, since a turn goes on by what it added
    let mut at = 0;
    while at < b {
        let p = first + at;
        // the first block is cut in front, the last behind
        let from = p % 16;
        if 16 - from < b - at {
            let pair = generator::block_pair(sbox, &schedule, x, (p / 16) as u32);
            let one = pair.first;
            let two = pair.second;
            let mid = add_block(one, from, at, sum);
            at = add_block(two, 0, mid, sum);
        } else {
            let block = generator::block(sbox, &schedule, x, (p / 16) as u32);
            at = add_block(block, from, at, sum);
        }
    }
}
