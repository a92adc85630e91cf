// AES, FIPS 197, over the steps of crate aes_steps, of which it re-exports `Sbox`, `table`, `pack` and `unpack`, and the key schedules of aes_keys. A state or
// a round key is its four columns of four bytes, by value.
#![tactic(auto)]

ghost use Rattle.std.specs.Prelude.{◌≡◌, List, ℕ, ◌+◌, length};
ghost use Rattle.spec.specs.Aes.{state_of, bytes_of, add_round_key, round_of, last_round, cipher, rounds, key_expansion};
ghost use Rattle.aes_keys.specs.Scheduled.{Expands};

pub use aes_keys::{KeySchedule, key_schedule};
use aes_steps::{mix_columns, shift_rows, sub_bytes, xor_word};
pub use aes_steps::{Sbox, pack, table, unpack};

// ---- the state

// The state of 16 lent bytes.
pub fn load_state(b: &[u8]) -> [[u8; 4]; 4]
    requires { length b.now ≡ 16 }
    ensures { result ≡ state_of b.now }
{
    [
        [b[0], b[1], b[2], b[3]],
        [b[4], b[5], b[6], b[7]],
        [b[8], b[9], b[10], b[11]],
        [b[12], b[13], b[14], b[15]],
    ]
}

// The 16 bytes of a state.
pub fn bytes_of(s: [[u8; 4]; 4]) -> [u8; 16]
    ensures { result ≡ bytes_of s }
{
    [
        s[0][0], s[0][1], s[0][2], s[0][3], s[1][0], s[1][1], s[1][2], s[1][3], s[2][0], s[2][1],
        s[2][2], s[2][3], s[3][0], s[3][1], s[3][2], s[3][3],
    ]
}

pub fn add_round_key(s: [[u8; 4]; 4], k: [[u8; 4]; 4]) -> [[u8; 4]; 4]
    ensures { result ≡ add_round_key s k }
{
    [
        xor_word(s[0], k[0]),
        xor_word(s[1], k[1]),
        xor_word(s[2], k[2]),
        xor_word(s[3], k[3]),
    ]
}

// ---- the cipher

// The rounds of a key of four words; longer keys have more.
const FEWEST: usize = 10;

pub fn last_round(sbox: &Sbox, s: [[u8; 4]; 4], k: [[u8; 4]; 4]) -> [[u8; 4]; 4]
    ensures { result ≡ last_round s k }
{
    add_round_key(shift_rows(sub_bytes(sbox, s)), k)
}

// Two rounds, with the keys k and l.
fn two_rounds(sbox: &Sbox, s: [[u8; 4]; 4], k: [[u8; 4]; 4], l: [[u8; 4]; 4]) -> [[u8; 4]; 4]
    ensures { result ≡ round_of (round_of s k) l }
{
    let x = add_round_key(mix_columns(shift_rows(sub_bytes(sbox, s))), k);
    add_round_key(mix_columns(shift_rows(sub_bytes(sbox, x))), l)
}

// CIPHER with any key whose schedule it is. The nine rounds that every key has are counted by a constant and stand here by their steps, which is quicker; those
// from 10 on of longer keys go by twos, as in `later_rounds`.
pub fn encrypt(sbox: &Sbox, schedule: &KeySchedule, s: [[u8; 4]; 4]) -> [[u8; 4]; 4]
    ensures { (nk : ℕ) (key : List ℕ) → Expands nk key schedule.now → result ≡ cipher (nk + 6) (key_expansion nk key) s }
{
    let n = schedule.rounds();
    let mut x = add_round_key(s, schedule.stored_key(0));
    for i in 1..FEWEST {
        let y = add_round_key(
            mix_columns(shift_rows(sub_bytes(sbox, x))),
            schedule.stored_key(i),
        );
        x = y;
    }
    let mut i = FEWEST;
    while i < n {
        let y = two_rounds(sbox, x, schedule.stored_key(i), schedule.stored_key(i + 1));
        x = y;
        i += 2;
    }
    last_round(sbox, x, schedule.stored_key(n))
}

// The rounds of longer keys: from round 10 on, and before the last, round n. There are two or four, and they go by twos, which is quicker than one by one.
fn later_rounds(sbox: &Sbox, schedule: &KeySchedule, s: [[u8; 4]; 4]) -> [[u8; 4]; 4]
    ensures { (nk : ℕ) (key : List ℕ) (a : List (List ℕ)) → Expands nk key schedule.now
        → s ≡ rounds (key_expansion nk key) a 9 → result ≡ rounds (key_expansion nk key) a (nk + 5) }
{
    let n = schedule.rounds();
    let mut x = s;
    let mut i = FEWEST;
    while i < n {
        let y = two_rounds(sbox, x, schedule.stored_key(i), schedule.stored_key(i + 1));
        x = y;
        i += 2;
    }
    x
}

// Two blocks of 16 bytes, each in an array of its own.
#[derive(Clone, Copy)]
pub struct Blocks {
    pub first: [u8; 16],
    pub second: [u8; 16],
}

// CIPHER of two states, and the bytes of both. They go round by round: neither waits for the other, so a processor can work on both at once (bench/README.md
// compares it with one after the other). The steps of a round stand here one by one, since the compiler would not inline a function of them that is called
// twice. The nine rounds that every key has are counted by a constant, which is quicker; those from 10 on of longer keys go one state after the other.
pub fn encrypt_pair(sbox: &Sbox, schedule: &KeySchedule, a: [[u8; 4]; 4], b: [[u8; 4]; 4]) -> Blocks
    ensures first { (nk : ℕ) (key : List ℕ) → Expands nk key schedule.now → result.first ≡ bytes_of (cipher (nk + 6) (key_expansion nk key) a) }
    ensures second { (nk : ℕ) (key : List ℕ) → Expands nk key schedule.now → result.second ≡ bytes_of (cipher (nk + 6) (key_expansion nk key) b) }
{
    let n = schedule.rounds();
    let mut x = add_round_key(a, schedule.stored_key(0));
    let mut y = add_round_key(b, schedule.stored_key(0));
    for i in 1..FEWEST {
        let c = mix_columns(shift_rows(sub_bytes(sbox, x)));
        let d = mix_columns(shift_rows(sub_bytes(sbox, y)));
        let e = add_round_key(c, schedule.stored_key(i));
        let f = add_round_key(d, schedule.stored_key(i));
        x = e;
        y = f;
    }
    if FEWEST < n {
        let c = later_rounds(sbox, schedule, x);
        let d = later_rounds(sbox, schedule, y);
        x = c;
        y = d;
    }
    Blocks {
        first: bytes_of(last_round(sbox, x, schedule.stored_key(n))),
        second: bytes_of(last_round(sbox, y, schedule.stored_key(n))),
    }
}
