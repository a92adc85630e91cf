// The key schedules of AES for keys of 128, 192 and 256 bits, FIPS 197, section 5.2. A word is four bytes, a round key four words. There is room for 15 round
// keys; the unused ones behind those of a shorter key are zeros.
#![tactic(auto)]

ghost use Rattle.std.specs.Prelude.{◌≡◌, List, [], ◌∷◌, ℕ, ◌+◌, ◌*◌, ◌%◌, ◌≤◌, ◌<◌, length, get_or};
ghost use Rattle.spec.specs.Bytes.{tabulate};
ghost use Rattle.spec.specs.Aes.{state, word_at, round_key, key_expansion};
ghost use Rattle.aes_keys.specs.RoundKeys.{words, Keyed, chained, next_round_key, odd_round_key};
ghost use Rattle.aes_keys.specs.RoundKeys.{six_of, six_words, lower_four, upper_four, next_six, three_keys};

use aes_steps::{Sbox, rot_word, sub_word, xor_word};
use std::marker::Model;

// Word i of a key.
fn word(b: &[u8], i: usize) -> [u8; 4]
    requires { 4 * i + 4 ≤ length b.now }
    ensures { result ≡ word_at b.now i }
{
    [b[4 * i], b[4 * i + 1], b[4 * i + 2], b[4 * i + 3]]
}

// Words i to i + 3 of a key.
fn four_words(b: &[u8], i: usize) -> [[u8; 4]; 4]
    requires { 4 * i + 16 ≤ length b.now }
    ensures { result ≡ state (λ c. word_at b.now (i + c)) }
{
    [word(b, i), word(b, i + 1), word(b, i + 2), word(b, i + 3)]
}

// The four words whose first is a; k has those a key's length before them.
fn chain(k: [[u8; 4]; 4], a: [u8; 4]) -> [[u8; 4]; 4]
    ensures { result ≡ chained k a }
{
    let b = xor_word(k[1], a);
    let c = xor_word(k[2], b);
    [a, b, c, xor_word(k[3], c)]
}

// The four words from a word on whose number the key's length divides: k has those a key's length before them, p those just before them; rc is the round
// constant's first byte.
fn next_key(sbox: &Sbox, k: [[u8; 4]; 4], p: [[u8; 4]; 4], rc: u8) -> [[u8; 4]; 4]
    ensures { result ≡ next_round_key k p rc }
{
    let s = sub_word(sbox, rot_word(p[3]));
    chain(k, xor_word(k[0], xor_word(s, [rc, 0, 0, 0])))
}

// ---- keys of 4 words

// KEYEXPANSION, by whole round keys.
pub fn schedule_128(sbox: &Sbox, key: &[u8]) -> [[[u8; 4]; 4]; 15]
    requires { length key.now ≡ 16 }
    ensures { Keyed 4 key.now result }
{
    let k0 = four_words(key, 0);
    let k1 = next_key(sbox, k0, k0, 1);
    let k2 = next_key(sbox, k1, k1, 2);
    let k3 = next_key(sbox, k2, k2, 4);
    let k4 = next_key(sbox, k3, k3, 8);
    let k5 = next_key(sbox, k4, k4, 16);
    let k6 = next_key(sbox, k5, k5, 32);
    let k7 = next_key(sbox, k6, k6, 64);
    let k8 = next_key(sbox, k7, k7, 128);
    let k9 = next_key(sbox, k8, k8, 27);
    let k10 = next_key(sbox, k9, k9, 54);
    let z = [[0u8; 4]; 4];
    [k0, k1, k2, k3, k4, k5, k6, k7, k8, k9, k10, z, z, z, z]
}

// ---- keys of 6 words, by blocks of six words

// The six words of a key.
fn six_words(b: &[u8]) -> [[u8; 4]; 6]
    requires { length b.now ≡ 24 }
    ensures { result ≡ six_of (word_at b.now) }
{
    [
        word(b, 0),
        word(b, 1),
        word(b, 2),
        word(b, 3),
        word(b, 4),
        word(b, 5),
    ]
}

// The first and the last four words of a block.
fn lower_four(k: [[u8; 4]; 6]) -> [[u8; 4]; 4]
    ensures { result ≡ lower_four k }
{
    [k[0], k[1], k[2], k[3]]
}

fn upper_four(k: [[u8; 4]; 6]) -> [[u8; 4]; 4]
    ensures { result ≡ upper_four k }
{
    [k[2], k[3], k[4], k[5]]
}

// The block after k.
fn next_six(sbox: &Sbox, k: [[u8; 4]; 6], rc: u8) -> [[u8; 4]; 6]
    ensures { result ≡ next_six k rc }
{
    let a = next_key(sbox, lower_four(k), upper_four(k), rc);
    let e = xor_word(k[4], a[3]);
    let f = xor_word(k[5], e);
    [a[0], a[1], a[2], a[3], e, f]
}

// The blocks of words 0 to 47.
fn blocks_192(sbox: &Sbox, key: &[u8]) -> [[[u8; 4]; 6]; 8]
    requires { length key.now ≡ 24 }
    ensures { result ≡ tabulate 8 (six_words (key_expansion 6 key.now)) }
{
    let b0 = six_words(key);
    let b1 = next_six(sbox, b0, 1);
    let b2 = next_six(sbox, b1, 2);
    let b3 = next_six(sbox, b2, 4);
    let b4 = next_six(sbox, b3, 8);
    let b5 = next_six(sbox, b4, 16);
    let b6 = next_six(sbox, b5, 32);
    let b7 = next_six(sbox, b6, 64);
    [b0, b1, b2, b3, b4, b5, b6, b7]
}

// The three round keys of two blocks.
fn three_keys(a: [[u8; 4]; 6], b: [[u8; 4]; 6]) -> [[[u8; 4]; 4]; 3]
    ensures { result ≡ three_keys a b }
{
    [lower_four(a), [a[4], a[5], b[0], b[1]], upper_four(b)]
}

// KEYEXPANSION: twelve round keys out of the blocks, and the last from those.
pub fn schedule_192(sbox: &Sbox, key: &[u8]) -> [[[u8; 4]; 4]; 15]
    requires { length key.now ≡ 24 }
    ensures { Keyed 6 key.now result }
{
    let b = blocks_192(sbox, key);
    let i = three_keys(b[0], b[1]);
    let j = three_keys(b[2], b[3]);
    let k = three_keys(b[4], b[5]);
    let l = three_keys(b[6], b[7]);
    let m = next_key(sbox, lower_four(b[7]), l[2], 128);
    let z = [[0u8; 4]; 4];
    [
        i[0], i[1], i[2], j[0], j[1], j[2], k[0], k[1], k[2], l[0], l[1], l[2], m, z, z,
    ]
}

// ---- keys of 8 words

// The round key with an odd number after p; k is the one before p.
fn odd_key(sbox: &Sbox, k: [[u8; 4]; 4], p: [[u8; 4]; 4]) -> [[u8; 4]; 4]
    ensures { result ≡ odd_round_key k p }
{
    let s = sub_word(sbox, p[3]);
    chain(k, xor_word(k[0], s))
}

// Round keys 0 to 7.
fn first_keys(sbox: &Sbox, key: &[u8]) -> [[[u8; 4]; 4]; 8]
    requires { length key.now ≡ 32 }
    ensures { result ≡ tabulate 8 (round_key (key_expansion 8 key.now)) }
{
    let k0 = four_words(key, 0);
    let k1 = four_words(key, 4);
    let k2 = next_key(sbox, k0, k1, 1);
    let k3 = odd_key(sbox, k1, k2);
    let k4 = next_key(sbox, k2, k3, 2);
    let k5 = odd_key(sbox, k3, k4);
    let k6 = next_key(sbox, k4, k5, 4);
    let k7 = odd_key(sbox, k5, k6);
    [k0, k1, k2, k3, k4, k5, k6, k7]
}

// Round keys 8 to 14, from the two before them.
fn later_keys(sbox: &Sbox, k6: [[u8; 4]; 4], k7: [[u8; 4]; 4]) -> [[[u8; 4]; 4]; 7]
    ensures { (key : List ℕ) → k6 ≡ round_key (key_expansion 8 key) 6 → k7 ≡ round_key (key_expansion 8 key) 7
        → result ≡ tabulate 7 (λ i. round_key (key_expansion 8 key) (8 + i)) }
{
    let k8 = next_key(sbox, k6, k7, 8);
    let k9 = odd_key(sbox, k7, k8);
    let k10 = next_key(sbox, k8, k9, 16);
    let k11 = odd_key(sbox, k9, k10);
    let k12 = next_key(sbox, k10, k11, 32);
    let k13 = odd_key(sbox, k11, k12);
    let k14 = next_key(sbox, k12, k13, 64);
    [k8, k9, k10, k11, k12, k13, k14]
}

// KEYEXPANSION, by whole round keys.
pub fn schedule_256(sbox: &Sbox, key: &[u8]) -> [[[u8; 4]; 4]; 15]
    requires { length key.now ≡ 32 }
    ensures { Keyed 8 key.now result }
{
    let a = first_keys(sbox, key);
    let b = later_keys(sbox, a[6], a[7]);
    [
        a[0], a[1], a[2], a[3], a[4], a[5], a[6], a[7], b[0], b[1], b[2], b[3], b[4], b[5], b[6],
    ]
}

// ---- by the key's length

// KEYEXPANSION, with zeros behind the round keys of a shorter key.
pub fn key_schedule(sbox: &Sbox, key: &[u8]) -> [[[u8; 4]; 4]; 15]
    requires { (16 ≤ length key.now) × (length key.now ≤ 32) × (length key.now % 8 ≡ 0) }
    ensures { Keyed (words key.now) key.now result }
{
    let n = key.len();
    if n == 16 {
        return schedule_128(sbox, key);
    }
    if n == 24 {
        return schedule_192(sbox, key);
    }
    schedule_256(sbox, key)
}

// A round key, its columns one after the other, since a struct literal holds no array of arrays. A clause sees the columns.
#[derive(Drop)]
struct RoundKey {
    bytes: [u8; 16],
}

impl Model for RoundKey {
    ghost use Rattle.std.specs.Prelude.{List, ℕ};
    ghost use Rattle.spec.specs.Aes.{state_of};

    ghost Value = { List (List ℕ) };

    ghost view = { λ k. state_of k.bytes };
}

impl RoundKey {
    fn of(a: [u8; 4], b: [u8; 4], c: [u8; 4], d: [u8; 4]) -> Self
        ensures { result ≡ a ∷ b ∷ c ∷ d ∷ [] }
    {
        RoundKey {
            bytes: [
                a[0], a[1], a[2], a[3], b[0], b[1], b[2], b[3], c[0], c[1], c[2], c[3], d[0], d[1],
                d[2], d[3],
            ],
        }
    }

    fn columns(&self) -> [[u8; 4]; 4]
        ensures { result ≡ self.now }
    {
        four_words(&self.bytes, 0)
    }
}

// A round key as a schedule holds it.
fn stored(k: [[u8; 4]; 4]) -> RoundKey
    ensures { result ≡ k }
{
    RoundKey::of(k[0], k[1], k[2], k[3])
}

// All the round keys, the same way.
fn stored_keys(keys: &[[[u8; 4]; 4]; 15]) -> [RoundKey; 15]
    ensures { result ≡ keys.now }
{
    [
        stored(keys[0]),
        stored(keys[1]),
        stored(keys[2]),
        stored(keys[3]),
        stored(keys[4]),
        stored(keys[5]),
        stored(keys[6]),
        stored(keys[7]),
        stored(keys[8]),
        stored(keys[9]),
        stored(keys[10]),
        stored(keys[11]),
        stored(keys[12]),
        stored(keys[13]),
        stored(keys[14]),
    ]
}

// Round keys, and how many rounds they are for. A clause sees both, and says of which key they are.
#[derive(Drop)]
pub struct KeySchedule {
    round_keys: [RoundKey; 15],
    rounds: usize,
}

impl Model for KeySchedule {
    ghost use Rattle.aes_keys.specs.Scheduled.{Schedule, schedule_of, Scheduled};

    ghost Value = { Schedule };

    ghost view = { schedule_of };

    ghost invariant = { Scheduled };
}

impl KeySchedule {
    ghost use Rattle.aes_keys.specs.Scheduled.{Expands};

    // The schedule of a key of 16, 24 or 32 bytes.
    pub fn new(sbox: &Sbox, key: &[u8]) -> Self
        requires { (16 ≤ length key.now) × (length key.now ≤ 32) × (length key.now % 8 ≡ 0) }
        ensures { Expands (words key.now) key.now result }
    {
        KeySchedule::of_round_keys(&key_schedule(sbox, key), key.len() / 4 + 6)
    }

    // The schedule that these round keys make, of whatever key they are, or of none.
    pub fn of_round_keys(keys: &[[[u8; 4]; 4]; 15], rounds: usize) -> Self
        requires { (10 ≤ rounds) × (rounds ≤ 14) × (rounds % 2 ≡ 0) }
        ensures count { result.rounds ≡ rounds }
        ensures keys { result.round_keys ≡ keys.now }
    {
        KeySchedule {
            round_keys: stored_keys(keys),
            rounds,
        }
    }

    // The number of rounds: 10, 12 or 14.
    pub fn rounds(&self) -> usize
        ensures count { result ≡ self.now.rounds }
        ensures bounds { (10 ≤ result) × (result ≤ 14) × (result % 2 ≡ 0) }
    {
        self.rounds
    }

    // The round key that is stored at place i; those behind the last of the rounds are whatever the schedule was made of.
    pub fn stored_key(&self, i: usize) -> [[u8; 4]; 4]
        requires { i < 15 }
        ensures { result ≡ get_or self.now.round_keys i [] }
    {
        let keys = &self.round_keys;
        keys[i].columns()
    }

    // Round key i of any key whose schedule it is.
    pub fn round_key(&self, i: usize) -> [[u8; 4]; 4]
        requires { i ≤ self.now.rounds }
        ensures { (nk : ℕ) (key : List ℕ) → Expands nk key self.now → result ≡ round_key (key_expansion nk key) i }
    {
        // from here on the invariant is known, by which the rounds are at most 14
        let _ = &self.rounds;
        self.stored_key(i)
    }
}
