// The S-box, words and the state's steps of AES, FIPS 197, that take no key. A state is its four columns of four bytes, by value. The S-box is
// made once, by `Sbox::new`, and lent to every step, since each mention of a constant array builds it anew.
#![tactic(auto)]

ghost use Rattle.std.specs.Prelude.{◌≡◌, ◌<◌};
ghost use Rattle.spec.specs.Bytes.{number, digits};
ghost use Rattle.spec.specs.Gf256.{sbox, SboxTable};
ghost use Rattle.spec.specs.Aes.{xor_word, rot_word, sub_word, sub_bytes, shift_rows, mix_column, mix_columns};
ghost use Rattle.aes_steps.specs.PackedWords.{xtimes_word};

// Section 5.1.1: the values at 0 to 255.
const SBOX: [u8; 256] = *b"\x63\x7c\x77\x7b\xf2\x6b\x6f\xc5\x30\x01\x67\x2b\xfe\xd7\xab\x76\
    \xca\x82\xc9\x7d\xfa\x59\x47\xf0\xad\xd4\xa2\xaf\x9c\xa4\x72\xc0\
    \xb7\xfd\x93\x26\x36\x3f\xf7\xcc\x34\xa5\xe5\xf1\x71\xd8\x31\x15\
    \x04\xc7\x23\xc3\x18\x96\x05\x9a\x07\x12\x80\xe2\xeb\x27\xb2\x75\
    \x09\x83\x2c\x1a\x1b\x6e\x5a\xa0\x52\x3b\xd6\xb3\x29\xe3\x2f\x84\
    \x53\xd1\x00\xed\x20\xfc\xb1\x5b\x6a\xcb\xbe\x39\x4a\x4c\x58\xcf\
    \xd0\xef\xaa\xfb\x43\x4d\x33\x85\x45\xf9\x02\x7f\x50\x3c\x9f\xa8\
    \x51\xa3\x40\x8f\x92\x9d\x38\xf5\xbc\xb6\xda\x21\x10\xff\xf3\xd2\
    \xcd\x0c\x13\xec\x5f\x97\x44\x17\xc4\xa7\x7e\x3d\x64\x5d\x19\x73\
    \x60\x81\x4f\xdc\x22\x2a\x90\x88\x46\xee\xb8\x14\xde\x5e\x0b\xdb\
    \xe0\x32\x3a\x0a\x49\x06\x24\x5c\xc2\xd3\xac\x62\x91\x95\xe4\x79\
    \xe7\xc8\x37\x6d\x8d\xd5\x4e\xa9\x6c\x56\xf4\xea\x65\x7a\xae\x08\
    \xba\x78\x25\x2e\x1c\xa6\xb4\xc6\xe8\xdd\x74\x1f\x4b\xbd\x8b\x8a\
    \x70\x3e\xb5\x66\x48\x03\xf6\x0e\x61\x35\x57\xb9\x86\xc1\x1d\x9e\
    \xe1\xf8\x98\x11\x69\xd9\x8e\x94\x9b\x1e\x87\xe9\xce\x55\x28\xdf\
    \x8c\xa1\x89\x0d\xbf\xe6\x42\x68\x41\x99\x2d\x0f\xb0\x54\xbb\x16";

// The table of the S-box.
pub fn table() -> [u8; 256]
    ensures { SboxTable result }
{
    SBOX
}

// The S-box: each value of the type holds its table.
#[derive(Drop)]
pub struct Sbox {
    entries: [u8; 256],
    ghost is_table: { SboxTable entries },
}

impl Sbox {
    pub fn new() -> Self {
        Sbox { entries: table() }
    }

    // The S-box of a lent table, copied.
    pub fn of_table(entries: &[u8; 256]) -> Self
        requires { SboxTable entries.now }
    {
        Sbox { entries: *entries }
    }

    pub fn sub_byte(&self, x: u8) -> u8
        ensures { result ≡ sbox x }
    {
        self.entries[x as usize]
    }
}

// ---- words

pub fn sub_word(sbox: &Sbox, a: [u8; 4]) -> [u8; 4]
    ensures { result ≡ sub_word a }
{
    [
        sbox.sub_byte(a[0]),
        sbox.sub_byte(a[1]),
        sbox.sub_byte(a[2]),
        sbox.sub_byte(a[3]),
    ]
}

pub fn rot_word(a: [u8; 4]) -> [u8; 4]
    ensures { result ≡ rot_word a }
{
    [a[1], a[2], a[3], a[0]]
}

pub fn xor_word(a: [u8; 4], b: [u8; 4]) -> [u8; 4]
    ensures { result ≡ xor_word a b }
{
    [a[0] ^ b[0], a[1] ^ b[1], a[2] ^ b[2], a[3] ^ b[3]]
}

// ---- words packed into one number, the first byte lowest

fn wide(x: u8) -> u32
    ensures { (result ≡ x) × (result < 256) }
{
    x as u32
}

pub fn pack(a: [u8; 4]) -> u32
    ensures { result ≡ number 8 a }
{
    wide(a[0]) + wide(a[1]) * 0x100 + wide(a[2]) * 0x10000 + wide(a[3]) * 0x1000000
}

pub fn unpack(x: u32) -> [u8; 4]
    ensures { result ≡ digits 8 4 x }
{
    [
        (x % 0x100) as u8,
        (x / 0x100 % 0x100) as u8,
        (x / 0x10000 % 0x100) as u8,
        (x / 0x1000000 % 0x100) as u8,
    ]
}

// Each byte times {02}: seven bits go up by one place, and the eighth brings in the polynomial's {1b}.
fn packed_xtimes(w: u32) -> u32
    ensures { digits 8 4 result ≡ xtimes_word (digits 8 4 w) }
{
    let high = (w & 0x80808080) >> 7;
    ((w & 0x7f7f7f7f) << 1) ^ (high * 27)
}

// Each byte one place down, the first to the top.
fn packed_rot(w: u32) -> u32
    ensures { digits 8 4 result ≡ rot_word (digits 8 4 w) }
{
    (w >> 8) | (w << 24)
}

// MIXCOLUMNS makes of a byte a, with b, c and d after it, {02} • a + {03} • b + c + d, which is {02} • (a + b) + b + (c + d).
pub fn mix_column(a: [u8; 4]) -> [u8; 4]
    ensures { result ≡ mix_column a }
{
    let w = pack(a);
    let u = w ^ packed_rot(w);
    unpack(packed_xtimes(u) ^ packed_rot(w ^ packed_rot(u)))
}

// ---- the state

pub fn sub_bytes(sbox: &Sbox, s: [[u8; 4]; 4]) -> [[u8; 4]; 4]
    ensures { result ≡ sub_bytes s }
{
    [
        sub_word(sbox, s[0]),
        sub_word(sbox, s[1]),
        sub_word(sbox, s[2]),
        sub_word(sbox, s[3]),
    ]
}

pub fn shift_rows(s: [[u8; 4]; 4]) -> [[u8; 4]; 4]
    ensures { result ≡ shift_rows s }
{
    [
        [s[0][0], s[1][1], s[2][2], s[3][3]],
        [s[1][0], s[2][1], s[3][2], s[0][3]],
        [s[2][0], s[3][1], s[0][2], s[1][3]],
        [s[3][0], s[0][1], s[1][2], s[2][3]],
    ]
}

pub fn mix_columns(s: [[u8; 4]; 4]) -> [[u8; 4]; 4]
    ensures { result ≡ mix_columns s }
{
    [
        mix_column(s[0]),
        mix_column(s[1]),
        mix_column(s[2]),
        mix_column(s[3]),
    ]
}
