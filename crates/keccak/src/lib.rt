// The permutation Keccak-f[1600] of FIPS 202, section 3, on an array of 25 lanes: lane (x, y) stands at place 5 y + x.
#![tactic(auto)]

ghost use Rattle.std.specs.Prelude.{◌≡◌, ◌<◌};
ghost use Rattle.keccak.specs.Chi.{chi_row};
ghost use Rattle.spec.specs.Bytes.{tabulate};
ghost use Rattle.spec.specs.Keccak.{rotl, column_parities, beside_columns, add_columns, theta, rho, pi, chi, iota, round, round_constant, keccak_f};

// x rotated to the left by n bits.
fn rotate_left(x: u64, n: u32) -> u64
    requires { (0 < n) × (n < 64) }
    ensures { result ≡ rotl n x }
{
    (x << n) | (x >> (64 - n))
}

// Theta, step 1: the parity of each column.
fn column_parities(a: [u64; 25]) -> [u64; 5]
    ensures { result ≡ column_parities a }
{
    [
        a[0] ^ a[5] ^ a[10] ^ a[15] ^ a[20],
        a[1] ^ a[6] ^ a[11] ^ a[16] ^ a[21],
        a[2] ^ a[7] ^ a[12] ^ a[17] ^ a[22],
        a[3] ^ a[8] ^ a[13] ^ a[18] ^ a[23],
        a[4] ^ a[9] ^ a[14] ^ a[19] ^ a[24],
    ]
}

// Theta, step 2: what the two columns beside each column add to it.
fn beside_columns(c: [u64; 5]) -> [u64; 5]
    ensures { result ≡ beside_columns c }
{
    [
        c[4] ^ rotate_left(c[1], 1),
        c[0] ^ rotate_left(c[2], 1),
        c[1] ^ rotate_left(c[3], 1),
        c[2] ^ rotate_left(c[4], 1),
        c[3] ^ rotate_left(c[0], 1),
    ]
}

// Theta, step 3: d[x] added to each lane of column x.
fn add_columns(a: [u64; 25], d: [u64; 5]) -> [u64; 25]
    ensures { result ≡ add_columns a d }
{
    let d0 = d[0];
    let d1 = d[1];
    let d2 = d[2];
    let d3 = d[3];
    let d4 = d[4];
    [
        a[0] ^ d0,
        a[1] ^ d1,
        a[2] ^ d2,
        a[3] ^ d3,
        a[4] ^ d4,
        a[5] ^ d0,
        a[6] ^ d1,
        a[7] ^ d2,
        a[8] ^ d3,
        a[9] ^ d4,
        a[10] ^ d0,
        a[11] ^ d1,
        a[12] ^ d2,
        a[13] ^ d3,
        a[14] ^ d4,
        a[15] ^ d0,
        a[16] ^ d1,
        a[17] ^ d2,
        a[18] ^ d3,
        a[19] ^ d4,
        a[20] ^ d0,
        a[21] ^ d1,
        a[22] ^ d2,
        a[23] ^ d3,
        a[24] ^ d4,
    ]
}

// Theta: its three steps.
fn theta(a: [u64; 25]) -> [u64; 25]
    ensures { result ≡ theta a }
{
    let c = column_parities(a);
    let d = beside_columns(c);
    add_columns(a, d)
}

// Rho and pi in one step: each lane is rotated by its offset and moved.
fn rho_pi(a: [u64; 25]) -> [u64; 25]
    ensures { result ≡ pi (rho a) }
{
    [
        a[0],
        rotate_left(a[6], 44),
        rotate_left(a[12], 43),
        rotate_left(a[18], 21),
        rotate_left(a[24], 14),
        rotate_left(a[3], 28),
        rotate_left(a[9], 20),
        rotate_left(a[10], 3),
        rotate_left(a[16], 45),
        rotate_left(a[22], 61),
        rotate_left(a[1], 1),
        rotate_left(a[7], 6),
        rotate_left(a[13], 25),
        rotate_left(a[19], 8),
        rotate_left(a[20], 18),
        rotate_left(a[4], 27),
        rotate_left(a[5], 36),
        rotate_left(a[11], 10),
        rotate_left(a[17], 15),
        rotate_left(a[23], 56),
        rotate_left(a[2], 62),
        rotate_left(a[8], 55),
        rotate_left(a[14], 39),
        rotate_left(a[15], 41),
        rotate_left(a[21], 2),
    ]
}

// Chi on one row: each lane is added to the product of the next, complemented, and the one after it.
fn chi_row(a: u64, b: u64, c: u64, d: u64, e: u64) -> [u64; 5]
    ensures { result ≡ chi_row a b c d e }
{
    [
        a ^ (!b & c),
        b ^ (!c & d),
        c ^ (!d & e),
        d ^ (!e & a),
        e ^ (!a & b),
    ]
}

// Chi: row by row.
fn chi(a: [u64; 25]) -> [u64; 25]
    ensures { result ≡ chi a }
{
    let r0 = chi_row(a[0], a[1], a[2], a[3], a[4]);
    let r1 = chi_row(a[5], a[6], a[7], a[8], a[9]);
    let r2 = chi_row(a[10], a[11], a[12], a[13], a[14]);
    let r3 = chi_row(a[15], a[16], a[17], a[18], a[19]);
    let r4 = chi_row(a[20], a[21], a[22], a[23], a[24]);
    [
        r0[0], r0[1], r0[2], r0[3], r0[4], r1[0], r1[1], r1[2], r1[3], r1[4], r2[0], r2[1], r2[2],
        r2[3], r2[4], r3[0], r3[1], r3[2], r3[3], r3[4], r4[0], r4[1], r4[2], r4[3], r4[4],
    ]
}

// Iota: the round constant k added to lane (0, 0).
fn iota(a: [u64; 25], k: u64) -> [u64; 25]
    ensures { result ≡ iota k a }
{
    let mut r = a;
    r[0] = a[0] ^ k;
    r
}

// One round, with the constant k.
fn round(a: [u64; 25], k: u64) -> [u64; 25]
    ensures { result ≡ round k a }
{
    let t = theta(a);
    let p = rho_pi(t);
    let x = chi(p);
    iota(x, k)
}

// The constants of the 24 rounds.
fn round_constants() -> [u64; 24]
    ensures { result ≡ tabulate 24 round_constant }
{
    [
        0x0000000000000001,
        0x0000000000008082,
        0x800000000000808a,
        0x8000000080008000,
        0x000000000000808b,
        0x0000000080000001,
        0x8000000080008081,
        0x8000000000008009,
        0x000000000000008a,
        0x0000000000000088,
        0x0000000080008009,
        0x000000008000000a,
        0x000000008000808b,
        0x800000000000008b,
        0x8000000000008089,
        0x8000000000008003,
        0x8000000000008002,
        0x8000000000000080,
        0x000000000000800a,
        0x800000008000000a,
        0x8000000080008081,
        0x8000000000008080,
        0x0000000080000001,
        0x8000000080008008,
    ]
}

// Keccak-f[1600]: 24 rounds. The constants are laid down once, before the loop.
pub fn keccak_f(a: [u64; 25]) -> [u64; 25]
    ensures { result ≡ keccak_f a }
{
    let constants = round_constants();
    let mut s = a;
    for constant in &constants {
        let next = round(s, *constant);
        s = next;
    }
    s
}
