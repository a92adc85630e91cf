// The leaf hash in the fields of 2 ^ 384, 2 ^ 576 and 2 ^ 768 elements. An element is N limbs of 64 bits, least first.
#![tactic(auto)]

ghost use Rattle.std.specs.Prelude.{◌≡◌, ◌++◌, List, [], ℕ, ◌+◌, ◌*◌, ◌/◌, ◌%◌, ◌^◌, ◌≤◌, ◌<◌, length, get_or, take, drop};
ghost use Rattle.std.specs.Int.Bits.{bit_xor};
ghost use Rattle.spec.specs.Bytes.{number, tabulate};
ghost use Rattle.spec.specs.Polynomials.{product, remainder, field_product};
ghost use Rattle.spec.specs.LeafHash.{leaf_hash_byte};
ghost use Rattle.field.specs.Fields.{FieldLaws, low384, p384, low576, p576, low768, p768, field_384, field_576, field_768};
ghost use Rattle.field.specs.Multiples.{Multiples};

// A field with elements of N limbs: the polynomials of degree below `width`, modulo `polynomial`.
pub trait Field<const N: usize> {
    ghost width: { ℕ };

    ghost polynomial: { ℕ };

    // `polynomial` without its first term.
    ghost low: { ℕ };

    // What the terms c that leave at the top come back as: c times the polynomial without its first term.
    fn reduce(c: u64) -> u64
        requires { c < 16 }
        ensures { result ≡ product 4 low c };

    ghost laws: { FieldLaws N width polynomial low };
}

// The field modulo P384, of six limbs.
pub struct Field384;

impl Field<6> for Field384 {
    ghost width = { 384 };

    ghost polynomial = { p384 };

    ghost low = { low384 };

    ghost laws = { field_384 };

    fn reduce(c: u64) -> u64 {
        c ^ (c << 2) ^ (c << 3) ^ (c << 12)
    }
}

// The field modulo P576, of nine limbs.
pub struct Field576;

impl Field<9> for Field576 {
    ghost width = { 576 };

    ghost polynomial = { p576 };

    ghost low = { low576 };

    ghost laws = { field_576 };

    fn reduce(c: u64) -> u64 {
        c ^ (c << 3) ^ (c << 4) ^ (c << 13)
    }
}

// The field modulo P768, of twelve limbs.
pub struct Field768;

impl Field<12> for Field768 {
    ghost width = { 768 };

    ghost polynomial = { p768 };

    ghost low = { low768 };

    ghost laws = { field_768 };

    fn reduce(c: u64) -> u64 {
        c ^ (c << 4) ^ (c << 17) ^ (c << 19)
    }
}

// alpha ^ n times x.
fn times_alpha<F: Field<N>, const N: usize>(x: [u64; N], n: usize) -> [u64; N]
    requires { (0 < n) × (n ≤ 4) }
    ensures { number 64 result ≡ remainder F.width F.polynomial n (number 64 x.entry * 2 ^ n) }
{
    let mut r = [0u64; N];
    let mut carry = 0;
    for i in 0..N {
        r[i] = (x[i] << n) | carry;
        carry = x[i] >> (64 - n);
    }
    r[0] ^= F::reduce(carry);
    r
}

// The sum of two elements.
fn xor<const N: usize>(a: [u64; N], b: [u64; N]) -> [u64; N]
    ensures { number 64 result ≡ bit_xor (number 64 a.entry) (number 64 b.entry) }
{
    let mut r = [0u64; N];
    for i in 0..N {
        r[i] = a[i] ^ b[i];
    }
    r
}

// The element of 8 * N bytes.
fn element<const N: usize>(s: &[u8]) -> [u64; N]
    requires { length s.now ≡ 8 * N }
    ensures { number 64 result ≡ number 8 s.now }
{
    let mut r = [0u64; N];
    for p in 0..s.len() {
        r[p / 8] ^= (s[p] as u64) << (8 * (p % 8));
    }
    r
}

// An entry of a table: an element, and limbs that are zero. Entries are made once a key.
fn padded<const N: usize>(x: [u64; N]) -> [u64; 12]
    requires { N ≤ 12 }
    ensures { number 64 result ≡ number 64 x.entry }
{
    let mut r = [0u64; 12];
    r[..N].copy_from_slice(&x);
    r
}

// The element of an entry. Limb by limb: a copy of slices asks at run time whether they overlap.
fn limbs<const N: usize>(x: [u64; 12]) -> [u64; N]
    requires { N ≤ 12 }
    ensures { number 64 x < 2 ^ (64 * N) → number 64 result ≡ number 64 x }
{
    let mut r = [0u64; N];
    for i in 0..N {
        r[i] = x[i];
    }
    r
}

// The multiples of a hash key by the sixteen polynomials of four terms, made once for each key.
pub fn multiples<F: Field<N>, const N: usize>(key: &[u8]) -> [[u64; 12]; 16]
    requires { length key.now ≡ 8 * N }
    ensures { Multiples F.width F.polynomial (number 8 key.now) result }
{
    let mut t = [[0u64; 12]; 16];
    t[1] = padded(element::<N>(key));
    for d in 2..16 {
        let shifted = times_alpha::<F, N>(limbs(t[d / 2]), 1);
        t[d] = padded(xor(shifted, limbs(t[d % 2])));
    }
    t
}

// One window of a product: alpha ^ 4 times a, plus entry d of a table.
fn window<F: Field<N>, const N: usize>(t: &[[u64; 12]; 16], a: [u64; N], d: u64) -> [u64; N]
    requires { d < 16 }
    ensures { number 64 (get_or t.now d []) < 2 ^ F.width → number 64 result ≡ bit_xor (remainder F.width F.polynomial 4 (number 64 a.entry * 2 ^ 4)) (number 64 (get_or t.now d [])) }
{
    xor(times_alpha::<F, N>(a, 4), limbs(t[d as usize]))
}

// The product of x, given as its multiples, and the element of the bytes s, from the top byte down.
fn multiply<F: Field<N>, const N: usize>(t: &[[u64; 12]; 16], s: &[u8]) -> [u64; N]
    ensures { (x : ℕ) → Multiples F.width F.polynomial x t.now → number 64 result ≡ field_product F.width F.polynomial (8 * length s.now) x (number 8 s.now) }
{
    let mut r = [0u64; N];
    for j in (0..s.len()).rev() {
        let b = s[j] as u64;
        let high = window::<F, N>(t, r, b / 16);
        r = window::<F, N>(t, high, b % 16);
    }
    r
}

// Eight bytes of out from byte `at` on: those of x, xored with those of y.
fn write_limb(x: u64, y: &[u8], out: &mut [u8], at: usize)
    requires { (at + 8 ≤ length y.now) × (at + 8 ≤ length out.old) }
    ensures { take (at + 8) out.new ≡ take at out.old ++ tabulate 8 (λ b. bit_xor (x / 2 ^ (8 * b) % 2 ^ 8) (get_or y.now (at + b) 0)) }
{
    for b in 0..8 {
        out[at + b] = (((x >> (8 * b)) % 256) as u8) ^ y[at + b];
    }
}

// The 8 * N bytes of an element, xored with those of y.
fn write<const N: usize>(x: [u64; N], y: &[u8], out: &mut [u8])
    requires { (length y.now ≡ 8 * N) × (length out.old ≡ 8 * N) }
    ensures { out.new ≡ tabulate (8 * N) (λ p. bit_xor (number 64 x.entry) (number 8 y.now) / 2 ^ (8 * p) % 2 ^ 8) }
{
    for i in 0..N {
        write_limb(x[i], y, out, 8 * i);
    }
}

// The leaf hash of a seed, which is a third as long as an element, and a summand: the hash key, given as its multiples, times the seed, plus the summand.
pub fn leaf_hash<F: Field<N>, const N: usize>(t: &[[u64; 12]; 16], stretched: &[u8], out: &mut [u8])
    requires { (length stretched.now ≡ 8 * N / 3 + 8 * N) × (length out.old ≡ 8 * N) }
    ensures { (u : List ℕ) → Multiples F.width F.polynomial (number 8 u) t.now → out.new ≡ tabulate (8 * N) (leaf_hash_byte F.width F.polynomial u (take (8 * N / 3) stretched.now) (drop (8 * N / 3) stretched.now)) }
{
    let product = multiply::<F, N>(t, &stretched[..8 * N / 3]);
    write(product, &stretched[8 * N / 3..], out);
}
