// The sponge of FIPS 202, section 4, with the suffix and padding of SHAKE (section 6.2), and the hashes H0 and H1 of document 000, section 3.3.
// The rate, in bytes, is a field of the sponge: 168 is SHAKE128, 136 SHAKE256. A block has room for the larger; at rate 136 its last 32 bytes stay zeros.
#![tactic(auto)]

ghost use Rattle.std.specs.Prelude.{◌≡◌, List, [], ◌∷◌, ◌++◌, ℕ, ◌+◌, ◌-◌, ◌<◌, ◌≤◌, length, take};
ghost use Rattle.spec.specs.Bytes.{tabulate, zeros, number, digits};
ghost use Rattle.spec.specs.Keccak.{keccak_f};
ghost use Rattle.spec.specs.Sponge.{xor_in, state_byte, padding, output_byte, shake_suffix, shake, absorbed_all};
ghost use Rattle.spec.specs.Hashes.{hash0, hash1};

// A sponge at its rate, in bytes: the state, and how many bytes of a block that is not full yet are xored into it. A block has room for the rate of SHAKE128.
#[derive(Clone, Copy)]
pub struct Sponge {
    pub rate: usize,
    pub lanes: [u64; 25],
    pub fill: usize,
    ghost small: { rate ≤ 168 },
    ghost room: { fill < rate },
}

// The lane that eight bytes write, the least byte first.
fn load_lane(p: &[u8]) -> u64
    requires { length p.now ≡ 8 }
    ensures { result ≡ number 8 p.now }
{
    u64::from_le_bytes([p[0], p[1], p[2], p[3], p[4], p[5], p[6], p[7]])
}

// The lanes xored with a block.
fn xor_block(s: [u64; 25], block: [u8; 168]) -> [u64; 25]
    ensures { result ≡ xor_in s block }
{
    let mut t = s;
    for j in 0..21 {
        let v = load_lane(&block[8 * j..8 * j + 8]);
        t[j] = s[j] ^ v;
    }
    t
}

// A block of zero bytes with the part from byte `at` on.
fn place(at: usize, part: &[u8]) -> [u8; 168]
    requires { at + length part.now ≤ 168 }
    ensures { result ≡ zeros at ++ (part.now ++ zeros (168 - at - length part.now)) }
{
    let mut block = [0u8; 168];
    buffers::copy(part, &mut block[at..]);
    block
}

// A block whose first n bytes are the suffix of SHAKE and the padding.
fn padding_block(n: usize) -> [u8; 168]
    requires { (0 < n) × (n ≤ 168) }
    ensures { take n result ≡ padding shake_suffix n }
{
    let mut block = [0u8; 168];
    block[0] = 0x1f;
    block[n - 1] ^= 0x80;
    block
}

// The eight bytes of a lane, the least byte first.
fn store_lane(x: u64, out: &mut [u8])
    requires { length out.old ≡ 8 }
    ensures { out.new ≡ digits 8 8 x }
{
    for i in 0..8 {
        out[i] = ((x >> (8 * i)) % 256) as u8;
    }
}

// The first 168 bytes of the state.
fn state_bytes(s: [u64; 25]) -> [u8; 168]
    ensures { result ≡ tabulate 168 (state_byte s) }
{
    let mut block = [0u8; 168];
    for j in 0..21 {
        store_lane(s[j], &mut block[8 * j..8 * j + 8]);
    }
    block
}

// Fills out, a block at most, with the first bytes of the state.
fn squeeze_part(lanes: [u64; 25], out: &mut [u8])
    requires { length out.old ≤ 168 }
    ensures { out.new ≡ tabulate (length out.old) (state_byte lanes) }
{
    let block = state_bytes(lanes);
    let n = out.len();
    buffers::copy(&block[..n], out);
}

// Fills out with the output of a state that has absorbed whole blocks at a rate, block by block. The loop is a `while`, since a turn goes on by a block or what
// is left.
pub fn squeeze(lanes: [u64; 25], rate: usize, out: &mut [u8])
    requires { (rate ≤ 168) × (0 < rate) }
    ensures { out.new ≡ tabulate (length out.old) (output_byte rate lanes) }
{
    let mut state = lanes;
    let mut at = 0;
    while at < out.len() {
        let n = rate.min(out.len() - at);
        squeeze_part(state, &mut out[at..at + n]);
        at += n;
        if at < out.len() {
            let next = keccak::keccak_f(state);
            state = next;
        }
    }
}

impl Sponge {
    ghost use Rattle.shake.specs.Absorbing.{Holds, Absorbed, Absorbs};

    // A sponge of SHAKE128 that has absorbed nothing. Its lanes and its fill are those of a sponge at any rate.
    pub fn empty() -> Sponge
        ensures holds { ((r : ℕ) → 0 < r → Holds r [] result.lanes result.fill) × (result.fill ≡ 0) }
        ensures rate { result.rate ≡ 168 }
    {
        Sponge {
            rate: 168,
            lanes: [0; 25],
            fill: 0,
        }
    }

    // A sponge that has absorbed nothing.
    pub fn new(rate: usize) -> Sponge
        requires { (rate ≤ 168) × (0 < rate) }
        ensures { (result.rate ≡ rate) × Absorbed result [] }
    {
        let empty = Sponge::empty();
        let lanes = empty.lanes;
        Sponge {
            rate,
            lanes,
            fill: empty.fill,
        }
    }

    // The state permuted, with nothing of the next block in it.
    fn permute(self) -> Sponge
        ensures { (result.rate ≡ self.rate) × (result.lanes ≡ keccak_f self.lanes) × (result.fill ≡ 0) }
    {
        Sponge {
            rate: self.rate,
            lanes: keccak::keccak_f(self.lanes),
            fill: 0,
        }
    }

    // Absorbs a part of the message that ends no later than the block.
    fn absorb_part(self, part: &[u8]) -> Sponge
        requires { self.fill + length part.now ≤ self.rate }
        ensures { Absorbs self part.now result }
    {
        let rate = self.rate;
        let block = place(self.fill, part);
        let lanes = xor_block(self.lanes, block);
        let end = self.fill + part.len();
        if end < rate {
            Sponge {
                rate,
                lanes,
                fill: end,
            }
        } else {
            let whole = Sponge {
                rate,
                lanes,
                fill: 0,
            };
            whole.permute()
        }
    }

    // Absorbs more of the message. The loop is a `while`, since a turn goes on by the part that fits into the block.
    pub fn absorb(self, message: &[u8]) -> Sponge
        ensures { Absorbs self message.now result }
    {
        let mut sponge = self;
        let mut at = 0;
        while at < message.len() {
            let n = (sponge.rate - sponge.fill).min(message.len() - at);
            sponge = sponge.absorb_part(&message[at..at + n]);
            at += n;
        }
        sponge
    }

    // The same with its own state and rate.
    pub fn squeeze_blocks(self, out: &mut [u8])
        ensures { out.new ≡ tabulate (length out.old) (output_byte self.rate self.lanes) }
    {
        squeeze(self.lanes, self.rate, out);
    }

    // Absorbs the suffix and the padding, which end the last block.
    pub fn finish(self) -> Sponge
        ensures { (result.rate ≡ self.rate) × ((m : List ℕ) → Absorbed self m → result.lanes ≡ absorbed_all self.rate shake_suffix m) }
    {
        let n = self.rate - self.fill;
        let block = padding_block(n);
        self.absorb_part(&block[..n])
    }

    // Fills out with SHAKE of what the sponge has absorbed.
    pub fn squeeze(self, out: &mut [u8])
        ensures { (m : List ℕ) → Absorbed self m → out.new ≡ shake self.rate m (length out.old) }
    {
        let padded = self.finish();
        padded.squeeze_blocks(out);
    }

    // Fills out with SHAKE of what the sponge has absorbed and of one byte more, which names the hash.
    fn hash(self, domain: u8, out: &mut [u8])
        ensures { (m : List ℕ) → Absorbed self m → out.new ≡ shake self.rate (m ++ (domain ∷ [])) (length out.old) }
    {
        self.absorb(&[domain]).squeeze(out);
    }

    // H1, the hash for vector commitments, of the message that the sponge has absorbed.
    pub fn h1(self, out: &mut [u8])
        ensures { (m : List ℕ) → Absorbed self m → out.new ≡ hash1 self.rate m (length out.old) }
    {
        self.hash(1, out);
    }
}

// H0, the hash for commitment keys.
pub fn h0(rate: usize, iv: &[u8], out: &mut [u8])
    requires { (rate ≤ 168) × (0 < rate) }
    ensures { out.new ≡ hash0 rate iv.now (length out.old) }
{
    Sponge::new(rate).absorb(iv).hash(0, out);
}

// H1 of a message that comes whole.
pub fn h1(rate: usize, message: &[u8], out: &mut [u8])
    requires { (rate ≤ 168) × (0 < rate) }
    ensures { out.new ≡ hash1 rate message.now (length out.old) }
{
    Sponge::new(rate).absorb(message).h1(out);
}
