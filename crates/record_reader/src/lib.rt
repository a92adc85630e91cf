// A reader over a record: it holds the caller's slice and how far it has come, and hands out fields as parts of that slice. Each function over it is thin:
// it takes the reader apart and calls a function of record_fields.
#![tactic(auto)]

ghost use Rattle.std.specs.Prelude.{◌≡◌, ◌&&◌, cond, Ok, Err, ◌+◌, ◌^◌, ◌<◌, ◌≤◌, length};
ghost use Rattle.record.specs.Fields.{field_ok, field_at, behind};

#[derive(Clone, Copy)]
pub struct Reader<'a> {
    pub bytes: &'a [u8],
    pub at: usize,
}

pub fn new<'a>(bytes: &'a [u8]) -> Reader<'a>
    ensures { (result.bytes ≡ bytes.entry) × (result.at ≡ 0) }
{
    Reader { bytes, at: 0 }
}

// The reader n bytes further on.
pub fn advanced<'a>(r: Reader<'a>, n: usize) -> Reader<'a>
    requires { r.at + n < 2 ^ 64 }
    ensures { (result.bytes ≡ r.entry.bytes) × (result.at ≡ r.entry.at + n) }
{
    Reader {
        bytes: r.bytes,
        at: r.at + n,
    }
}

// The reader behind a field of n bytes.
pub fn past<'a>(r: Reader<'a>, n: usize) -> Reader<'a>
    requires { r.at + 4 + n < 2 ^ 64 }
    ensures { (result.bytes ≡ r.entry.bytes) × (result.at ≡ behind r.entry.at n) }
{
    Reader {
        bytes: r.bytes,
        at: r.at + 4 + n,
    }
}

// Whether a field of n bytes begins at the reader's place.
pub fn fits<'a>(r: Reader<'a>, n: usize) -> bool
    ensures { result ≡ field_ok r.entry.bytes.now r.entry.at n }
{
    record_fields::field_fits(r.bytes, r.at, n)
}

// The field of n bytes at the reader's place.
pub fn field<'a>(r: Reader<'a>, n: usize) -> &'a [u8]
    requires { r.at + 4 + n ≤ length r.bytes.now }
    ensures { result.now ≡ field_at r.entry.bytes.now r.entry.at n }
{
    record_fields::field_at(r.bytes, r.at, n)
}

// How far the reader has come.
pub fn place<'a>(r: Reader<'a>) -> usize
    ensures { result ≡ r.entry.at }
{
    r.at
}

// ---- with plain parameters: one reader, made at the front of a record and gone past the version byte

// Whether a head of h bytes is there.
pub fn head_fits(bytes: &[u8], h: usize) -> bool
    ensures { result ≡ field_ok bytes.now 1 h }
{
    fits(advanced(new(bytes), 1), h)
}

// The head.
pub fn head_of(bytes: &[u8], h: usize) -> &[u8]
    requires { 1 + 4 + h ≤ length bytes.now }
    ensures { result.now ≡ field_at bytes.now 1 h }
{
    field(advanced(new(bytes), 1), h)
}

// The reader goes past a head of h bytes, and tests each of the five fields behind it before it goes past it. Its place behind the sixth field in the end: Ok
// where all are there, Err where one is not.
pub fn rest_of(
    bytes: &[u8],
    h: usize,
    n2: usize,
    n3: usize,
    n4: usize,
    n5: usize,
    n6: usize,
) -> Result<usize, usize>
    requires { 1 + 4 + h + 4 + n2 + 4 + n3 + 4 + n4 + 4 + n5 + 4 + n6 < 2 ^ 64 }
    ensures { result ≡ cond ((((field_ok bytes.now (behind 1 h) n2
        && field_ok bytes.now (behind (behind 1 h) n2) n3)
        && field_ok bytes.now (behind (behind (behind 1 h) n2) n3) n4)
        && field_ok bytes.now (behind (behind (behind (behind 1 h) n2) n3) n4) n5)
        && field_ok bytes.now (behind (behind (behind (behind (behind 1 h) n2) n3) n4) n5) n6)
        (Ok (behind (behind (behind (behind (behind (behind 1 h) n2) n3) n4) n5) n6))
        (Err (behind (behind (behind (behind (behind (behind 1 h) n2) n3) n4) n5) n6)) }
{
    let r2 = past(advanced(new(bytes), 1), h);
    let ok2 = fits(r2, n2);
    let r3 = past(r2, n2);
    let ok3 = fits(r3, n3);
    let r4 = past(r3, n3);
    let ok4 = fits(r4, n4);
    let r5 = past(r4, n4);
    let ok5 = fits(r5, n5);
    let r6 = past(r5, n5);
    let ok6 = fits(r6, n6);
    let r7 = past(r6, n6);
    let end = place(r7);
    if ok2 & ok3 & ok4 & ok5 & ok6 {
        Ok(end)
    } else {
        Err(end)
    }
}

// Fields two to six of a record, each the part of the caller's record that it is.
#[derive(Clone, Copy)]
pub struct Fields<'a> {
    pub iv: &'a [u8],
    pub challenge: &'a [u8],
    pub corrections: &'a [u8],
    pub opening: &'a [u8],
    pub commitment: &'a [u8],
}

// The same reader hands out the five fields behind a head of h bytes.
pub fn fields_of<'a>(
    bytes: &'a [u8],
    h: usize,
    n2: usize,
    n3: usize,
    n4: usize,
    n5: usize,
    n6: usize,
) -> Fields<'a>
    requires { 1 + 4 + h + 4 + n2 + 4 + n3 + 4 + n4 + 4 + n5 + 4 + n6 ≤ length bytes.now }
    ensures { (result.iv.now ≡ field_at bytes.now (behind 1 h) n2)
        × (result.challenge.now ≡ field_at bytes.now (behind (behind 1 h) n2) n3)
        × (result.corrections.now ≡ field_at bytes.now (behind (behind (behind 1 h) n2) n3) n4)
        × (result.opening.now ≡ field_at bytes.now (behind (behind (behind (behind 1 h) n2) n3) n4) n5)
        × (result.commitment.now ≡ field_at bytes.now (behind (behind (behind (behind (behind 1 h) n2) n3) n4) n5) n6) }
{
    let r2 = past(advanced(new(bytes), 1), h);
    let iv = field(r2, n2);
    let r3 = past(r2, n2);
    let challenge = field(r3, n3);
    let r4 = past(r3, n3);
    let corrections = field(r4, n4);
    let r5 = past(r4, n4);
    let opening = field(r5, n5);
    let r6 = past(r5, n5);
    let commitment = field(r6, n6);
    Fields {
        iv,
        challenge,
        corrections,
        opening,
        commitment,
    }
}
