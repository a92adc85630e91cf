// Fields of a record, on a slice and a place in it: tested, and handed out; the version and the head's length and numbers, by the version; the length of a record
// that is written; strings compared.
#![tactic(auto)]

ghost use Rattle.std.specs.Prelude.{◌≡◌, true, ◌+◌, ◌<◌, ◌≤◌, length};
ghost use Rattle.spec.specs.Bytes.{part};
ghost use Rattle.spec.specs.Shapes.{challenge_bytes, shape_ok};
ghost use Rattle.record.specs.Fields.{field_ok, field_at};
ghost use Rattle.spec.specs.Bytes.{big_endian};
ghost use Rattle.record.specs.Record.{version_of, head_bytes, shape_in, row_in, kind_fits, version_for, record_bytes};
ghost use Rattle.record.specs.RecordCalls.{same_bytes};
ghost use Rattle.record_fields.specs.Versions.{byte_of, version_named};

use spec::Shape;

// A byte as a number of any size.
fn wide(b: u8) -> usize
    ensures { (result ≡ b) × (result < 256) }
{
    b as usize
}

// The number in two bytes, most significant first.
fn number2(bytes: &[u8], at: usize) -> usize
    requires { at + 2 ≤ length bytes.now }
    ensures { result ≡ big_endian (part bytes.now at 2) }
{
    256 * wide(bytes[at]) + wide(bytes[at + 1])
}

// The number in four bytes.
fn number4(bytes: &[u8], at: usize) -> usize
    requires { at + 4 ≤ length bytes.now }
    ensures { result ≡ big_endian (part bytes.now at 4) }
{
    let high = 256 * wide(bytes[at]) + wide(bytes[at + 1]);
    256 * (256 * high + wide(bytes[at + 2])) + wide(bytes[at + 3])
}

// Whether a field of n bytes begins at a place.
pub fn field_fits(bytes: &[u8], at: usize, n: usize) -> bool
    ensures { result ≡ field_ok bytes.now at n }
{
    if bytes.len() < at {
        return false;
    }
    let left = bytes.len() - at;
    if left < 4 {
        return false;
    }
    if left - 4 < n {
        return false;
    }
    number4(bytes, at) == n
}

// The bytes of a field of n bytes that begins at a place.
pub fn field_at(bytes: &[u8], at: usize, n: usize) -> &[u8]
    requires { at + 4 + n ≤ length bytes.now }
    ensures { result.now ≡ field_at bytes.now at n }
{
    let start = at + 4;
    let end = start + n;
    &bytes[start..end]
}

// ---- versions

// The versions of a record.
#[derive(Clone, Copy, Debug, PartialEq, Eq)]
pub enum RecordVersion {
    One,
    Two,
    Three,
}

impl RecordVersion {
    // The version that a byte names, if it names one.
    #[tactic(auto, unfolding(crate::specs::Versions::version_named))]
    pub fn named(byte: u8) -> Option<RecordVersion>
        ensures { result ≡ version_named byte }
    {
        match byte {
            1 => Some(RecordVersion::One),
            2 => Some(RecordVersion::Two),
            3 => Some(RecordVersion::Three),
            _ => None,
        }
    }

    // The byte that names it.
    #[tactic(auto, unfolding(crate::specs::Versions::byte_of))]
    pub fn byte(self) -> u8
        ensures { result ≡ byte_of self }
    {
        match self {
            RecordVersion::One => 1,
            RecordVersion::Two => 2,
            RecordVersion::Three => 3,
        }
    }

    // The bytes of its head.
    #[tactic(auto, unfolding(crate::specs::Versions::byte_of, record::specs::Record::head_bytes))]
    pub fn head_length(self) -> usize
        ensures { (result ≡ head_bytes (byte_of self)) × (9 ≤ result) × (result ≤ 11) }
    {
        match self {
            RecordVersion::One => 9,
            RecordVersion::Two => 10,
            RecordVersion::Three => 11,
        }
    }
}

// The version byte of a record, 0 where it is missing.
pub fn version_of(bytes: &[u8]) -> u8
    ensures { result ≡ version_of bytes.now }
{
    match bytes.first() {
        Some(byte) => *byte,
        None => 0,
    }
}

// The bytes of the head of a version, 0 where the byte names none.
pub fn head_length(version: u8) -> usize
    ensures { (result ≡ head_bytes version) × (result ≤ 11) }
{
    let Some(known) = RecordVersion::named(version) else {
        return 0;
    };
    known.head_length()
}

// The level in the head of a version, in bits.
#[tactic(auto, unfolding(crate::specs::Versions::byte_of, record::specs::Record::head_bytes, record::specs::Record::shape_in))]
fn level_in(version: RecordVersion, head: &[u8]) -> usize
    requires { length head.now ≡ head_bytes (byte_of version) }
    ensures { result ≡ (shape_in (byte_of version) head.now).level }
{
    match version {
        RecordVersion::One => 128,
        RecordVersion::Two | RecordVersion::Three => 8 * wide(head[9]),
    }
}

// The leaf kind in the head of a version.
#[tactic(auto, unfolding(crate::specs::Versions::byte_of, record::specs::Record::head_bytes, record::specs::Record::shape_in))]
fn kind_in(version: RecordVersion, head: &[u8]) -> usize
    requires { length head.now ≡ head_bytes (byte_of version) }
    ensures { result ≡ (shape_in (byte_of version) head.now).kind }
{
    match version {
        RecordVersion::One | RecordVersion::Two => 0,
        RecordVersion::Three => wide(head[10]),
    }
}

// The shape in the head of a version.
pub fn shape_in(version: RecordVersion, head: &[u8]) -> Shape
    requires { length head.now ≡ head_bytes (byte_of version) }
    ensures { result ≡ shape_in (byte_of version) head.now }
{
    Shape {
        tau: wide(head[0]),
        k: wide(head[1]),
        w: wide(head[2]),
        t: number2(head, 3),
        level: level_in(version, head),
        kind: kind_in(version, head),
    }
}

// The row length in a head.
pub fn row_in(head: &[u8]) -> usize
    requires { 9 ≤ length head.now }
    ensures { result ≡ row_in head.now }
{
    number4(head, 5)
}

// Whether a record of a version may have a leaf kind, by the version's byte.
pub fn kind_fits(version: u8, kind: usize) -> bool
    ensures { result ≡ kind_fits version kind }
{
    if version != 3 {
        return true;
    }
    kind == 1
}

// The version that is written for a shape, by its leaf kind.
#[tactic(auto, unfolding(crate::specs::Versions::byte_of, record::specs::Record::version_for))]
pub fn version_for(s: Shape) -> RecordVersion
    ensures { byte_of result ≡ version_for s }
{
    if rules::is_ordinary(s) {
        RecordVersion::Two
    } else {
        RecordVersion::Three
    }
}

// ---- lengths of a resolved shape, with rows of b bytes

// The bytes of a challenge.
pub fn challenge_length(s: Shape) -> usize
    requires { shape_ok s ≡ true }
    ensures { (result ≡ challenge_bytes s) × (result ≤ 32) }
{
    rules::node_bytes(s)
}

// The length of the record that is written for a shape: the version byte, six lengths of fields and the IV are 41 bytes.
pub fn record_length(s: Shape, b: usize) -> usize
    requires { (shape_ok s ≡ true) × (b ≤ 8192) }
    ensures { (result ≡ record_bytes s b) × (result ≤ 273555) }
{
    let h = version_for(s).head_length();
    let front = h + challenge_length(s);
    let rest = lengths::corrections_bytes(s, b) + lengths::opening_bytes(s) + rules::hash_bytes(s);
    41 + front + rest
}

// Whether two strings are the same.
pub fn same_bytes(a: &[u8], b: &[u8]) -> bool
    ensures { result ≡ same_bytes a.now b.now }
{
    a == b
}
