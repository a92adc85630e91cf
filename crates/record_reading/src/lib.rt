// What reading a record gives. What its front says is read once, and the lengths of its fields are made of that once; both go on by value. The bytes of the fields
// are tested by a reader, record_reader, and handed out by it where they are used.
#![tactic(auto)]

ghost use Rattle.std.specs.Prelude.{◌≡◌, true, ◌&&◌, cond, List, [], ◌∷◌, ℕ, ◌<◌, ◌≤◌, length, IfOk, Ok, Err};
ghost use Rattle.spec.specs.Shapes.{shape_ok};
ghost use Rattle.spec.specs.Calls.{first_refusal, row_ok};
ghost use Rattle.record.specs.Record.{head_bytes, kind_fits, fields_test, end_of, read_number};
ghost use Rattle.record_fields.specs.Versions.{byte_of};
ghost use Rattle.record_reading.specs.Front.{number_of, number_in, said_number, front_in, FrontOf, ReadFront, SizesOf};

use record_fields::RecordVersion;
use spec::{Answer, Shape};

// Why a record is refused before reconstruct is made on its fields, by the words of document 02; the numbers stand in ../specs/Front.antt.
#[derive(Clone, Copy, Debug, PartialEq, Eq)]
pub enum RecordRefusal {
    NotAShape,
    NotARowLength,
    UnknownVersion,
    NotARecord,
    NotANamedSet,
}

impl RecordRefusal {
    // The number of the refusal in the documents.
    #[tactic(auto, unfolding(crate::specs::Front::number_of))]
    pub fn number(self) -> usize
        ensures { result ≡ number_of self }
    {
        match self {
            RecordRefusal::NotAShape => 1,
            RecordRefusal::NotARowLength => 2,
            RecordRefusal::UnknownVersion => 9,
            RecordRefusal::NotARecord => 10,
            RecordRefusal::NotANamedSet => 13,
        }
    }
}

// What a check answers that is refused so: no count goes with these numbers.
impl From<RecordRefusal> for Answer {
    ghost from_gives = { λ refusal answer. (answer.number ≡ number_of refusal) × (answer.count ≡ 0) };

    fn from(refusal: RecordRefusal) -> Answer {
        Answer {
            number: refusal.number(),
            count: 0,
        }
    }
}

// What the front of a record says: the version, the shape as written and resolved, the row length in bits and in bytes.
#[derive(Clone, Copy)]
pub struct Front {
    pub version: RecordVersion,
    pub shape: Shape,
    pub resolved: Shape,
    pub row: usize,
    pub row_bytes: usize,
}

// The lengths of fields one and three to six. An IV has 16 bytes.
#[derive(Clone, Copy)]
pub struct Sizes {
    pub head: usize,
    pub challenge: usize,
    pub corrections: usize,
    pub opening: usize,
    pub commitment: usize,
}

// The tests of what a head says: of the shape with its kind, of the row length.
fn test_said(
    version: RecordVersion,
    kind: usize,
    resolved: Shape,
    row: usize,
) -> Result<(), RecordRefusal>
    ensures { number_in result ≡ first_refusal ((shape_ok resolved && kind_fits (byte_of version) kind, 1) ∷ (row_ok row, 2) ∷ []) }
{
    if !(rules::is_shape(resolved) & record_fields::kind_fits(version.byte(), kind)) {
        return Err(RecordRefusal::NotAShape);
    }
    if !rules::is_row_length(row) {
        return Err(RecordRefusal::NotARowLength);
    }
    Ok(())
}

// What a head of a version says.
fn front_in(version: RecordVersion, head: &[u8]) -> Result<Front, RecordRefusal>
    requires { length head.now ≡ head_bytes (byte_of version) }
    ensures number { number_in result ≡ said_number (byte_of version) head.now }
    ensures says { IfOk result (λ f. f ≡ front_in version head.now) }
{
    let shape = record_fields::shape_in(version, head);
    let resolved = rules::resolve(shape);
    let row = record_fields::row_in(head);
    test_said(version, shape.kind, resolved, row)?;
    Ok(Front {
        version,
        shape,
        resolved,
        row,
        row_bytes: row / 8,
    })
}

// The front of a record, or why it is refused: 9, 10, 1 or 2.
pub fn front_of(bytes: &[u8]) -> Result<Front, RecordRefusal>
    ensures { ReadFront bytes.now result }
{
    let Some(version) = RecordVersion::named(record_fields::version_of(bytes)) else {
        return Err(RecordRefusal::UnknownVersion);
    };
    let h = version.head_length();
    if !record_reader::head_fits(bytes, h) {
        return Err(RecordRefusal::NotARecord);
    }
    front_in(version, record_reader::head_of(bytes, h))
}

// The lengths of the fields of every record that has this front.
pub fn sizes_of(f: Front) -> Sizes
    requires { (shape_ok f.resolved ≡ true) × (f.row_bytes ≤ 8192) }
    ensures { (rec : List ℕ) → FrontOf rec f → SizesOf rec result }
{
    let s = f.resolved;
    Sizes {
        head: f.version.head_length(),
        challenge: record_fields::challenge_length(s),
        corrections: lengths::corrections_bytes(s, f.row_bytes),
        opening: lengths::opening_bytes(s),
        commitment: rules::hash_bytes(s),
    }
}

// Where the sixth field ends: Ok where fields two to six are there, Err where one is not. What stands behind it is not looked at.
pub fn rest(bytes: &[u8], z: Sizes) -> Result<usize, usize>
    requires { SizesOf bytes.now z }
    ensures { result ≡ cond (fields_test bytes.now).0 (Ok (end_of bytes.now)) (Err (end_of bytes.now)) }
{
    record_reader::rest_of(
        bytes,
        z.head,
        16,
        z.challenge,
        z.corrections,
        z.opening,
        z.commitment,
    )
}

// Whether a record with such a front is read: its fields are there, and nothing is left over.
pub fn is_read(bytes: &[u8], z: Sizes) -> bool
    requires { SizesOf bytes.now z }
    ensures { read_number bytes.now ≡ cond result 0 10 }
{
    match rest(bytes, z) {
        Ok(end) => bytes.len() == end,
        Err(_) => false,
    }
}
