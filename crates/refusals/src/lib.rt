// Why calls are refused, by names, and the tests that calls begin with: each gives the first refusal of its list of tests, in the order of the documents.
#![tactic(auto)]

ghost use Rattle.std.specs.Prelude.{◌≡◌, cond, Ok, Err};
ghost use Rattle.refusals.specs.Numbers.{front_number};
ghost use Rattle.refusals.specs.Refusal.{number_of, count_of, number_in, answer_in};

use spec::{Answer, Shape, Stretch};

// The refusals that calls of the two halves share, by the words of documents 01 and 02; their numbers stand in ../specs/Refusal.antt. Two come with the count of
// revealed nodes. 7 and 12 are of the programs, 9, 10, 11 and 13 of the record.
#[derive(Clone, Copy, Debug, PartialEq, Eq)]
pub enum Refusal {
    NotAShape,
    NotARowLength,
    BufferLength,
    GrindingBit,
    TooManyNodes(usize),
    UnusedSlot(usize),
    NotAStretch,
}

impl Refusal {
    // The number of the refusal in the documents.
    #[tactic(auto, unfolding(crate::specs::Refusal::number_of))]
    pub fn number(self) -> usize
        ensures { result ≡ number_of self }
    {
        match self {
            Refusal::NotAShape => 1,
            Refusal::NotARowLength => 2,
            Refusal::BufferLength => 3,
            Refusal::GrindingBit => 4,
            Refusal::TooManyNodes(_) => 5,
            Refusal::UnusedSlot(_) => 6,
            Refusal::NotAStretch => 8,
        }
    }

    // The count of revealed nodes, 0 where the refusal comes before they are counted.
    #[tactic(auto, unfolding(crate::specs::Refusal::count_of))]
    pub fn count(self) -> usize
        ensures { result ≡ count_of self }
    {
        match self {
            Refusal::TooManyNodes(n) | Refusal::UnusedSlot(n) => n,
            Refusal::NotAShape
            | Refusal::NotARowLength
            | Refusal::BufferLength
            | Refusal::GrindingBit
            | Refusal::NotAStretch => 0,
        }
    }
}

// What a call answers that is refused.
impl From<Refusal> for Answer {
    ghost from_gives = { λ refusal answer. answer ≡ answer_in (Err refusal) };

    fn from(refusal: Refusal) -> Answer {
        Answer {
            number: refusal.number(),
            count: refusal.count(),
        }
    }
}

// A test in a list of tests: passed, or its refusal.
pub fn test(passed: bool, refusal: Refusal) -> Result<(), Refusal>
    ensures { result ≡ cond passed (Ok tt) (Err refusal) }
{
    if passed { Ok(()) } else { Err(refusal) }
}

// The lengths of the buffers of commit, of either version.
#[derive(Clone, Copy, PartialEq, Eq)]
pub struct CommitLengths {
    pub root: usize,
    pub iv: usize,
    pub commitment: usize,
    pub tree: usize, // in version 1 the trees
    pub leaf_commitments: usize,
    pub u: usize,
    pub v: usize,
    pub corrections: usize,
}

// The lengths of the buffers of open, of either version.
#[derive(Clone, Copy, PartialEq, Eq)]
pub struct OpenLengths {
    pub challenge: usize,
    pub tree: usize, // in version 1 the trees
    pub leaf_commitments: usize,
    pub opening: usize,
}

// The lengths of the buffers of reconstruct, of either version.
#[derive(Clone, Copy, PartialEq, Eq)]
pub struct ReconstructLengths {
    pub iv: usize,
    pub challenge: usize,
    pub corrections: usize,
    pub opening: usize,
    pub commitment: usize,
    pub tree: usize, // in version 1 the trees
    pub leaf_commitments: usize,
    pub q: usize,
}

// The tests that commit and reconstruct begin with: of the shape, of the row length, of the stretch.
pub fn test_front(s: Shape, row_bits: usize, z: Stretch) -> Result<(), Refusal>
    ensures { number_in result ≡ front_number s row_bits z }
{
    test(rules::is_shape(s), Refusal::NotAShape)?;
    test(rules::is_row_length(row_bits), Refusal::NotARowLength)?;
    test(rules::is_stretch(row_bits / 8, z), Refusal::NotAStretch)
}
