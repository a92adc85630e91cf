// A signing record, document 02, E6: the definitions stand in ../specs, laws in ../proofs.
#![tactic(auto)]

// The lengths of the work buffers that a record asks for, with the number of the refusal of its front, or 0. What a public call gives, by document 02: so the
// number stands beside the lengths, as in a call's answer.
#[derive(Clone, Copy)]
pub struct Lengths {
    pub number: usize,
    pub tree: usize,
    pub leaf_commitments: usize,
    pub q: usize,
}

// The length of the record of a shape and a row length, with the number of the refusal, or 0; a public call's answer too.
#[derive(Clone, Copy)]
pub struct RecordLength {
    pub number: usize,
    pub bytes: usize,
}
