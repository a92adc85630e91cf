// What is handed down by value: a call's job through the crates of the vectors, and what the generator is given beside a key; and the two versions of FAEST whose
// bytes are made here. What differs between the two stands in ../specs/Versions.antt.
#![tactic(auto)]

use spec::{Shape, Stretch};

#[derive(Clone, Copy)]
pub enum Version {
    One,
    Two,
}

// What is the same for every vector of a call: the shape, the stretch of every row, the IV, and the version whose bytes are made.
#[derive(Clone, Copy)]
pub struct Job {
    pub shape: Shape,
    pub stretch: Stretch,
    pub iv: [u8; 16],
    pub version: Version,
}

// What the generator is given beside a key: the IV, the tweak, which version 1 does not use, and the version whose counter it is.
#[derive(Clone, Copy)]
pub struct Nonce {
    pub iv: [u8; 16],
    pub tweak: u32,
    pub version: Version,
}
