// The types that every public contract shares. The definitions stand in ../specs, in the order of specs/Lib.antt.
#![tactic(auto)]

// A shape: tau vectors, the first level - w - tau k of depth k + 1 and the others of depth k, w grinding bits, an opening of at most t nodes, the security level in
// bits, 128, 192 or 256, and the leaf kind, 0 ordinary or 1 Even-Mansour (document 01, "The shape and the tree"; document 02, E2, E7 and E8).
#[derive(Clone, Copy)]
pub struct Shape {
    pub tau: usize,
    pub k: usize,
    pub w: usize,
    pub t: usize,
    pub level: usize,
    pub kind: usize,
}

// A stretch of every row: `width` bytes from byte `first` on (document 02, E1: g and f). The whole row of b bytes is the stretch 0, b.
#[derive(Clone, Copy)]
pub struct Stretch {
    pub first: usize,
    pub width: usize,
}

// What each call answers: 0 or the number of the refusal, and the node count.
#[derive(Clone, Copy)]
pub struct Answer {
    pub number: usize,
    pub count: usize,
}
