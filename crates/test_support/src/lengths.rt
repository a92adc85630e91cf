// The exact lengths of the buffers of a shape. Of a shape that is refused any lengths will do.
ghost use Rattle.std.specs.Prelude.{◌≤◌};

use spec::{Shape, Stretch};

// The rows of a case: their length in bits, and the stretch that is asked for. With none the calls are those of whole rows.
#[derive(Clone, Copy)]
pub struct Rows {
    pub bits: usize,
    pub stretch: Option<Stretch>,
}

impl Rows {
    // Whole rows of so many bits.
    pub fn whole(bits: usize) -> Rows {
        Rows {
            bits,
            stretch: None,
        }
    }

    // Of rows of so many bits, `width` bytes from byte `first` on.
    pub fn part(bits: usize, first: usize, width: usize) -> Rows {
        Rows {
            bits,
            stretch: Some(Stretch { first, width }),
        }
    }

    // The bytes of a row that are asked for.
    fn width(self) -> usize {
        match self.stretch {
            Some(stretch) => stretch.width,
            None => self.bits / 8,
        }
    }
}

#[derive(Clone, Copy)]
pub struct Lengths {
    pub commitment: usize,
    pub tree: usize,
    pub leaf_commitments: usize,
    pub u: usize,
    pub v: usize,
    pub corrections: usize,
    pub opening: usize,
}

impl Lengths {
    // The lengths for a shape and rows.
    pub fn of(shape: Shape, rows: Rows) -> Lengths {
        let s = rules::resolve(shape);
        let b = rows.width().min(8192);
        let n = leaves(s);
        let w = node(s);
        Lengths {
            commitment: 2 * w,
            tree: product(w, 2 * n - 1),
            leaf_commitments: product(leaf_commitment(s), n),
            u: b,
            v: product(8 * w, b),
            corrections: product(s.tau.saturating_sub(1), b),
            opening: product(leaf_commitment(s), s.tau) + product(w, s.t),
        }
    }
}

// The leaves of a shape.
pub fn leaves(s: Shape) -> usize
    ensures { (1 ≤ result) × (result ≤ 86016) }
{
    if rules::is_shape(s) {
        rules::leaf_count(s)
    } else {
        1
    }
}

// The bytes of a node and of a challenge of a shape.
fn node(s: Shape) -> usize
    ensures { result ≤ 32 }
{
    if rules::is_shape(s) {
        rules::node_bytes(s)
    } else {
        16
    }
}

// The bytes of a leaf commitment of a shape.
fn leaf_commitment(s: Shape) -> usize
    ensures { result ≤ 96 }
{
    if rules::is_shape(s) {
        rules::commitment_bytes(s)
    } else {
        48
    }
}

// The bytes of a root and of a challenge of a shape as it is given.
pub fn challenge(shape: Shape) -> usize
    ensures { result ≤ 32 }
{
    node(rules::resolve(shape))
}

// The product of a width or a number of vectors, and a number of nodes, bytes or bits.
pub fn product(a: usize, b: usize) -> usize
    ensures { result ≤ 44040192 }
{
    a.min(256) * b.min(172032)
}
