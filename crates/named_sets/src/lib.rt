// The named sets, document 02, E13: the table stands in ../specs.
#![tactic(auto)]

ghost use Rattle.std.specs.Prelude.{◌≡◌, ◌&&◌, eqb};
ghost use Rattle.named_sets.specs.NamedSets.{same_shape, named_ok};

use spec::Shape;

// Whether a shape and a row length have these numbers.
fn is_row(
    s: Shape,
    n: usize,
    tau: usize,
    k: usize,
    w: usize,
    t: usize,
    level: usize,
    kind: usize,
    row: usize,
) -> bool
    ensures { result ≡ (same_shape s (record { tau = tau; k = k; w = w; t = t; level = level; kind = kind }) && eqb n row) }
{
    (s.tau == tau)
        & (s.k == k)
        & (s.w == w)
        & (s.t == t)
        & (s.level == level)
        & (s.kind == kind)
        & (n == row)
}

// Whether a shape and a row length in bits are those of a named set.
pub fn is_named(s: Shape, n: usize) -> bool
    ensures { result ≡ named_ok s n }
{
    let em = is_row(s, n, 11, 11, 7, 103, 128, 1, 1360)
        | (is_row(s, n, 16, 7, 8, 112, 128, 1, 1360)
            | (is_row(s, n, 16, 11, 8, 162, 192, 1, 2320)
                | (is_row(s, n, 24, 7, 8, 176, 192, 1, 2320)
                    | (is_row(s, n, 22, 11, 6, 218, 256, 1, 3472)
                        | is_row(s, n, 32, 7, 8, 234, 256, 1, 3472)))));
    is_row(s, n, 11, 11, 7, 102, 128, 0, 1680)
        | (is_row(s, n, 16, 7, 8, 110, 128, 0, 1680)
            | (is_row(s, n, 16, 11, 12, 162, 192, 0, 3088)
                | (is_row(s, n, 24, 7, 8, 163, 192, 0, 3088)
                    | (is_row(s, n, 22, 11, 6, 245, 256, 0, 3888)
                        | (is_row(s, n, 32, 7, 8, 246, 256, 0, 3888) | em)))))
}
