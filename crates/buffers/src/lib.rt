// Parts of lent buffers: copied from one to another, filled with zeros, and tested for zeros.
#![tactic(auto)]

ghost use Rattle.std.specs.Prelude.{◌≡◌, ◌++◌, ◌+◌, ◌-◌, ◌≤◌, length, take, drop};
ghost use Rattle.spec.specs.Bytes.{part, zeros, all_zero};

// Copies src to the front of dst.
pub fn copy(src: &[u8], dst: &mut [u8])
    requires { length src.now ≤ length dst.old }
    ensures { dst.new ≡ src.now ++ drop (length src.now) dst.old }
{
    dst[..src.len()].copy_from_slice(src);
}

// Copies n bytes of src from byte `from` on to dst from byte `at` on.
pub fn copy_part(src: &[u8], from: usize, n: usize, dst: &mut [u8], at: usize)
    requires { (from + n ≤ length src.now) × (at + n ≤ length dst.old) }
    ensures { dst.new ≡ take at dst.old ++ (part src.now from n ++ drop (at + n) dst.old) }
{
    copy(&src[from..from + n], &mut dst[at..at + n]);
}

// Zeros from byte `at` on.
pub fn clear_from(out: &mut [u8], at: usize)
    requires { at ≤ length out.old }
    ensures { out.new ≡ take at out.old ++ zeros (length out.old - at) }
{
    out[at..].fill(0);
}

// Whether each byte from byte `at` on is 0.
pub fn is_clear_from(xs: &[u8], at: usize) -> bool
    requires { at ≤ length xs.now }
    ensures { result ≡ all_zero (drop at xs.now) }
{
    xs[at..].iter().all(|x| *x == 0)
}
