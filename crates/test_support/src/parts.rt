// The front of a buffer.

// The first n bytes, or all where there are fewer.
pub fn front(a: &[u8], n: usize) -> &[u8] {
    &a[..n.min(a.len())]
}

// The same, to be written.
pub fn front_mut(a: &mut [u8], n: usize) -> &mut [u8] {
    let m = n.min(a.len());
    &mut a[..m]
}
