//! Comparisons of short texts.

ghost use Rattle.std.specs.Prelude.{◌≡◌, ◌≤◌, ◌<◌, ◌↔◌, IsTrue, length, take};

/// Whether both are the same bytes. It compares eight bytes at a time, then four, and then the rest. Most texts here
/// are too short for a comparison that is made for long ones.
pub fn same_bytes(a: &[u8], b: &[u8]) -> bool
    ensures { IsTrue result ↔ (a.now ≡ b.now) }
{
    if a.len() != b.len() {
        return false;
    }
    let mut left = a;
    let mut right = b;
    while let [_, _, _, _, _, _, _, _, left_rest @ ..] = left {
        let [_, _, _, _, _, _, _, _, right_rest @ ..] = right else {
            return false;
        };
        if !same_eight(left, right) {
            return false;
        }
        left = left_rest;
        right = right_rest;
    }
    same_few(left, right)
}

// Whether both begin with the same eight bytes, which are compared as one number.
fn same_eight(a: &[u8], b: &[u8]) -> bool
    requires a { 8 ≤ length a.now }
    requires b { 8 ≤ length b.now }
    ensures { IsTrue result ↔ (take 8 a.now ≡ take 8 b.now) }
{
    match (a.first_chunk::<8>(), b.first_chunk::<8>()) {
        (Some(x), Some(y)) => same_word(x, y),
        _ => false,
    }
}

// Whether the eight bytes are the same.
fn same_word(a: &[u8; 8], b: &[u8; 8]) -> bool
    ensures { IsTrue result ↔ (a.now ≡ b.now) }
{
    u64::from_le_bytes(*a) == u64::from_le_bytes(*b)
}

// Whether both are the same bytes, where `a` has fewer than eight.
fn same_few(a: &[u8], b: &[u8]) -> bool
    requires { length a.now < 8 }
    ensures { IsTrue result ↔ (a.now ≡ b.now) }
{
    match (a.first_chunk::<4>(), b.first_chunk::<4>()) {
        (Some(x), Some(y)) => {
            u32::from_le_bytes(*x) == u32::from_le_bytes(*y) && same_rest(&a[4..], &b[4..])
        }
        (None, None) => same_rest(a, b),
        _ => false,
    }
}

// Whether both are the same bytes, where `a` has fewer than four.
fn same_rest(a: &[u8], b: &[u8]) -> bool
    requires { length a.now < 4 }
    ensures { IsTrue result ↔ (a.now ≡ b.now) }
{
    match (a, b) {
        ([], []) => true,
        ([x0], [y0]) => x0 == y0,
        ([x0, x1], [y0, y1]) => x0 == y0 && x1 == y1,
        ([x0, x1, x2], [y0, y1, y2]) => x0 == y0 && x1 == y1 && x2 == y2,
        _ => false,
    }
}
