//! Comparisons of long byte strings.

ghost use Rattle.std.specs.Prelude.{◌≡◌, ◌≤◌, ◌↔◌, IsTrue, length, take};

use scrib_types::bytes::same_bytes;

// The number of bytes that are compared at once.
const BLOCK: usize = 16;

/// Returns whether both are the same bytes. It compares 16 bytes at a time, and what is left as a short text. A flat
/// form is as long as its protocol, and each batch of notes of a service compares two.
pub(crate) fn same_long_bytes(a: &[u8], b: &[u8]) -> bool
    ensures { IsTrue result ↔ (a.now ≡ b.now) }
{
    if a.len() != b.len() {
        return false;
    }
    let mut left = a;
    let mut right = b;
    while left.len() >= BLOCK && right.len() >= BLOCK {
        if !same_block(left, right) {
            return false;
        }
        left = &left[BLOCK..];
        right = &right[BLOCK..];
    }
    same_bytes(left, right)
}

// Returns whether both begin with the same 16 bytes, which are compared as two numbers.
#[inline(always)]
fn same_block(a: &[u8], b: &[u8]) -> bool
    requires a { 16 ≤ length a.now }
    requires b { 16 ≤ length b.now }
    ensures { IsTrue result ↔ (take 16 a.now ≡ take 16 b.now) }
{
    same_eight(a, b) && same_eight(&a[8..], &b[8..])
}

// Returns whether both begin with the same eight bytes.
#[inline(always)]
fn same_eight(a: &[u8], b: &[u8]) -> bool
    requires a { 8 ≤ length a.now }
    requires b { 8 ≤ length b.now }
    ensures { IsTrue result ↔ (take 8 a.now ≡ take 8 b.now) }
{
    match (a.first_chunk::<8>(), b.first_chunk::<8>()) {
        (Some(x), Some(y)) => same_number(x, y),
        _ => false,
    }
}

// Returns whether the eight bytes are the same.
#[inline(always)]
fn same_number(a: &[u8; 8], b: &[u8; 8]) -> bool
    ensures { IsTrue result ↔ (a.now ≡ b.now) }
{
    u64::from_le_bytes(*a) == u64::from_le_bytes(*b)
}
