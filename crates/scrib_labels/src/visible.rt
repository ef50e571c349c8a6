//! The visible bytes that a text begins with, looked for sixteen at a time.

ghost use Rattle.std.specs.Prelude.{◌≡◌, ◌<◌, ◌≤◌, ℕ, IfSome, true, length, map, not, slice_index};
ghost use Rattle.std.specs.List.{prefix_len};
ghost use Rattle.std.specs.Simd.Lanes.{mask_l};
ghost use Rattle.scrib_labels.specs.Tags.{is_visible};

use std::simd::prelude::*;

// How many bytes are tested at once.
const LANES: usize = 16;

// How many bytes are not visible: those behind `~`, from 127 to 255, and then 0 to 32.
const OTHERS: u8 = 162;

/// Returns the number of visible bytes that the bytes begin with, where it is less than 16. None where it is more, and
/// where there are fewer than 16 bytes.
#[inline(always)]
pub(crate) fn short_visible_run(bytes: &[u8]) -> Option<usize>
    ensures run { IfSome result (λ len. len ≡ prefix_len is_visible bytes.now) }
    ensures few { IfSome result (λ len. len < 16) }
{
    if bytes.len() < LANES {
        return None;
    }
    let found = others(u8x16::from_slice(bytes));
    if found == 0 {
        return None;
    }
    Some(found.trailing_zeros() as usize)
}

/// Returns the number of visible bytes that the bytes begin with.
#[inline(never)]
pub(crate) fn visible_run(bytes: &[u8]) -> usize
    ensures { result ≡ prefix_len is_visible bytes.now }
{
    let mut at = 0;
    while bytes.len() - at >= LANES {
        let found = others(u8x16::from_slice(&bytes[at..]));
        if found != 0 {
            return at + found.trailing_zeros() as usize;
        }
        at += LANES;
    }
    visible_end(bytes, at)
}

// The mask whose bit k is set where byte k is not visible.
#[inline(always)]
fn others(bytes: u8x16) -> u64
    ensures { result ≡ mask_l (map (λ b. not (is_visible b)) bytes) }
{
    (bytes - u8x16::splat(b'~' + 1))
        .simd_lt(u8x16::splat(OTHERS))
        .to_bitmask()
}

// The number of visible bytes that the bytes begin with, where those in front of `from` are visible.
fn visible_end(bytes: &[u8], from: usize) -> usize
    requires within { from ≤ length bytes.now }
    requires visible { (k : ℕ) → k < from → is_visible (slice_index bytes.now k) ≡ true }
    ensures { result ≡ prefix_len is_visible bytes.now }
{
    for at in from..bytes.len() {
        if bytes[at] < b'!' || bytes[at] > b'~' {
            return at;
        }
    }
    bytes.len()
}
