//! The hash of bytes and names, and the slots of the program's hash tables. A user of a table compares what it finds.

ghost use Rattle.std.specs.Prelude.{◌≡◌, ◌<◌, IfOk, None, replicate};
ghost use Rattle.std.specs.Int.{w32, from_le_bytes};
ghost use Rattle.scrib_types.specs.Hashing as spec;

use crate::name::Name;
use std::alloc::{AllocError, Global};

/// An odd number whose bits look random: 2^64 divided by the golden ratio (Knuth, The Art of Computer Programming 3).
const MULTIPLIER: u64 = 0x9e37_79b9_7f4a_7c15;

/// Returns the hash with the word after it. Each bit of both affects the upper half.
#[inline(always)]
pub fn mix(hash: u64, word: u64) -> u64
    ensures { result ≡ spec.mix hash word }
{
    (hash.rotate_left(5) ^ word).wrapping_mul(MULTIPLIER)
}

/// Returns the hash of the bytes after others with the hash `before`. It takes four bytes at a time. A byte 1 follows
/// the last one to three, so that their number counts.
pub fn hash_bytes(before: u64, bytes: &[u8]) -> u64
    ensures { result ≡ spec.hash_bytes before bytes.now }
{
    let mut hash = before;
    let mut rest = bytes;
    while let [a, b, c, d, behind @ ..] = rest {
        hash = mix(hash, word_of([*a, *b, *c, *d]));
        rest = behind;
    }
    match rest {
        [a, b, c, ..] => mix(hash, word_of([*a, *b, *c, 1])),
        [a, b] => mix(hash, word_of([*a, *b, 1, 0])),
        [a] => mix(hash, word_of([*a, 1, 0, 0])),
        [] => hash,
    }
}

// The four bytes as one number, the first one lowest.
fn word_of(bytes: [u8; 4]) -> u64
    ensures { result ≡ from_le_bytes w32 bytes }
{
    u64::from(u32::from_le_bytes(bytes))
}

/// Returns the hash of the names after bytes with the hash `before`.
pub fn hash_names(before: u64, names: &[Name]) -> u64
    ensures { result ≡ spec.hash_names before names.now }
{
    let mut hash = before;
    for name in names {
        hash = hash_bytes(hash, name.as_bytes());
    }
    hash
}

/// Returns the slot of a value with this hash, in a table of `count` slots, a power of two.
pub fn slot_of(hash: u64, count: usize) -> usize
    ensures slot { result ≡ spec.slot_of hash count }
    ensures within { 0 < count → result < count }
{
    (hash >> 32) as usize & count.saturating_sub(1)
}

/// Returns this number of empty slots.
///
/// # Errors
/// `AllocError` where memory for them is refused.
pub fn empty_slots<T: Drop>(alloc: Global, count: usize) -> Result<Vec<Option<T>>, AllocError>
    ensures { IfOk result (λ slots. slots.items ≡ replicate count None) }
{
    let mut slots = Vec::with_capacity(alloc, count)?;
    for _ in 0..count {
        slots.push(None)?;
    }
    Ok(slots)
}
