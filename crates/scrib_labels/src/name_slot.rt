//! The slots of names in a table of hints. A user of the table compares the name that it finds.

use scrib_types::hashing::{hash_bytes, mix};

// The most bytes of a name that its first and its last eight bytes cover.
const MAX_COVERED_BYTES: usize = 16;

/// Returns the slot of the name in a table of `count` slots, a power of two. Any number where there are none.
#[inline(always)]
pub(crate) fn name_slot(name: &[u8], count: usize) -> usize {
    // The highest byte of the hash depends on the whole name, so it comes first.
    name_hash(name).swap_bytes() as usize & count.wrapping_sub(1)
}

// The hash of the name. Most names are short, and two words take the place of a loop.
#[inline(always)]
fn name_hash(name: &[u8]) -> u64 {
    if name.len() > MAX_COVERED_BYTES {
        return hash_bytes(0, name);
    }
    match (name.first_chunk::<8>(), name.last_chunk::<8>()) {
        (Some(first), Some(last)) => {
            hash_words(u64::from_le_bytes(*first), u64::from_le_bytes(*last))
        }
        _ => short_name_hash(name),
    }
}

// The same of a name of fewer than eight bytes.
#[inline(always)]
fn short_name_hash(name: &[u8]) -> u64 {
    match (name.first_chunk::<4>(), name.last_chunk::<4>()) {
        (Some(first), Some(last)) => hash_words(
            u64::from(u32::from_le_bytes(*first)),
            u64::from(u32::from_le_bytes(*last)),
        ),
        _ => hash_bytes(0, name),
    }
}

// The hash of two words.
#[inline(always)]
fn hash_words(first: u64, last: u64) -> u64 {
    mix(mix(0, first), last)
}
