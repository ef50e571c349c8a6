//! The hash of a text that a cache is looked up by.

use scrib_types::hashing::mix;

// The hash of a text. It multiplies once for each eight bytes; the last word may overlap the one before it.
#[inline(always)]
pub(crate) fn text_hash(text: &[u8]) -> u64 {
    let mut hash = text.len() as u64;
    let mut rest = text;
    while let [a, b, c, d, e, f, g, h, behind @ ..] = rest {
        hash = mix(hash, u64::from_le_bytes([*a, *b, *c, *d, *e, *f, *g, *h]));
        rest = behind;
    }
    mix(hash, last_word(text))
}

// The last eight bytes as one number, or all of them where they are fewer.
fn last_word(text: &[u8]) -> u64 {
    match text.last_chunk::<8>() {
        Some(bytes) => u64::from_le_bytes(*bytes),
        None => few_bytes(text),
    }
}

// Fewer than eight bytes as one number.
fn few_bytes(text: &[u8]) -> u64 {
    text.iter()
        .fold(0, |word, byte| (word << 8) | u64::from(*byte))
}
