//! The interner of names and messages, from one text to the next.

use crate::messages::MessageInterner;
use crate::names::NameInterner;
use std::alloc::{AllocError, Global};

// The number of a text's tokens for which a table has one slot. Most tokens are marks, reserved words and repeated
// names, and a small table stays in a processor's cache.
const TOKENS_PER_SLOT: usize = 32;

// The least number of slots.
const MIN_SLOTS: usize = 32;

/// The number of slots for a text of this number of tokens, a power of two.
pub(crate) fn slot_count(tokens: usize) -> usize {
    (tokens / TOKENS_PER_SLOT)
        .max(MIN_SLOTS)
        .next_power_of_two()
}

/// Tables of names and short messages. An equal one, in the same text or in a later one, shares their memory.
/// Correctness does not depend on which ones are kept.
#[derive(Drop)]
pub struct Interner {
    tables: Option<(NameInterner, MessageInterner)>,
}

impl Interner {
    /// An interner without tables. It allocates nothing.
    pub fn new() -> Interner {
        Interner { tables: None }
    }

    /// Takes the tables out, to be put back by `give_back`. Where none have `count` slots, it makes empty ones.
    ///
    /// # Errors
    /// `AllocError` where memory for the tables is refused.
    pub(crate) fn take(
        &mut self,
        alloc: Global,
        count: usize,
    ) -> Result<(NameInterner, MessageInterner), AllocError> {
        match self.tables.take() {
            Some((names, messages)) if names.count() >= count => Ok((names, messages)),
            _ => {
                let names = NameInterner::new(alloc, count)?;
                Ok((names, MessageInterner::new(alloc, count)?))
            }
        }
    }

    /// Keeps the tables for the next text.
    pub(crate) fn give_back(&mut self, names: NameInterner, messages: MessageInterner) {
        self.tables = Some((names, messages));
    }
}
