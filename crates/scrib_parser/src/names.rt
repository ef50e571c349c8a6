//! The interner of names: equal names share their memory.

ghost use Rattle.std.specs.Prelude.{◌≡◌, IsTrue, IfOk, Some, None, if◌then◌else◌};
ghost use Rattle.scrib_types.specs.Names as names;

use crate::word::Word;
use scrib_types::hashing::{empty_slots, hash_bytes, slot_of};
use scrib_types::name::Name;
use std::alloc::{AllocError, Global};

// A name in the table.
#[derive(Drop)]
struct InternedName {
    name: Name,
    ghost named: { IsTrue (names.is_name name) },
}

/// A table of names. A name that is interned again allocates nothing.
#[derive(Drop)]
pub(crate) struct NameInterner {
    slots: Vec<Option<InternedName>>,
}

impl NameInterner {
    /// An empty table with this number of slots.
    ///
    /// # Errors
    /// `AllocError` where memory for the slots is refused.
    pub(crate) fn new(alloc: Global, count: usize) -> Result<NameInterner, AllocError> {
        let slots = empty_slots(alloc, count)?;
        Ok(NameInterner { slots })
    }

    /// The number of slots.
    pub(crate) fn count(&self) -> usize {
        self.slots.len()
    }

    /// The name that the bytes are, or `None` where they are no name.
    ///
    /// # Errors
    /// `AllocError` where memory for the name is refused, or its reference count can't rise.
    pub(crate) fn name(&mut self, alloc: Global, bytes: &[u8]) -> Result<Option<Name>, AllocError>
        ensures { IfOk result (λ name. name ≡ (if names.is_name bytes.now then Some bytes.now else None)) }
    {
        let at = slot_of(hash_bytes(0, bytes), self.slots.len());
        if at >= self.slots.len() {
            return Name::from_bytes(alloc, bytes);
        }
        if let Some(kept) = &self.slots[at] {
            if kept.name.has_bytes(bytes) {
                return Ok(Some(kept.name.copy()?));
            }
        }
        let Some(name) = Name::from_bytes(alloc, bytes)? else {
            return Ok(None);
        };
        self.slots[at] = Some(InternedName { name: name.copy()? });
        Ok(Some(name))
    }

    /// The names that the words are, in order.
    ///
    /// # Errors
    /// `AllocError` where memory for them is refused, or a name's reference count can't rise.
    pub(crate) fn names(&mut self, alloc: Global, words: &[Word]) -> Result<Vec<Name>, AllocError>
        ensures { IfOk result (λ names. names.items ≡ words.now) }
    {
        let mut names = Vec::with_capacity(alloc, words.len())?;
        for word in words {
            names.push(self.name_of_word(alloc, word)?)?;
        }
        Ok(names)
    }

    // The name that the word is.
    fn name_of_word(&mut self, alloc: Global, word: &Word) -> Result<Name, AllocError>
        ensures { IfOk result (λ name. name ≡ word.now) }
    {
        match self.name(alloc, word.as_bytes())? {
            Some(name) => Ok(name),
            None => unreachable!(),
        }
    }
}
