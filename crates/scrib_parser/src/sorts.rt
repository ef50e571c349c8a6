//! The interner of payload types: equal dotted names share their memory.

ghost use Rattle.std.specs.Prelude.{◌≡◌, ◌↔◌, ◌<◌, IfOk, IsTrue, [], length};

use crate::names::NameInterner;
use crate::word::Word;
use scrib_types::hashing::{empty_slots, hash_bytes, slot_of};
use scrib_types::name::{Dotted, Name};
use std::alloc::{AllocError, Global};
use std::mem;

/// A table of dotted names, for the payload types of one text. For one that is interned again, no name is looked up.
#[derive(Drop)]
pub(crate) struct SortInterner<'a> {
    slots: Vec<Option<Dotted>>,
    /// A spare vector for the words of the next dotted name.
    room: Vec<Word<'a>>,
}

impl<'a> SortInterner<'a> {
    /// An empty table with this number of slots.
    ///
    /// # Errors
    /// `AllocError` where memory for the slots is refused.
    pub(crate) fn new(alloc: Global, count: usize) -> Result<SortInterner<'a>, AllocError> {
        let slots = empty_slots(alloc, count)?;
        let room = Vec::new(alloc);
        Ok(SortInterner { slots, room })
    }

    /// An empty vector of words, with the capacity of the last one that was interned.
    pub(crate) fn room(&mut self, alloc: Global) -> Vec<Word<'a>>
        ensures { result.items ≡ [] }
    {
        let mut words = mem::replace(&mut self.room, Vec::new(alloc));
        words.clear();
        words
    }

    /// The dotted name of these words. It shares the memory of an equal one in the table.
    ///
    /// # Errors
    /// `AllocError` where memory for it is refused, or its reference count can't rise.
    pub(crate) fn intern(
        &mut self,
        alloc: Global,
        names: &mut NameInterner,
        words: Vec<Word<'a>>,
    ) -> Result<Dotted, AllocError>
        requires { 0 < length words.items }
        ensures { IfOk result (λ shared. shared ≡ words.entry.items) }
    {
        let at = slot_of(hash_of(&words), self.slots.len());
        if at >= self.slots.len() {
            return Dotted::from_vec(alloc, names.names(alloc, &words)?);
        }
        if let Some(kept) = &self.slots[at] {
            if are_words(kept.as_slice(), &words) {
                let shared = kept.copy()?;
                self.room = words;
                return Ok(shared);
            }
        }
        let dotted = Dotted::from_vec(alloc, names.names(alloc, &words)?)?;
        self.slots[at] = Some(dotted.copy()?);
        self.room = words;
        Ok(dotted)
    }
}

// Whether the names are these words, in the same order.
fn are_words(names: &[Name], words: &[Word]) -> bool
    ensures { IsTrue result ↔ (names.now ≡ words.now) }
{
    if names.len() != words.len() {
        return false;
    }
    for i in 0..names.len() {
        if !names[i].has_bytes(words[i].as_bytes()) {
            return false;
        }
    }
    true
}

// The hash of a dotted name.
fn hash_of(words: &[Word]) -> u64 {
    let mut hash = 0;
    for word in words {
        hash = hash_bytes(hash, word.as_bytes());
    }
    hash
}
