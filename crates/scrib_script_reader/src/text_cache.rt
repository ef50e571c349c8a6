//! A cache of values by the texts that spell them.

ghost use Rattle.std.specs.Prelude.{◌≡◌, ℕ, List, IfSome};

use crate::text_hash::text_hash;
use scrib_types::bytes::same_bytes;
use std::alloc::{AllocError, Global};

// The slots that a cache begins with, and the most that it has. Both are powers of two.
const FIRST_SLOTS: usize = 16;

const MAX_SLOTS: usize = 1024;

// The most bytes of a text that is cached.
const MAX_KEPT_BYTES: usize = 256;

// A value that texts spell. The ghost members say which texts spell which value, and that this has at most one proof.
pub(crate) trait Spelled: Drop {
    ghost spells: { List ℕ → Self → Type 0 };

    ghost spells_once: { (text : List ℕ) → (value : Self) → IsProp (spells text value) };
}

// A value, and a text that spells it.
#[derive(Drop)]
struct Entry<T: Spelled> {
    text: Vec<u8>,
    value: T,
    ghost spelled: { T.spells text.items value } by { T.spells_once text.items value },
}

// A cache of values by their texts. The lines of a script repeat few texts, so most values are found here and shared.
// A new value replaces the one in its slot. The slots are doubled first while another text is there. What then lies in a
// slot that isn't its own is not found any more.
#[derive(Drop)]
pub(crate) struct TextCache<T: Spelled> {
    alloc: Global,
    slots: Vec<Option<Entry<T>>>,
}

impl<T: Spelled> TextCache<T> {
    // An empty cache, which allocates with its first value.
    pub fn new(alloc: Global) -> TextCache<T> {
        TextCache {
            alloc,
            slots: Vec::new(alloc),
        }
    }

    // Where the cache allocates.
    pub fn allocator(&self) -> Global {
        self.alloc
    }

    // The value that is cached for this text, if one is.
    pub fn find(&self, text: &[u8]) -> Option<&T>
        ensures { IfSome result (λ value. T.spells text.now value.now) }
    {
        let Some(Some(entry)) = self.slots.get(self.slot_of(text)) else {
            return None;
        };
        if !same_bytes(entry.text.as_slice(), text) {
            return None;
        }
        Some(&entry.value)
    }

    // Stores the value that this text spells, unless the text is too long.
    pub fn store(&mut self, text: &[u8], value: T) -> Result<(), AllocError>
        requires { T.spells text.now value }
    {
        if text.len() > MAX_KEPT_BYTES {
            return Ok(());
        }
        self.make_room(text)?;
        let entry = Entry {
            text: text.to_vec(self.alloc)?,
            value,
        };
        let at = self.slot_of(text);
        if let Some(slot) = self.slots.get_mut(at) {
            *slot = Some(entry);
        }
        Ok(())
    }

    // Makes the first slots, or twice as many where a value is in the slot of this text.
    fn make_room(&mut self, text: &[u8]) -> Result<(), AllocError> {
        let count = self.slots.len();
        if count == 0 {
            return self.slots.resize_with(FIRST_SLOTS, || None);
        }
        if count < MAX_SLOTS && matches!(self.slots.get(self.slot_of(text)), Some(Some(_))) {
            return self.slots.resize_with(2 * count, || None);
        }
        Ok(())
    }

    // The slot of a text among as many as there are: some of the upper ten bits of its hash.
    #[inline(always)]
    fn slot_of(&self, text: &[u8]) -> usize {
        (text_hash(text) >> 54) as usize & self.slots.len().saturating_sub(1)
    }
}
