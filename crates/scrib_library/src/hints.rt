//! Hints for the indices of versions, by a hash of their names. Correctness does not depend on them: the user of a hint
//! compares the name found there.

use crate::library::MAX_PROTOCOLS;
use scrib_types::hashing::{hash_names, slot_of};
use scrib_types::name::Dotted;
use std::alloc::{AllocError, Global};

// The number of hint slots, a power of two.
const SLOTS: usize = 4096;

/// For each slot of names an index into the versions, and the slot of each version's name. Both are allocated on first
/// use.
#[derive(Drop)]
pub struct Hints {
    places: Vec<u16>,
    slots: Vec<u16>,
    // The number of versions when the places were last filled.
    count: usize,
}

impl Hints {
    /// Returns an empty table, without allocating.
    pub fn new(alloc: Global) -> Hints {
        Hints {
            places: Vec::new(alloc),
            slots: Vec::new(alloc),
            count: 0,
        }
    }

    /// Allocates the table, once.
    ///
    /// # Errors
    /// `AllocError` if memory was refused.
    pub fn make_room(&mut self, alloc: Global) -> Result<(), AllocError> {
        if self.places.is_empty() {
            let mut places = Vec::with_capacity(alloc, SLOTS)?;
            for _ in 0..SLOTS {
                places.push(0)?;
            }
            self.slots = Vec::with_capacity(alloc, MAX_PROTOCOLS)?;
            self.places = places;
        }
        Ok(())
    }

    /// Records that a version whose name has this slot was inserted at this index.
    pub fn insert(&mut self, at: usize, slot: u16) {
        if at <= self.slots.len() {
            let _ = self.slots.insert(at, slot);
        }
    }

    /// Records that the version at this index was removed.
    pub fn remove(&mut self, at: usize) {
        if at < self.slots.len() {
            let _ = self.slots.remove(at);
        }
    }

    /// Records the versions' indices in their slots; of versions with one slot it keeps the last. If the number of
    /// versions is unchanged, most indices are too, and the places stay as they are.
    pub fn renew(&mut self) {
        if self.slots.len() == self.count {
            return;
        }
        self.count = self.slots.len();
        for (place, slot) in (0..=u16::MAX).zip(&self.slots) {
            if let Some(noted) = self.places.get_mut(usize::from(*slot)) {
                *noted = place;
            }
        }
    }

    /// Returns the likely index of the version of this name.
    pub fn place_of(&self, name: &Dotted) -> usize {
        self.place_in(hint_slot(name))
    }

    /// Returns the likely index of the version whose name has this slot.
    pub fn place_in(&self, slot: u16) -> usize {
        match self.places.get(usize::from(slot)) {
            Some(place) => usize::from(*place),
            None => 0,
        }
    }
}

/// Returns the slot of the name by its last two parts. The parts in front are mostly alike among a library's protocols.
pub fn hint_slot(name: &Dotted) -> u16 {
    let parts = name.as_slice();
    let last_two = &parts[parts.len().saturating_sub(2)..];
    u16::try_from(slot_of(hash_names(0, last_two), SLOTS)).unwrap_or(0)
}
