//! Hints for where the pair of an exchange is among the flights.

use scrib_types::hashing::slot_of;
use scrib_types::shared_event::SharedEvent;

/// The number of slots, a power of two. Most protocols have so few exchanges that each has a slot of its own.
const SLOTS: usize = 256;

/// For each slot the index of a flight, on the pair of an exchange that hashes to the slot. It is only a hint: each
/// caller compares the roles at that index.
#[derive(Clone, Copy)]
pub(crate) struct PairHints {
    places: [u8; SLOTS],
}

impl PairHints {
    /// Returns hints that all lead to the first flight.
    pub(crate) fn new() -> PairHints {
        PairHints { places: [0; SLOTS] }
    }

    /// Returns the index at which the flight of the event's pair may be.
    #[inline(always)]
    pub(crate) fn hint(&self, event: &SharedEvent) -> usize {
        match self.places.get(slot_of(event.exchange_hash(), SLOTS)) {
            Some(place) => usize::from(*place),
            None => 0,
        }
    }

    /// Keeps the index for events of this exchange, where the hint was another. An index past 255 is not kept.
    #[inline(always)]
    pub(crate) fn renew(&mut self, event: &SharedEvent, hint: usize, place: usize) {
        if place == hint {
            return;
        }
        let Ok(place) = u8::try_from(place) else {
            return;
        };
        if let Some(kept) = self.places.get_mut(slot_of(event.exchange_hash(), SLOTS)) {
            *kept = place;
        }
    }
}
