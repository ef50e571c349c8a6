//! The places of records: they are in the order of opening, until one is closed.

ghost use Rattle.std.specs.Prelude.{◌≡◌, None, IfSome};
ghost use Rattle.std.specs.Option.{option_copied};
ghost use Rattle.scrib_core.specs.Held.{IsRecordAt, record_at};

use indexmap::IndexMap;
use scrib_record::record::Record;
use std::alloc::Global;

// The number of slots that a table of hints begins with.
const FIRST_SLOTS: usize = 1_024;

/// A conversation's id, and an index at which its record may be. The index is tried first and need not be right.
#[derive(Clone, Copy)]
pub struct RecordKey {
    pub id: u32,
    pub hint: usize,
}

/// Indices at which the records of conversations were. None of them need be right.
#[derive(Drop)]
pub struct PlaceHints {
    // A slot for each id of the same low bits: the index of the last one's record. Empty until a conversation is closed.
    slots: Vec<usize>,
}

impl PlaceHints {
    /// Returns hints for the time in which no conversation is closed. They take no memory.
    pub fn new(alloc: Global) -> PlaceHints {
        PlaceHints {
            slots: Vec::new(alloc),
        }
    }

    /// Returns an index at which the conversation's record may be, from 0.
    #[inline(always)]
    pub fn hint(&self, records: &IndexMap<u32, Record>, id: u32) -> usize {
        match self.slots.get(self.slot_of(id)) {
            Some(place) => *place,
            None => usual_place(records, id),
        }
    }

    /// Returns the same as [`PlaceHints::hint`]. If that is not the index of the conversation's record, the right one is
    /// looked up, returned and kept.
    #[inline(always)]
    pub fn find(&mut self, records: &IndexMap<u32, Record>, id: u32) -> usize {
        let slot = self.slot_of(id);
        let Some(place) = self.slots.get_mut(slot) else {
            return usual_place(records, id);
        };
        match records.get_index(*place) {
            Some((key, _)) if *key == id => {}
            _ => *place = records.get_index_of(&id).unwrap_or(0),
        }
        *place
    }

    /// Keeps the index of the record of this id, which was opened last.
    pub fn opened(&mut self, records: &IndexMap<u32, Record>, id: u32) {
        self.keep(id, records.len().wrapping_sub(1));
    }

    /// Keeps the index of the record that took the place of a closed one.
    pub fn closed(&mut self, records: &IndexMap<u32, Record>, place: usize) {
        let Some((id, _)) = records.get_index(place) else {
            return;
        };
        if self.slots.len() < records.len() {
            let count = self.slots.len().saturating_mul(2).max(FIRST_SLOTS);
            // Without memory for more slots, more of the hints are wrong.
            let _grown = self.slots.resize_with(count, || 0);
        }
        self.keep(*id, place);
    }

    fn keep(&mut self, id: u32, place: usize) {
        let slot = self.slot_of(id);
        if let Some(kept) = self.slots.get_mut(slot) {
            *kept = place;
        }
    }

    // The number of slots is a power of two, or 0.
    #[inline(always)]
    fn slot_of(&self, id: u32) -> usize {
        id as usize & self.slots.len().wrapping_sub(1)
    }
}

/// Returns the record of the conversation.
#[inline(always)]
pub fn record_of(records: &IndexMap<u32, Record>, key: RecordKey) -> Option<&Record>
    ensures { option_copied result ≡ record_at records.now.entries key.id }
{
    match records.get_index(key.hint) {
        Some((id, record)) if *id == key.id => Some(record),
        _ => records.get(&key.id),
    }
}

/// Returns the index that the id has where ids are given one after another and none is closed.
#[inline(always)]
pub fn usual_place(records: &IndexMap<u32, Record>, id: u32) -> usize {
    match records.get_index(0) {
        Some((first, _)) => id.wrapping_sub(*first) as usize,
        None => 0,
    }
}

/// Returns the index of the conversation's record, from 0. `hint` may be any index and is tried first: a caller that often
/// asks for one conversation passes the index that it got last.
#[inline(always)]
pub fn place_at_hint(records: &IndexMap<u32, Record>, hint: usize, id: u32) -> Option<usize>
    ensures found { IfSome result (λ at. IsRecordAt records.now.entries at id) }
    ensures absent { result ≡ None → record_at records.now.entries id ≡ None }
{
    match records.get_index(hint) {
        Some((key, _)) if *key == id => Some(hint),
        _ => records.get_index_of(&id),
    }
}
