//! What is kept of the open conversations: the lines of their events, and the offences that were reported.

use indexmap::IndexMap;
use scrib_findings::finding::ReportedOffence;
use scrib_types::containers::Items;
use std::alloc::{AllocError, Global};

// How many hints there are at first. There is always a power of two of them, or none.
const FIRST_HINTS: usize = 1_024;

/// What is kept of a conversation.
#[derive(Drop)]
pub struct KeptConversation {
    /// The number of the line of each event.
    pub lines: Items<u64>,
    /// The offence that was reported last, if the conversation still has it.
    pub offence: Option<ReportedOffence>,
}

/// What is kept of the open conversations, by their numbers.
#[derive(Drop)]
pub struct KeptConversations {
    alloc: Global,
    table: IndexMap<u32, KeptConversation>,
    // The place in the table of a conversation by the low bits of its number. The number at the place is compared, so
    // no contract speaks of the hints.
    hints: Vec<usize>,
}

impl KeptConversations {
    ghost use Rattle.std.specs.Prelude.{◌≡◌, ℕ, IsTrue, OnOk};
    ghost use Rattle.std.specs.Option.{option_copied};
    ghost use Rattle.scrib_reported.specs.Kept as spec;
    ghost use Rattle.scrib_reported.specs.Kept.{IsKept, IsKeptAt, keeping, nothing_kept, with_line};

    /// Keeps nothing.
    pub(crate) fn new(alloc: Global) -> KeptConversations
        ensures { (id : ℕ) → keeping result id ≡ nothing_kept }
    {
        KeptConversations {
            alloc,
            table: IndexMap::new(alloc),
            hints: Vec::new(alloc),
        }
    }

    /// Adds the line of the next event of the conversation.
    ///
    /// # Errors
    /// `AllocError` where memory is refused.
    #[inline(always)]
    pub(crate) fn add_line(&mut self, id: u32, line: u64) -> Result<(), AllocError>
        ensures { OnOk result
            (IsKept (keeping self.old) id (with_line (keeping self.old id) line) (keeping self.new)) }
    {
        let place = self.hinted_place(id);
        // as at most events of a long script
        if self.is_at(place, id)
            && let Some(kept) = self.table.get_index_mut(place)
        {
            return kept.lines.push(line);
        }
        self.add_line_anywhere(id, line)
    }

    // Returns the place in the table at which the conversation may be.
    #[inline(always)]
    fn hinted_place(&self, id: u32) -> usize {
        match self.hints.get(self.slot_of(id)) {
            Some(place) => *place,
            None => 0,
        }
    }

    // Returns the slot of the conversation among the hints.
    #[inline(always)]
    fn slot_of(&self, id: u32) -> usize {
        id as usize & self.hints.len().wrapping_sub(1)
    }

    // Returns whether the place in the table is that of the conversation.
    #[inline(always)]
    fn is_at(&self, place: usize, id: u32) -> bool
        ensures { IsTrue result → IsKeptAt self.now place id }
    {
        match self.table.get_index(place) {
            Some((key, _)) => *key == id,
            None => false,
        }
    }

    // The same as `add_line`, at any place of the table. Notes the place.
    #[inline(never)]
    fn add_line_anywhere(&mut self, id: u32, line: u64) -> Result<(), AllocError>
        ensures { OnOk result
            (IsKept (keeping self.old) id (with_line (keeping self.old id) line) (keeping self.new)) }
    {
        self.add_line_by_key(id, line)?;
        self.hint(id);
        Ok(())
    }

    // Adds the line of the next event of the conversation, with a look-up of its number.
    fn add_line_by_key(&mut self, id: u32, line: u64) -> Result<(), AllocError>
        ensures { OnOk result
            (IsKept (keeping self.old) id (with_line (keeping self.old id) line) (keeping self.new)) }
    {
        match self.table.get_mut(&id) {
            Some(kept) => kept.lines.push(line),
            None => {
                let mut lines = Items::new(self.alloc);
                lines.push(line)?;
                self.table.insert(
                    id,
                    KeptConversation {
                        lines,
                        offence: None,
                    },
                )?;
                Ok(())
            }
        }
    }

    // Notes the place of the conversation. Where memory for more hints is refused, there are as many as before.
    fn hint(&mut self, id: u32)
        ensures { self.new ≡ record self.old { hints = self.new.hints } }
    {
        if self.hints.len() < self.table.len() {
            let count = self.hints.len().saturating_mul(2).max(FIRST_HINTS);
            let _ = self.hints.resize(count, 0);
        }
        let Some(place) = self.table.get_index_of(&id) else {
            return;
        };
        let slot = self.slot_of(id);
        if let Some(hint) = self.hints.get_mut(slot) {
            *hint = place;
        }
    }

    /// Returns the offence of the conversation that was reported last, if it still has it.
    pub(crate) fn offence(&self, id: u32) -> Option<&ReportedOffence>
        ensures { option_copied result ≡ (keeping self.now id).offence }
    {
        match self.table.get(&id) {
            Some(kept) => kept.offence.as_ref(),
            None => None,
        }
    }

    /// Returns the line of the event at this place, from 1.
    pub(crate) fn line_at(&self, id: u32, place: usize) -> u64
        ensures { result ≡ spec.line_at (keeping self.now id).lines place }
    {
        let Some(kept) = self.table.get(&id) else {
            return 0;
        };
        let line = kept.lines.get(place.saturating_sub(1));
        line.copied().unwrap_or(0)
    }

    /// Keeps the offence, or that there is none, as what was reported last.
    ///
    /// # Errors
    /// `AllocError` where memory is refused.
    pub(crate) fn set_offence(
        &mut self,
        id: u32,
        offence: Option<ReportedOffence>,
    ) -> Result<(), AllocError>
        ensures { OnOk result (IsKept (keeping self.old) id
            (record { lines = (keeping self.old id).lines; offence = offence }) (keeping self.new)) }
    {
        match self.table.get_mut(&id) {
            Some(kept) => {
                kept.offence = offence;
                Ok(())
            }
            None => {
                let lines = Items::new(self.alloc);
                self.table.insert(id, KeptConversation { lines, offence })?;
                Ok(())
            }
        }
    }

    /// Drops what is kept of the conversation.
    pub(crate) fn remove(&mut self, id: u32)
        ensures { IsKept (keeping self.old) id nothing_kept (keeping self.new) }
    {
        self.table.swap_remove(&id);
    }
}
