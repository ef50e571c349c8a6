//! Hints for the indices of passes, by the ids of their conversations.

ghost use Rattle.std.specs.Prelude.{◌<◌};

// The number of slots, a power of two.
const SLOTS: usize = 256;

/// For each slot the index of a pass: the one used last among those whose conversations' ids have that slot. These are
/// only hints: who uses one compares the id found there.
#[derive(Clone, Copy)]
pub(crate) struct PassHints {
    indices: [usize; SLOTS],
}

impl PassHints {
    // Returns hints at the first pass.
    pub(crate) fn new() -> PassHints {
        PassHints {
            indices: [0; SLOTS],
        }
    }

    // Returns the likely index of the pass to the conversation.
    #[inline(always)]
    pub(crate) fn index(&self, id: u32) -> usize {
        self.indices[slot_of(id)]
    }

    // Sets the index at which the pass to the conversation is looked up first the next time.
    #[inline(always)]
    pub(crate) fn set(&mut self, id: u32, index: usize) {
        self.indices[slot_of(id)] = index;
    }
}

// Returns the slot of the id.
#[inline(always)]
fn slot_of(id: u32) -> usize
    ensures { result < 256 }
{
    id as usize % SLOTS
}
