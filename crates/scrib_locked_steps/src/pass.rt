//! Passes, and the receipts of the events noted by them.

ghost use Rattle.std.specs.Prelude.{◌≡◌, ◌-◌, [], true, drop, length};
ghost use Rattle.scrib_locked_steps.specs.Passes.{newest_of, rises};

use scrib_types::shared_event::SharedEvent;
use std::alloc::Global;
use std::marker::Model;

/// A receipt of a noted event: the event, and its place in the log of its conversation, from 1.
#[derive(Drop)]
pub struct Receipt {
    pub place: usize,
    pub event: SharedEvent,
}

/// The right to note events of one conversation, from its opening until it is closed. A pass holds a receipt of each
/// event noted by it, oldest first, with rising places. It cannot be cloned. Contracts see the conversation, the number
/// of its opening and the receipts.
#[derive(Drop)]
pub struct Pass {
    pub(crate) conversation: u32,
    pub(crate) opening: u64,
    pub(crate) receipts: Vec<Receipt>,
    // The index of the conversation's record at the last look-up. Correctness does not depend on it.
    pub(crate) hint: usize,
}

impl Model for Pass {
    ghost use Rattle.std.specs.Prelude.{◌≡◌, true};
    ghost use Rattle.scrib_locked_steps.specs.Passes.{PassHeld, rises};

    ghost Value = { PassHeld };

    ghost view = { λ p. record { conversation = p.conversation; opening = p.opening; receipts = p.receipts.items } };

    ghost invariant = { λ p. rises 0 p.receipts.items ≡ true };
}

impl Pass {
    /// Returns a pass to the conversation, for the opening of this number, without receipts.
    pub(crate) fn new(alloc: Global, conversation: u32, opening: u64) -> Pass
        ensures { result ≡ record { conversation = conversation; opening = opening; receipts = [] } }
    {
        Pass {
            conversation,
            opening,
            receipts: Vec::new(alloc),
            hint: 0,
        }
    }

    /// Returns the id of the conversation.
    pub fn conversation(&self) -> u32
        ensures { result ≡ self.now.conversation }
    {
        self.conversation
    }

    /// Returns the number of the opening that the pass was made for.
    pub(crate) fn opening(&self) -> u64
        ensures { result ≡ self.now.opening }
    {
        self.opening
    }

    /// Returns the receipts, oldest first. Their number is the share of the pass.
    pub fn receipts(&self) -> &[Receipt]
        ensures all { result.now ≡ self.now.receipts }
        ensures rise { rises 0 self.now.receipts ≡ true }
    {
        self.receipts.as_slice()
    }

    /// Returns the index set last, or 0: a hint for finding the conversation's record.
    pub(crate) fn hint(&self) -> usize {
        self.hint
    }

    /// Sets the index at which the conversation's record is looked up first the next time.
    pub(crate) fn set_hint(&mut self, hint: usize)
        ensures { self.new ≡ self.old }
    {
        self.hint = hint;
    }

    /// Returns the newest receipt, as a slice of length 1 or 0.
    #[inline(always)]
    pub fn newest(&self) -> &[Receipt]
        ensures { result.now ≡ newest_of self.now.receipts }
    {
        let older = self.receipts.len().saturating_sub(1);
        &self.receipts[older..]
    }
}
