//! One conversation: its events wait for its opening, and from then on until they may have happened.

ghost use Rattle.std.specs.Prelude.{◌≡◌, ◌++◌, [], List, IfOk, IsFalse, IsTrue, OnErr, OnOk, MatchOption, Some};
ghost use Rattle.scrib_holdback.specs.Holdings.{IsOldestWaiting};
ghost use Rattle.scrib_hold_stage.specs.Conversations.{IsAddedTo, IsUnopened, IsExpiredIn, IsNotOldest, IsOldestOfTime, IsOpenedIn, IsPushedTo, PassesAloneIn, waiting_in};

use crate::noted::Noted;
use scrib_holdback::arrival::Arrival;
use scrib_holdback::holdback::Holdback;
use scrib_types::shared_event::SharedEvent;
use std::alloc::{AllocError, Global};
use std::collections::VecDeque;

/// A conversation. Before its opening all its events wait. From the opening on they are held back.
#[derive(Drop)]
pub(crate) struct Conversation<A: Arrival> {
    pub(crate) opened: bool,
    pub(crate) early: VecDeque<Noted<A>>,
    pub(crate) holdback: Holdback<Noted<A>>,
}

impl<A: Arrival> Conversation<A> {
    /// Returns a conversation before its opening, without events.
    pub(crate) fn new(alloc: Global) -> Conversation<A>
        ensures { IsUnopened A.event [] result }
    {
        Conversation {
            opened: false,
            early: VecDeque::new(alloc),
            holdback: Holdback::new(alloc),
        }
    }

    /// Takes the next event, and puts what is released then behind what `released` has.
    ///
    /// # Errors
    /// `AllocError` where memory or a reference count refuses it. Nothing is released.
    pub(crate) fn push(
        &mut self,
        noted: Noted<A>,
        released: &mut Vec<Noted<A>>,
    ) -> Result<(), AllocError>
        ensures ok { OnOk result
            (IsPushedTo A.event noted (Some self.old) (Some self.new) released.old.items released.new.items) }
        ensures err { OnErr result (released.new.items ≡ released.old.items) }
    {
        if self.opened {
            return self.holdback.push(noted, released);
        }
        self.early.push_back(noted)?;
        Ok(())
    }

    /// Takes the next event by itself, if `scrib_holdback` releases it at once, and nothing else. Returns whether it is so.
    /// If not, nothing changes.
    #[inline(always)]
    pub(crate) fn try_pass(&mut self, event: &SharedEvent) -> bool
        ensures passed { IsTrue result → PassesAloneIn A.event event.now self.old self.new }
        ensures same { IsFalse result → self.new ≡ self.old }
    {
        if !self.opened {
            return false;
        }
        self.holdback.try_pass(event)
    }

    /// Opens the conversation. What waited for this arrives, in order.
    ///
    /// # Errors
    /// `AllocError` where memory or a reference count refuses it. Some of what should be released is.
    pub(crate) fn open(&mut self, released: &mut Vec<Noted<A>>) -> Result<(), AllocError>
        ensures ok { OnOk result
            (IsOpenedIn A.event (Some self.old) (Some self.new) released.old.items released.new.items) }
        ensures err { OnErr result (IsAddedTo released.old.items released.new.items) }
    {
        self.opened = true;
        while let Some(noted) = self.early.pop_front() {
            self.holdback.push(noted, released)?;
        }
        Ok(())
    }

    /// Releases the event of this time as it is, if it is the oldest that waits, and then what this makes possible.
    /// Returns whether it did.
    ///
    /// # Errors
    /// `AllocError` where `released` has no room and memory is refused. Nothing is released.
    pub(crate) fn release_at(
        &mut self,
        time: u64,
        released: &mut Vec<Noted<A>>,
    ) -> Result<bool, AllocError>
        ensures expired { IfOk result (λ some. IsTrue some
            → IsExpiredIn A.event time (Some self.old) (Some self.new) released.old.items released.new.items) }
        ensures none { IfOk result (λ some. IsFalse some → IsNotOldest time (Some self.old)) }
        ensures unchanged { IfOk result (λ some. IsFalse some → self.new ≡ self.old) }
        ensures unreleased { IfOk result (λ some. IsFalse some → released.new.items ≡ released.old.items) }
        ensures err { OnErr result (released.new.items ≡ released.old.items) }
    {
        if !self.is_oldest(time) {
            return Ok(false);
        }
        if self.opened {
            return self.holdback.release_oldest(released);
        }
        released.reserve(1)?;
        let Some(noted) = self.early.pop_front() else {
            return Ok(false);
        };
        released.push_reserved(noted);
        Ok(true)
    }

    /// Whether the oldest event that waits is of this time.
    #[inline(always)]
    pub(crate) fn is_oldest(&self, time: u64) -> bool
        ensures yes { IsTrue result → IsOldestOfTime time (Some self.now) }
        ensures no { IsFalse result → IsNotOldest time (Some self.now) }
    {
        match self.oldest() {
            Some(noted) => noted.time == time,
            None => false,
        }
    }

    /// Whether an event waits.
    pub(crate) fn is_waiting(&self) -> bool
        ensures yes { IsTrue result → (x : Noted A) × IsOldestWaiting (waiting_in self.now) x }
        ensures no { IsFalse result → waiting_in self.now ≡ [] }
    {
        self.oldest().is_some()
    }

    // The oldest event that waits.
    fn oldest(&self) -> Option<&Noted<A>>
        ensures { MatchOption result (waiting_in self.now ≡ []) (λ x. IsOldestWaiting (waiting_in self.now) x.now) }
    {
        if self.opened {
            return self.holdback.oldest();
        }
        self.early.front()
    }
}
