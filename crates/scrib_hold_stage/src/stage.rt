//! The stage: the entries of a script go in one after another, and the events that are released come out.

ghost use Rattle.std.specs.Prelude.{◌≡◌, ◌+◌, ◌-◌, ◌^◌, ◌<◌, ◌≤◌, ℕ, List, [], min, IfOk, IfSome, IsFalse, IsTrue, OnErr, OnOk, Some, length, slice_get};
ghost use Rattle.scrib_hold_stage.specs.Entries.{Entry, Closings, Opens, Passes, none_closed, note, noted_in};
ghost use Rattle.scrib_hold_stage.specs.Conversations.{IsAddedTo, waiting_at};
ghost use Rattle.scrib_hold_stage.specs.Changes.{conversation_at};
ghost use Rattle.scrib_hold_stage.specs.Deadlines.{AreOfOthers, StartsAfter};
ghost use Rattle.scrib_hold_stage.specs.Stages.{HasStaged, IsClosed, IsFinished, IsRead, PassesStageAlone, Waits, stage_state};
ghost use Rattle.scrib_hold_stage.specs.Steps.{AreAllExpired, IsExpiring, IsDeadlinePassed, IsDeadlineTaken, IsRipened, IsEntryTaken};

use crate::conversation::Conversation;
use crate::conversations::{is_met, is_not_oldest, is_waiting, open, pass_to, push_to, release_at};
use crate::deadlines::{Deadline, none_due, only_due, pop_due, take_first_of};
use crate::noted::Noted;
use indexmap::IndexMap;
use scrib_holdback::arrival::Arrival;
use scrib_types::shared_event::SharedEvent;
use std::alloc::{AllocError, Global};
use std::collections::VecDeque;

/// What a stage counted.
#[derive(Clone, Copy)]
pub struct Counts {
    /// The events that were taken.
    pub events: u64,
    /// How many of them were not released at once.
    pub waited: u64,
    /// How many waited at once, at most.
    pub at_once: u64,
    /// How many the bound released.
    pub expired: u64,
}

/// Holds the events of a script back. It reads the entries of the script one after another. An entry is an event of a
/// conversation, the opening of one, or another. The events that are released go behind those that were.
///
/// The events of a conversation wait for its opening, and from then on until they may have happened. An event that has
/// waited while as many entries were read as the bound says is released as it is: it expires. So are all that wait at
/// the end of the script.
///
/// After an error the stage is of no more use, and some of what should be released may be missing.
#[derive(Drop)]
pub struct HoldStage<A: Arrival> {
    alloc: Global,
    bound: u64,
    // How many entries were read.
    time: u64,
    conversations: IndexMap<u32, Conversation<A>>,
    // Of the events that had to wait, in order. An event that was released since has its deadline until that passes.
    deadlines: VecDeque<Deadline>,
    // How many of the entries were no events.
    others: u64,
    // Of the events, how many were not released at once, and how many expired.
    waited: u64,
    expired: u64,
    // How many events wait, and how many did at most.
    waiting: u64,
    at_once: u64,
}

impl<A: Arrival> HoldStage<A> {
    /// Returns a stage before the first entry. An event waits while at most this many further entries are read.
    pub fn new(alloc: Global, bound: u64) -> HoldStage<A>
        ensures { HasStaged A.event bound [] none_closed [] [] (stage_state result) }
    {
        HoldStage {
            alloc,
            bound,
            time: 0,
            conversations: IndexMap::new(alloc),
            deadlines: VecDeque::new(alloc),
            others: 0,
            waited: 0,
            expired: 0,
            waiting: 0,
            at_once: 0,
        }
    }

    /// Reads an entry that is an event of the conversation.
    ///
    /// # Errors
    /// `AllocError` where memory or a reference count refuses it, or 2^64 - 1 entries were read. Some of what should be
    /// released is.
    pub fn push(
        &mut self,
        conversation: u32,
        arrival: A,
        released: &mut Vec<Noted<A>>,
    ) -> Result<(), AllocError>
        ensures ok { OnOk result (IsRead A.event (note conversation (self.old.time + 1) arrival)
            (stage_state self.old) (stage_state self.new) released.old.items released.new.items) }
        ensures err { OnErr result (IsAddedTo released.old.items released.new.items) }
    {
        let start = released.len();
        self.take(conversation, arrival, released)?;
        self.ripen(released)?;
        self.tally(1, released.len().saturating_sub(start));
        Ok(())
    }

    /// Reads an entry that is an event of the conversation by the event alone, in the usual case: the event is released
    /// at once, and nothing else is. The event isn't moved. Returns whether it is so. If not, nothing is read, and
    /// [`HoldStage::push`] has to read the entry. So it is also where memory is refused.
    #[inline(always)]
    pub fn try_pass(&mut self, conversation: u32, event: &SharedEvent) -> bool
        ensures passed { IsTrue result
            → PassesStageAlone A.event conversation event.now (stage_state self.old) (stage_state self.new) }
        ensures same { IsFalse result → stage_state self.new ≡ stage_state self.old }
    {
        let Some(time) = self.time.checked_add(1) else {
            return false;
        };
        if !none_due(&self.deadlines, time, self.bound) {
            return self.pass_beside_deadline(time, conversation, event);
        }
        if !pass_to(&mut self.conversations, conversation, event) {
            return false;
        }
        self.time = time;
        true
    }

    // The same at the time of a deadline, if it is the only one, and its event was released before. The deadline passes.
    #[inline(never)]
    fn pass_beside_deadline(&mut self, time: u64, conversation: u32, event: &SharedEvent) -> bool
        requires { time ≡ self.old.time + 1 }
        ensures passed { IsTrue result
            → PassesStageAlone A.event conversation event.now (stage_state self.old) (stage_state self.new) }
        ensures same { IsFalse result → stage_state self.new ≡ stage_state self.old }
    {
        let Some(deadline) = only_due(&self.deadlines, time, self.bound) else {
            return false;
        };
        if !is_not_oldest(&self.conversations, deadline.conversation, deadline.time) {
            return false;
        }
        if !pass_to(&mut self.conversations, conversation, event) {
            return false;
        }
        let _passed = self.deadlines.pop_front();
        self.time = time;
        true
    }

    /// Reads an entry that opens the conversation. What waited for this arrives.
    ///
    /// # Errors
    /// As those of [`HoldStage::push`].
    pub fn open(
        &mut self,
        conversation: u32,
        released: &mut Vec<Noted<A>>,
    ) -> Result<(), AllocError>
        ensures ok { OnOk result (IsRead A.event (Opens conversation)
            (stage_state self.old) (stage_state self.new) released.old.items released.new.items) }
        ensures err { OnErr result (IsAddedTo released.old.items released.new.items) }
    {
        let start = released.len();
        self.take_opening(conversation, released)?;
        self.ripen(released)?;
        self.tally(0, released.len().saturating_sub(start));
        Ok(())
    }

    /// Reads another entry.
    ///
    /// # Errors
    /// As those of [`HoldStage::push`].
    pub fn skip(&mut self, released: &mut Vec<Noted<A>>) -> Result<(), AllocError>
        ensures ok { OnOk result (IsRead A.event Passes
            (stage_state self.old) (stage_state self.new) released.old.items released.new.items) }
        ensures err { OnErr result (IsAddedTo released.old.items released.new.items) }
    {
        let start = released.len();
        self.begin_other()?;
        self.ripen(released)?;
        self.tally(0, released.len().saturating_sub(start));
        Ok(())
    }

    /// Returns how many entries were read.
    #[inline(always)]
    pub fn time(&self) -> u64
        ensures { result ≡ (stage_state self.now).time }
    {
        self.time
    }

    /// Returns the number of the next entry, or `None` after 2^64 - 1 entries.
    #[inline(always)]
    pub fn next_time(&self) -> Option<u64>
        ensures { IfSome result (λ time. time ≡ (stage_state self.now).time + 1) }
    {
        self.time.checked_add(1)
    }

    /// Whether as many entries were read since the entry of this number as the bound says.
    pub fn is_due(&self, time: u64) -> bool
        ensures yes { IsTrue result → time + (stage_state self.now).bound ≤ (stage_state self.now).time }
        ensures no { IsFalse result → (stage_state self.now).time < time + (stage_state self.now).bound }
    {
        let Some(due) = self.time.checked_sub(self.bound) else {
            return false;
        };
        time <= due
    }

    /// Whether an event of the conversation waits.
    pub fn waits(&self, conversation: u32) -> bool
        ensures yes { IsTrue result → Waits conversation (stage_state self.now) }
        ensures no { IsFalse result → waiting_at (conversation_at (stage_state self.now).conversations conversation) ≡ [] }
    {
        is_waiting(&self.conversations, conversation)
    }

    /// Whether the conversation was met since it was last closed: it was opened, or an event of it was read.
    pub fn has_met(&self, conversation: u32) -> bool
        ensures { IsFalse result → conversation_at (stage_state self.now).conversations conversation ≡ None }
    {
        is_met(&self.conversations, conversation)
    }

    /// Closes the conversation between two entries. Releases all that waits of it, the oldest first, and what the rule
    /// then releases. Then forgets it: its id may be opened again, as that of a new conversation.
    ///
    /// A law, where the conversation was opened since it was last closed, and none of its events since then expired
    /// before. What was released of these is permitted exactly where some reordering of them is. It is a reordering
    /// whatever expired.
    ///
    /// # Errors
    /// `AllocError` where memory is refused. Some of what should be released is.
    pub fn close(
        &mut self,
        conversation: u32,
        released: &mut Vec<Noted<A>>,
    ) -> Result<(), AllocError>
        ensures ok { OnOk result (IsClosed A.event conversation
            (stage_state self.old) (stage_state self.new) released.old.items released.new.items) }
        ensures err { OnErr result (IsAddedTo released.old.items released.new.items) }
    {
        let start = released.len();
        self.expire_all(conversation, released)?;
        let _forgotten = self.conversations.swap_remove(&conversation);
        self.tally(0, released.len().saturating_sub(start));
        Ok(())
    }

    /// Releases all that waits at the end of the script, the oldest first, and what the rule then releases. Returns
    /// the counts as they were before.
    ///
    /// A law, of each conversation that was opened, where none of its events expired before. What was released of it in
    /// all is permitted exactly where some reordering of its events is. It is a reordering whatever expired.
    ///
    /// # Errors
    /// `AllocError` where memory is refused. Some of what should be released is.
    pub fn finish(mut self, released: &mut Vec<Noted<A>>) -> Result<Counts, AllocError>
        ensures law { OnOk result (IsFinished A.event (stage_state self) released.old.items released.new.items) }
        ensures counts { IfOk result (λ counts. (bound : ℕ) (entries : List (Entry A)) (closed : Closings)
            (earlier expired : List (Noted A)) → HasStaged A.event bound entries closed earlier expired (stage_state self)
            → (counts.events ≡ length (noted_in entries)) × (counts.expired ≡ length expired)) }
        ensures err { OnErr result (IsAddedTo released.old.items released.new.items) }
    {
        let events = self.time.saturating_sub(self.others);
        let counts = Counts {
            events,
            waited: self.waited,
            at_once: self.at_once,
            expired: self.expired,
        };
        let end = self.time;
        self.expire(end, released)?;
        Ok(counts)
    }

    // Reads an event, but for what expires then.
    fn take(
        &mut self,
        conversation: u32,
        arrival: A,
        released: &mut Vec<Noted<A>>,
    ) -> Result<(), AllocError>
        ensures ok { OnOk result (IsEntryTaken A.event (note conversation (self.old.time + 1) arrival)
            (stage_state self.old) (stage_state self.new) released.old.items released.new.items) }
        ensures err { OnErr result (released.new.items ≡ released.old.items) }
    {
        self.begin()?;
        self.deadlines.reserve(1)?;
        let time = self.time;
        let start = released.len();
        let noted = Noted {
            conversation,
            time,
            arrival,
        };
        push_to(&mut self.conversations, self.alloc, noted, released)?;
        if !is_at(released, start, time) {
            self.waited = self.waited.saturating_add(1);
            self.deadlines
                .push_back_reserved(Deadline { time, conversation });
        }
        Ok(())
    }

    // Reads an opening, but for what expires then.
    fn take_opening(
        &mut self,
        conversation: u32,
        released: &mut Vec<Noted<A>>,
    ) -> Result<(), AllocError>
        ensures ok { OnOk result (IsEntryTaken A.event (Opens conversation)
            (stage_state self.old) (stage_state self.new) released.old.items released.new.items) }
        ensures err { OnErr result (IsAddedTo released.old.items released.new.items) }
    {
        self.begin_other()?;
        open(&mut self.conversations, self.alloc, conversation, released)
    }

    // Counts the entry.
    fn begin(&mut self) -> Result<(), AllocError>
        ensures ok { OnOk result (self.new ≡ record self.old { time = self.old.time + 1 }) }
        ensures fits { OnOk result (self.old.time + 1 < 2 ^ 64) }
    {
        if self.time == u64::MAX {
            return Err(AllocError);
        }
        self.time += 1;
        Ok(())
    }

    // Counts the entry, which is no event.
    fn begin_other(&mut self) -> Result<(), AllocError>
        ensures ok { OnOk result (self.new
            ≡ record self.old { time = self.old.time + 1; others = min (self.old.others + 1) (2 ^ 64 - 1) }) }
        ensures fits { OnOk result (self.old.time + 1 < 2 ^ 64) }
    {
        self.begin()?;
        self.others = self.others.saturating_add(1);
        Ok(())
    }

    // Counts how many events wait now that so many were taken, and so many were released.
    fn tally(&mut self, taken: u64, given: usize)
        ensures { stage_state self.new ≡ stage_state self.old }
    {
        let waiting = self.waiting.saturating_add(taken);
        self.waiting = waiting.saturating_sub(given as u64);
        self.at_once = self.at_once.max(self.waiting);
    }

    // Releases the events that have waited for long enough.
    fn ripen(&mut self, released: &mut Vec<Noted<A>>) -> Result<(), AllocError>
        ensures ok { OnOk result
            (IsRipened A.event (stage_state self.old) (stage_state self.new) released.old.items released.new.items) }
        ensures err { OnErr result (IsAddedTo released.old.items released.new.items) }
    {
        if self.deadlines.is_empty() {
            return Ok(());
        }
        match self.time.checked_sub(self.bound) {
            Some(due) => self.expire(due, released),
            None => Ok(()),
        }
    }

    // Releases the events that wait since this time or longer, the oldest first.
    fn expire(&mut self, due: u64, released: &mut Vec<Noted<A>>) -> Result<(), AllocError>
        ensures ok { OnOk result
            (IsExpiring A.event due (stage_state self.old) (stage_state self.new)
            released.old.items released.new.items) }
        ensures done { OnOk result (StartsAfter due self.new.deadlines.items) }
        ensures err { OnErr result (IsAddedTo released.old.items released.new.items) }
    {
        while self.pass_deadline(due, released)? {}
        Ok(())
    }

    // Releases all that waits of the conversation, the oldest first.
    fn expire_all(
        &mut self,
        conversation: u32,
        released: &mut Vec<Noted<A>>,
    ) -> Result<(), AllocError>
        ensures ok { OnOk result (AreAllExpired A.event conversation
            (stage_state self.old) (stage_state self.new) released.old.items released.new.items) }
        ensures err { OnErr result (IsAddedTo released.old.items released.new.items) }
    {
        if !self.waits(conversation) {
            return Ok(());
        }
        while self.take_deadline(conversation, released)? {}
        Ok(())
    }

    // Takes the first deadline of the conversation out, and releases its event as it is, if that is the oldest that
    // waits. Returns whether there was a deadline.
    fn take_deadline(
        &mut self,
        conversation: u32,
        released: &mut Vec<Noted<A>>,
    ) -> Result<bool, AllocError>
        ensures taken { IfOk result (λ some. IsTrue some
            → IsDeadlineTaken A.event conversation (stage_state self.old) (stage_state self.new)
            released.old.items released.new.items) }
        ensures fewer { IfOk result (λ some. IsTrue some
            → length self.new.deadlines.items < length self.old.deadlines.items) }
        ensures none { IfOk result (λ some. IsFalse some → AreOfOthers conversation self.old.deadlines.items) }
        ensures same { IfOk result (λ some. IsFalse some → stage_state self.new ≡ stage_state self.old) }
        ensures unreleased { IfOk result (λ some. IsFalse some → released.new.items ≡ released.old.items) }
        ensures err { OnErr result (released.new.items ≡ released.old.items) }
    {
        let Some(deadline) = take_first_of(&mut self.deadlines, conversation) else {
            return Ok(false);
        };
        if release_at(
            &mut self.conversations,
            conversation,
            deadline.time,
            released,
        )? {
            self.expired = self.expired.saturating_add(1);
        }
        Ok(true)
    }

    // Lets the first deadline pass, if it is not later than this. Returns whether there was one.
    fn pass_deadline(&mut self, due: u64, released: &mut Vec<Noted<A>>) -> Result<bool, AllocError>
        ensures passed { IfOk result (λ some. IsTrue some
            → IsDeadlinePassed A.event due (stage_state self.old) (stage_state self.new)
            released.old.items released.new.items) }
        ensures fewer { IfOk result (λ some. IsTrue some
            → length self.new.deadlines.items < length self.old.deadlines.items) }
        ensures none { IfOk result (λ some. IsFalse some → StartsAfter due self.old.deadlines.items) }
        ensures same { IfOk result (λ some. IsFalse some → stage_state self.new ≡ stage_state self.old) }
        ensures unreleased { IfOk result (λ some. IsFalse some → released.new.items ≡ released.old.items) }
        ensures err { OnErr result (released.new.items ≡ released.old.items) }
    {
        let Some(deadline) = pop_due(&mut self.deadlines, due) else {
            return Ok(false);
        };
        let conversation = deadline.conversation;
        if release_at(
            &mut self.conversations,
            conversation,
            deadline.time,
            released,
        )? {
            self.expired = self.expired.saturating_add(1);
        }
        Ok(true)
    }
}

// Whether the item at this index is there, and of this time.
fn is_at<A: Arrival>(released: &[Noted<A>], index: usize, time: u64) -> bool
    ensures { IsTrue result → (x : Noted A) × (slice_get released.now index ≡ Some x) × (x.time ≡ time) }
{
    match released.get(index) {
        Some(noted) => noted.time == time,
        None => false,
    }
}
