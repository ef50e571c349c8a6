//! Closings that wait for the events of their conversations.

ghost use Rattle.std.specs.Prelude.{◌≡◌, ◌++◌, ◌∷◌, ℕ, [], IfOk, IfSome, IsFalse, IsTrue, MatchOption, None, OnErr, OnOk};
ghost use Rattle.std.specs.List.{AllByRecursion};
ghost use Rattle.scrib_hold_stage.specs.Conversations.{IsAddedTo};
ghost use Rattle.scrib_hold_stage.specs.Firsts.{IsFirstAt};
ghost use Rattle.scrib_hold_stage.specs.PendingClosings.{IsApart, IsMade, IsMadeAt, IsNotReady, IsOf, IsReady, IsWithin, closings_in};
ghost use Rattle.scrib_hold_stage.specs.Stages.{stage_state};

use crate::noted::Noted;
use crate::stage::HoldStage;
use scrib_holdback::arrival::Arrival;
use std::alloc::{AllocError, Global};
use std::collections::VecDeque;

/// A closing of a conversation.
#[derive(Drop)]
pub struct Closing<T> {
    pub conversation: u32,
    /// The number of its entry in the script.
    pub time: u64,
    /// What is written for it.
    pub line: T,
}

/// Closings that wait, in the order of their entries. Each waits while events of its conversation do, and while at most
/// as many further entries are read as the bound of the stage says.
#[derive(Drop)]
pub struct PendingClosings<T> {
    closings: VecDeque<Closing<T>>,
}

impl<T: Drop> PendingClosings<T> {
    /// Returns no closings.
    pub fn new(alloc: Global) -> PendingClosings<T>
        ensures { closings_in result ≡ [] }
    {
        PendingClosings {
            closings: VecDeque::new(alloc),
        }
    }

    /// Whether no closing waits.
    #[inline(always)]
    pub fn is_empty(&self) -> bool
        ensures { IsTrue result → closings_in self.now ≡ [] }
    {
        self.closings.is_empty()
    }

    /// Whether a closing of the conversation waits.
    pub fn has_of(&self, conversation: u32) -> bool
        ensures some { IsTrue result
            → (index : ℕ) × IsFirstAt (IsOf conversation) (IsApart conversation) index (closings_in self.now) }
        ensures none { IsFalse result → AllByRecursion (IsApart conversation) (closings_in self.now) }
    {
        self.first_of(conversation).is_some()
    }

    /// Adds a closing, which waits from now on.
    ///
    /// # Errors
    /// `AllocError` where memory is refused.
    pub fn push(&mut self, closing: Closing<T>) -> Result<(), AllocError>
        ensures { OnOk result (closings_in self.new ≡ closings_in self.old ++ closing ∷ []) }
    {
        self.closings.push_back(closing)?;
        Ok(())
    }

    /// Closes the conversation of the first closing that is due, or for which no event waits. Returns the closing, if
    /// there is one. Puts what is released then behind what `released` has.
    ///
    /// # Errors
    /// `AllocError` where memory is refused. Some of what should be released is.
    pub fn close_ready<A: Arrival>(
        &mut self,
        stage: &mut HoldStage<A>,
        released: &mut Vec<Noted<A>>,
    ) -> Result<Option<Closing<T>>, AllocError>
        ensures made { IfOk result (λ made. IfSome made (λ c. IsMade A.event
            (λ d. IsReady d (stage_state stage.old)) (λ d. IsNotReady d (stage_state stage.old)) c
            (closings_in self.old) (closings_in self.new) (stage_state stage.old) (stage_state stage.new)
            released.old.items released.new.items)) }
        ensures none { IfOk result (λ made. made ≡ None
            → AllByRecursion (λ d. IsNotReady d (stage_state stage.old)) (closings_in self.old)) }
        ensures same { IfOk result (λ made. made ≡ None → closings_in self.new ≡ closings_in self.old) }
        ensures unchanged { IfOk result (λ made. made ≡ None → stage_state stage.new ≡ stage_state stage.old) }
        ensures unreleased { IfOk result (λ made. made ≡ None → released.new.items ≡ released.old.items) }
        ensures err { OnErr result (IsAddedTo released.old.items released.new.items) }
    {
        match self.first_ready(stage) {
            Some(index) => self.close_at(index, stage, released),
            None => Ok(None),
        }
    }

    /// Closes the conversation, if a closing of it waits, and returns the first such closing. Puts what is released
    /// then behind what `released` has.
    ///
    /// # Errors
    /// `AllocError` where memory is refused. Some of what should be released is.
    pub fn close_of<A: Arrival>(
        &mut self,
        conversation: u32,
        stage: &mut HoldStage<A>,
        released: &mut Vec<Noted<A>>,
    ) -> Result<Option<Closing<T>>, AllocError>
        ensures made { IfOk result (λ made. IfSome made (λ c. IsMade A.event
            (IsOf conversation) (IsApart conversation) c
            (closings_in self.old) (closings_in self.new) (stage_state stage.old) (stage_state stage.new)
            released.old.items released.new.items)) }
        ensures none { IfOk result (λ made. made ≡ None
            → AllByRecursion (IsApart conversation) (closings_in self.old)) }
        ensures same { IfOk result (λ made. made ≡ None → closings_in self.new ≡ closings_in self.old) }
        ensures unchanged { IfOk result (λ made. made ≡ None → stage_state stage.new ≡ stage_state stage.old) }
        ensures unreleased { IfOk result (λ made. made ≡ None → released.new.items ≡ released.old.items) }
        ensures err { OnErr result (IsAddedTo released.old.items released.new.items) }
    {
        match self.first_of(conversation) {
            Some(index) => self.close_at(index, stage, released),
            None => Ok(None),
        }
    }

    /// Takes the first closing out, if there is one.
    pub fn pop(&mut self) -> Option<Closing<T>>
        ensures none { result ≡ None → closings_in self.old ≡ [] }
        ensures some { IfSome result (λ c. closings_in self.old ≡ c ∷ closings_in self.new) }
    {
        self.closings.pop_front()
    }

    // Takes the closing at this index out, and closes its conversation.
    fn close_at<A: Arrival>(
        &mut self,
        index: usize,
        stage: &mut HoldStage<A>,
        released: &mut Vec<Noted<A>>,
    ) -> Result<Option<Closing<T>>, AllocError>
        requires { IsWithin index (closings_in self.old) }
        ensures made { IfOk result (λ made. MatchOption made ⊥ (λ c. IsMadeAt A.event index c
            (closings_in self.old) (closings_in self.new) (stage_state stage.old) (stage_state stage.new)
            released.old.items released.new.items)) }
        ensures err { OnErr result (IsAddedTo released.old.items released.new.items) }
    {
        let Some(closing) = self.closings.remove(index) else {
            return Ok(None);
        };
        stage.close(closing.conversation, released)?;
        Ok(Some(closing))
    }

    // Returns the index of the first closing that is due, or for which no event waits, if there is one.
    fn first_ready<A: Arrival>(&self, stage: &HoldStage<A>) -> Option<usize>
        ensures none { result ≡ None
            → AllByRecursion (λ d. IsNotReady d (stage_state stage.now)) (closings_in self.now) }
        ensures some { IfSome result (λ i. IsFirstAt (λ d. IsReady d (stage_state stage.now))
            (λ d. IsNotReady d (stage_state stage.now)) i (closings_in self.now)) }
    {
        let mut index = 0;
        while let Some(closing) = self.closings.get(index) {
            if is_ready(closing, stage) {
                return Some(index);
            }
            index += 1;
        }
        None
    }

    // Returns the index of the first closing of the conversation, if there is one.
    fn first_of(&self, conversation: u32) -> Option<usize>
        ensures none { result ≡ None → AllByRecursion (IsApart conversation) (closings_in self.now) }
        ensures some { IfSome result (λ i. IsFirstAt (IsOf conversation) (IsApart conversation) i
            (closings_in self.now)) }
    {
        let mut index = 0;
        while let Some(closing) = self.closings.get(index) {
            if closing.conversation == conversation {
                return Some(index);
            }
            index += 1;
        }
        None
    }
}

// Whether the closing is due, or no event waits for which it would wait.
fn is_ready<T, A: Arrival>(closing: &Closing<T>, stage: &HoldStage<A>) -> bool
    ensures yes { IsTrue result → IsReady closing.now (stage_state stage.now) }
    ensures no { IsFalse result → IsNotReady closing.now (stage_state stage.now) }
{
    stage.is_due(closing.time) || !stage.waits(closing.conversation)
}
