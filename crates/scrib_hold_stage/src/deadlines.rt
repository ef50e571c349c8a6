//! When events that wait expire.

ghost use Rattle.std.specs.Prelude.{◌≡◌, ◌≤◌, ◌∷◌, IfSome, IsTrue, None, drop};
ghost use Rattle.scrib_hold_stage.specs.Firsts.{IsFirstAt};
ghost use Rattle.scrib_hold_stage.specs.Deadlines.{AreOfOthers, IsFirstOf, IsOfConversation, IsOfOther, StartsAfter, StartsLate};

use std::collections::VecDeque;

/// An event that had to wait, by its time and its conversation.
#[derive(Drop)]
pub(crate) struct Deadline {
    pub(crate) time: u64,
    pub(crate) conversation: u32,
}

/// Takes the first deadline out, if it is not later than this.
pub(crate) fn pop_due(deadlines: &mut VecDeque<Deadline>, due: u64) -> Option<Deadline>
    ensures none { result ≡ None → StartsAfter due deadlines.old.items }
    ensures same { result ≡ None → deadlines.new.items ≡ deadlines.old.items }
    ensures some { IfSome result (λ d. deadlines.old.items ≡ d ∷ deadlines.new.items) }
    ensures passed { IfSome result (λ d. d.time ≤ due) }
{
    match deadlines.front() {
        Some(first) if first.time <= due => deadlines.pop_front(),
        _ => None,
    }
}

/// Whether no event expires at this time.
#[inline(always)]
pub(crate) fn none_due(deadlines: &VecDeque<Deadline>, time: u64, bound: u64) -> bool
    ensures { IsTrue result → StartsLate time bound deadlines.now.items }
{
    match deadlines.front() {
        Some(first) => time.saturating_sub(bound) < first.time,
        None => true,
    }
}

/// The first deadline, if no other is of an event that expires at this time.
#[inline(always)]
pub(crate) fn only_due(deadlines: &VecDeque<Deadline>, time: u64, bound: u64) -> Option<&Deadline>
    ensures first { IfSome result (λ d. deadlines.now.items ≡ d.now ∷ drop 1 deadlines.now.items) }
    ensures late { IfSome result (λ _. StartsLate time bound (drop 1 deadlines.now.items)) }
{
    if !is_second_late(deadlines, time, bound) {
        return None;
    }
    deadlines.front()
}

// Whether the event of the second deadline does not expire at this time.
#[inline(always)]
fn is_second_late(deadlines: &VecDeque<Deadline>, time: u64, bound: u64) -> bool
    ensures { IsTrue result → StartsLate time bound (drop 1 deadlines.now.items) }
{
    match deadlines.get(1) {
        Some(second) => time.saturating_sub(bound) < second.time,
        None => true,
    }
}

/// Takes the first deadline of the conversation out, if there is one.
pub(crate) fn take_first_of(
    deadlines: &mut VecDeque<Deadline>,
    conversation: u32,
) -> Option<Deadline>
    ensures none { result ≡ None → AreOfOthers conversation deadlines.old.items }
    ensures same { result ≡ None → deadlines.new.items ≡ deadlines.old.items }
    ensures some { IfSome result (λ d. IsFirstOf conversation d deadlines.old.items deadlines.new.items) }
{
    match index_of(deadlines, conversation) {
        Some(index) => deadlines.remove(index),
        None => None,
    }
}

// Returns the index of the first deadline of the conversation, if there is one.
fn index_of(deadlines: &VecDeque<Deadline>, conversation: u32) -> Option<usize>
    ensures none { result ≡ None → AreOfOthers conversation deadlines.now.items }
    ensures some { IfSome result (λ i. IsFirstAt (IsOfConversation conversation) (IsOfOther conversation) i
        deadlines.now.items) }
{
    let mut index = 0;
    while let Some(deadline) = deadlines.get(index) {
        if deadline.conversation == conversation {
            return Some(index);
        }
        index += 1;
    }
    None
}
