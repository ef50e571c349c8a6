//! The conversations of a script, by id.

ghost use Rattle.std.specs.Prelude.{◌≡◌, ℕ, [], None, OnErr, OnOk, IfOk, IfSome, IsFalse, IsTrue};
ghost use Rattle.scrib_holdback.specs.Holdings.{IsOldestWaiting};
ghost use Rattle.scrib_hold_stage.specs.Conversations.{IsAddedTo, IsNotOldest, waiting_at};
ghost use Rattle.scrib_hold_stage.specs.Changes.{IsMet, IsPlaceOf, IsExpiredOf, IsOpenedOf, IsPushedOf, PassesAloneOf, conversation_at};

use crate::conversation::Conversation;
use crate::noted::Noted;
use indexmap::IndexMap;
use scrib_holdback::arrival::Arrival;
use scrib_types::shared_event::SharedEvent;
use std::alloc::{AllocError, Global};

/// Takes the next event of its conversation, and puts what is released then behind what `released` has.
///
/// # Errors
/// `AllocError` where memory or a reference count refuses it. Nothing is released.
pub(crate) fn push_to<A: Arrival>(
    conversations: &mut IndexMap<u32, Conversation<A>>,
    alloc: Global,
    noted: Noted<A>,
    released: &mut Vec<Noted<A>>,
) -> Result<(), AllocError>
    ensures ok { OnOk result (IsPushedOf A.event noted conversations.old.entries conversations.new.entries
        released.old.items released.new.items) }
    ensures err { OnErr result (released.new.items ≡ released.old.items) }
{
    let place = meet(conversations, alloc, noted.conversation)?;
    let Some(conversation) = conversations.get_index_mut(place) else {
        return Err(AllocError);
    };
    conversation.push(noted, released)
}

/// Takes the next event of the conversation by itself, if it is released at once and nothing waits there. Returns
/// whether it is so. If not, nothing changes.
#[inline(always)]
pub(crate) fn pass_to<A: Arrival>(
    conversations: &mut IndexMap<u32, Conversation<A>>,
    id: u32,
    event: &SharedEvent,
) -> bool
    ensures passed { IsTrue result
        → PassesAloneOf A.event id event.now conversations.old.entries conversations.new.entries }
    ensures same { IsFalse result → conversations.new.entries ≡ conversations.old.entries }
{
    let Some(place) = place_of(conversations, id) else {
        return false;
    };
    let Some(conversation) = conversations.get_index_mut(place) else {
        return false;
    };
    conversation.try_pass(event)
}

/// Opens the conversation. What waited for this arrives, in order.
///
/// # Errors
/// `AllocError` where memory or a reference count refuses it. Some of what should be released is.
pub(crate) fn open<A: Arrival>(
    conversations: &mut IndexMap<u32, Conversation<A>>,
    alloc: Global,
    id: u32,
    released: &mut Vec<Noted<A>>,
) -> Result<(), AllocError>
    ensures ok { OnOk result (IsOpenedOf A.event id conversations.old.entries conversations.new.entries
        released.old.items released.new.items) }
    ensures err { OnErr result (IsAddedTo released.old.items released.new.items) }
{
    let place = meet(conversations, alloc, id)?;
    let Some(conversation) = conversations.get_index_mut(place) else {
        return Err(AllocError);
    };
    conversation.open(released)
}

/// Releases the conversation's event of this time as it is, if it is the oldest that waits there, and then what this
/// makes possible. Returns whether it did.
///
/// # Errors
/// `AllocError` where `released` has no room and memory is refused. Nothing is released.
pub(crate) fn release_at<A: Arrival>(
    conversations: &mut IndexMap<u32, Conversation<A>>,
    id: u32,
    time: u64,
    released: &mut Vec<Noted<A>>,
) -> Result<bool, AllocError>
    ensures expired { IfOk result (λ some. IsTrue some → IsExpiredOf A.event id time
        conversations.old.entries conversations.new.entries released.old.items released.new.items) }
    ensures none { IfOk result (λ some. IsFalse some
        → IsNotOldest time (conversation_at conversations.old.entries id)) }
    ensures unchanged { IfOk result (λ some. IsFalse some → (k : ℕ)
        → conversation_at conversations.new.entries k ≡ conversation_at conversations.old.entries k) }
    ensures unreleased { IfOk result (λ some. IsFalse some → released.new.items ≡ released.old.items) }
    ensures err { OnErr result (released.new.items ≡ released.old.items) }
{
    let Some(place) = place_of(conversations, id) else {
        return Ok(false);
    };
    let Some(conversation) = conversations.get_index_mut(place) else {
        return Ok(false);
    };
    conversation.release_at(time, released)
}

/// Whether the oldest event that waits in the conversation, if there is one, is of another time.
#[inline(always)]
pub(crate) fn is_not_oldest<A: Arrival>(
    conversations: &IndexMap<u32, Conversation<A>>,
    id: u32,
    time: u64,
) -> bool
    ensures { IsTrue result → IsNotOldest time (conversation_at conversations.now.entries id) }
{
    let Some(place) = place_of(conversations, id) else {
        return true;
    };
    match conversations.get_index(place) {
        Some((key, conversation)) if *key == id => !conversation.is_oldest(time),
        _ => false,
    }
}

/// Whether an event of the conversation waits.
pub(crate) fn is_waiting<A: Arrival>(
    conversations: &IndexMap<u32, Conversation<A>>,
    id: u32,
) -> bool
    ensures yes { IsTrue result
        → (x : Noted A) × IsOldestWaiting (waiting_at (conversation_at conversations.now.entries id)) x }
    ensures no { IsFalse result → waiting_at (conversation_at conversations.now.entries id) ≡ [] }
{
    match conversations.get(&id) {
        Some(conversation) => conversation.is_waiting(),
        None => false,
    }
}

/// Whether the conversation was met.
pub(crate) fn is_met<A: Arrival>(conversations: &IndexMap<u32, Conversation<A>>, id: u32) -> bool
    ensures { IsFalse result → conversation_at conversations.now.entries id ≡ None }
{
    conversations.get(&id).is_some()
}

// Returns the place of the conversation, which is added where it was not met.
#[inline(always)]
fn meet<A: Arrival>(
    conversations: &mut IndexMap<u32, Conversation<A>>,
    alloc: Global,
    id: u32,
) -> Result<usize, AllocError>
    ensures place { IfOk result (λ at. IsPlaceOf conversations.new.entries at id) }
    ensures met { OnOk result (IsMet A.event id conversations.old.entries conversations.new.entries) }
{
    match place_of(conversations, id) {
        Some(place) => Ok(place),
        None => add(conversations, alloc, id),
    }
}

// Adds the conversation, which was not met. Returns its place.
#[inline(never)]
fn add<A: Arrival>(
    conversations: &mut IndexMap<u32, Conversation<A>>,
    alloc: Global,
    id: u32,
) -> Result<usize, AllocError>
    requires { conversation_at conversations.old.entries id ≡ None }
    ensures place { IfOk result (λ at. IsPlaceOf conversations.new.entries at id) }
    ensures met { OnOk result (IsMet A.event id conversations.old.entries conversations.new.entries) }
{
    conversations.insert(id, Conversation::new(alloc))?;
    place_of(conversations, id).ok_or(AllocError)
}

// Returns the place of the conversation. Ids are mostly given one after another, so the place that such an id has is
// tried first.
#[inline(always)]
fn place_of<A: Arrival>(conversations: &IndexMap<u32, Conversation<A>>, id: u32) -> Option<usize>
    ensures found { IfSome result (λ at. IsPlaceOf conversations.now.entries at id) }
    ensures absent { result ≡ None → conversation_at conversations.now.entries id ≡ None }
{
    let usual = match conversations.get_index(0) {
        Some((first, _)) => id.wrapping_sub(*first) as usize,
        None => 0,
    };
    match conversations.get_index(usual) {
        Some((key, _)) if *key == id => Some(usual),
        _ => search(conversations, id),
    }
}

// Looks the conversation up. It is a function of its own, so that it stays out of the code of most lines.
#[inline(never)]
fn search<A: Arrival>(conversations: &IndexMap<u32, Conversation<A>>, id: u32) -> Option<usize>
    ensures found { IfSome result (λ at. IsPlaceOf conversations.now.entries at id) }
    ensures absent { result ≡ None → conversation_at conversations.now.entries id ≡ None }
{
    conversations.get_index_of(&id)
}
