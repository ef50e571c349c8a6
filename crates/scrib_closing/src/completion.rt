//! Which conversations a step completes.

ghost use Rattle.std.specs.Prelude.{◌≡◌, ℕ, Some, true, MatchOption};
ghost use Rattle.scrib_core.specs.Answers.{IsCompleteIn};
ghost use Rattle.scrib_core.specs.Held.{state_of};
ghost use Rattle.scrib_closing.specs.ClosingScripts.{is_accepted, is_send, judged_by};

use scrib_core::monitor::Core;
use scrib_core::reply::Reply;
use scrib_core::step::Step;
use scrib_types::event::Event;
use scrib_types::shared_event::SharedEvent;

/// Returns whether the event is a send. The message of an accepted send is in flight, so its conversation is not
/// complete.
#[inline(always)]
pub fn is_send(event: &SharedEvent) -> bool
    ensures { result ≡ is_send event.now }
{
    matches!(event.get(), Event::Sent { .. })
}

/// Returns the conversation in which the step notes an event, or makes a turn.
pub fn judged_by(step: &Step) -> Option<u32>
    ensures { result ≡ judged_by step.now }
{
    match step {
        Step::Note { id, .. } | Step::Turn { id } => Some(*id),
        _ => None,
    }
}

/// Returns whether the reply accepts its step.
pub fn is_accepted(reply: &Reply) -> bool
    ensures { result ≡ is_accepted reply.now }
{
    !matches!(reply, Reply::Refused(_))
}

/// Returns the conversation in which an accepted step noted an event or made a turn, if it is complete.
#[inline(always)]
pub fn completed(core: &Core, judged: Option<u32>, accepted: bool) -> Option<u32>
    ensures { MatchOption result
        ((id : ℕ) → judged ≡ Some id → accepted ≡ true → IsCompleteIn (state_of core.now) id → ⊥)
        (λ id. (judged ≡ Some id) × (accepted ≡ true) × IsCompleteIn (state_of core.now) id) }
{
    let id = judged?;
    if !accepted {
        return None;
    }
    if core.is_complete(id) { Some(id) } else { None }
}
