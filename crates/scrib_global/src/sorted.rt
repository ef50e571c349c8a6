//! Lists of actions, sorted by their printed texts.

ghost use Rattle.std.specs.Prelude.{◌≡◌, ◌↔◌, ◌⊎◌, IsTrue, IfOk, OnOk, AllPairs, Contains};
ghost use Rattle.std.specs.Ordering.{nat_cmp};
ghost use Rattle.std.specs.declared.cmp.Ordering.TheVariants.{Greater};
ghost use Rattle.std.specs.Cmp.Lexicographic.{slice_cmp};
ghost use Rattle.scrib_types.specs.Judgement.{ComesBefore};
ghost use Rattle.scrib_types.specs.Texts.{action_text};
ghost use Rattle.scrib_types.specs.declared.event.Action.{Action};
ghost use Rattle.scrib_global.specs.Sorted as spec;

use scrib_types::event::Action;
use scrib_types::text::push_action;
use std::alloc::{AllocError, Global};
use std::cmp::Ordering;

/// Inserts the action into the sorted list, unless the list contains it already.
///
/// # Errors
/// `AllocError` where memory is refused, here and in the functions below.
pub fn insert(alloc: Global, list: &mut Vec<Action>, action: Action) -> Result<(), AllocError>
    requires { AllPairs ComesBefore list.old.items }
    ensures sorted { OnOk result (AllPairs ComesBefore list.new.items) }
    ensures kept { OnOk result ((a : Action) → Contains list.new.items a ↔ (Contains list.old.items a ⊎ (action ≡ a))) }
{
    let Some(at) = place_for(alloc, list, &action)? else {
        return Ok(());
    };
    list.insert(at, action)?;
    Ok(())
}

// The index at which the action belongs in the list, or `None` where the list contains it already.
fn place_for(alloc: Global, list: &[Action], action: &Action) -> Result<Option<usize>, AllocError>
    requires { AllPairs ComesBefore list.now }
    ensures { IfOk result (spec.IsPlaceFor action.now list.now) }
{
    let text = printed(alloc, action)?;
    for (i, other) in list.iter().enumerate() {
        if are_same(other, action) {
            return Ok(None);
        }
        if is_after(alloc, other, &text)? {
            return Ok(Some(i));
        }
    }
    Ok(Some(list.len()))
}

// Whether the action's printed text is greater than the text.
fn is_after(alloc: Global, action: &Action, text: &[u8]) -> Result<bool, AllocError>
    ensures { IfOk result (λ is. IsTrue is ↔ (slice_cmp nat_cmp (action_text action.now) text.now ≡ Greater)) }
{
    let other = printed(alloc, action)?;
    Ok(other.as_slice().cmp(text) == Ordering::Greater)
}

/// The action's printed text.
pub fn printed(alloc: Global, action: &Action) -> Result<Vec<u8>, AllocError>
    ensures { IfOk result (λ text. text.items ≡ action_text action.now) }
{
    let mut text = Vec::new(alloc);
    push_action(&mut text, action)?;
    Ok(text)
}

// Whether the two actions are the same.
fn are_same(a: &Action, b: &Action) -> bool
    ensures { IsTrue result ↔ (a.now ≡ b.now) }
{
    match (a, b) {
        (Action::Join, Action::Join) => true,
        (Action::Sends { to: p, message: m }, Action::Sends { to: q, message: n }) => p.equal(q)
            && m.equal(n),
        (
            Action::Receives {
                from: p,
                message: m,
            },
            Action::Receives {
                from: q,
                message: n,
            },
        ) => p.equal(q) && m.equal(n),
        _ => false,
    }
}
