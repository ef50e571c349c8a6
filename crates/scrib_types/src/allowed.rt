//! The actions that a role is allowed, as verdicts hold them.

ghost use Rattle.std.specs.Prelude.{◌≡◌, ◌++◌, IfOk, OnOk};
ghost use Rattle.scrib_types.specs.Texts as texts;

use crate::event::Action;
use crate::text::{push_action, push_bytes};
use sqlite_items::Items;
use std::alloc::{AllocError, Global};
use std::marker::Model;
use std::sync::Arc;

// Actions beside their printed text.
#[derive(Drop)]
struct Printed {
    actions: Items<Action>,
    text: Vec<u8>,
}

/// A list of allowed actions. Copies share it by a reference count. Its text is printed once, since an offence is
/// reported again at each later event. Contracts see the list.
#[derive(Drop)]
pub struct Allowed {
    shared: Arc<Printed>,
}

impl Model for Allowed {
    ghost use Rattle.std.specs.Prelude.{◌≡◌, List};
    ghost use Rattle.scrib_types.specs.declared.event.Action.{Action};
    ghost use Rattle.scrib_types.specs.Texts.{allowed_text};

    ghost Value = { List Action };

    ghost view = { λ a. a.shared.value.actions };

    ghost invariant = { λ a. a.shared.value.text.items ≡ allowed_text a.shared.value.actions };
}

impl Allowed {
    /// Takes the actions into shared memory.
    ///
    /// # Errors
    /// `AllocError` where memory for them or for their text is refused.
    pub fn new(alloc: Global, actions: Items<Action>) -> Result<Allowed, AllocError>
        ensures { IfOk result (λ allowed. allowed ≡ actions) }
    {
        let mut text = Vec::new(alloc);
        push_allowed(&mut text, actions.as_slice())?;
        let shared = Arc::new(alloc, Printed { actions, text })?;
        Ok(Allowed { shared })
    }

    /// The actions, in order.
    pub fn as_slice(&self) -> &[Action]
        ensures { result.now ≡ self.now }
    {
        self.shared.actions.as_slice()
    }

    /// The actions with commas between them, or `none`, in ASCII bytes.
    pub fn text(&self) -> &[u8]
        ensures { result.now ≡ texts.allowed_text self.now }
    {
        self.shared.text.as_slice()
    }

    /// A copy that shares the actions.
    ///
    /// # Errors
    /// `AllocError` where the reference count can't rise.
    pub fn copy(&self) -> Result<Allowed, AllocError>
        ensures { IfOk result (λ allowed. allowed ≡ self.now) }
    {
        let shared = self.shared.clone()?;
        Ok(Allowed { shared })
    }
}

fn push_further_actions(out: &mut Vec<u8>, actions: &[Action]) -> Result<(), AllocError>
    ensures { OnOk result (out.new.items ≡ out.old.items ++ texts.further_actions actions.now) }
{
    for action in actions {
        push_bytes(out, b", ")?;
        push_action(out, action)?;
    }
    Ok(())
}

/// Adds the actions with commas between them, or `none`, in ASCII bytes.
///
/// # Errors
/// `AllocError` where memory is refused. A part may be added then.
pub fn push_allowed(out: &mut Vec<u8>, actions: &[Action]) -> Result<(), AllocError>
    ensures { OnOk result (out.new.items ≡ out.old.items ++ texts.allowed_text actions.now) }
{
    match actions {
        [] => push_bytes(out, b"none"),
        [first, others @ ..] => {
            push_action(out, first)?;
            push_further_actions(out, others)
        }
    }
}
