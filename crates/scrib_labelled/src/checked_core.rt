//! A monitor that keeps whether a step was refused memory.

use scrib_core::conversation_steps::Noted;
use scrib_core::monitor::Core;
use scrib_core::reply::{Refusal, Reply};
use scrib_core::step::Step;
use scrib_sweep::sweep::sweep;
use scrib_types::shared_event::SharedEvent;
use std::alloc::{AllocError, Global};

/// A monitor, and whether a step was refused memory. A run whose replies are not written has to know.
#[derive(Drop)]
pub(crate) struct CheckedCore {
    pub(crate) core: Core,
    pub(crate) lacked: bool,
}

impl CheckedCore {
    ghost use Rattle.std.specs.Prelude.{◌≡◌, ◌∷◌, []};
    ghost use Rattle.scrib_core.specs.Answers.{IsAnswered, initial};
    ghost use Rattle.scrib_core.specs.ReplyValues.{note_reply_of};
    ghost use Rattle.scrib_core.specs.declared.step.Step.TheVariants.{Note};
    ghost use Rattle.std.specs.Result.{result_ok};
    ghost use Rattle.scrib_sweep.specs.Sweeps.{IsSwept};
    ghost use Rattle.scrib_labelled.specs.CheckedCores.{GotMemory, state_of};

    /// Returns a new monitor.
    pub(crate) fn new(alloc: Global) -> CheckedCore
        ensures { state_of result ≡ initial }
    {
        CheckedCore {
            core: Core::new(alloc),
            lacked: false,
        }
    }

    /// Makes one step and returns its reply, as [`Core::apply`] does.
    pub(crate) fn apply(&mut self, step: Step) -> Reply
        ensures answered { IsAnswered (state_of self.old) step result (state_of self.new) }
        ensures memory { GotMemory self.old self.new (result ∷ []) }
    {
        let reply = self.core.apply(step);
        if matches!(reply, Reply::Refused(Refusal::OutOfMemory)) {
            self.lacked = true;
        }
        reply
    }

    /// Sweeps the stale conversations, as `sweep` of `scrib_sweep` does.
    ///
    /// # Errors
    /// `AllocError` where memory was refused.
    pub(crate) fn sweep(&mut self, alloc: Global) -> Result<usize, AllocError>
        ensures swept { IsSwept (state_of self.old) (result_ok result) (state_of self.new) }
        ensures memory { GotMemory self.old self.new [] }
    {
        let swept = sweep(alloc, &mut self.core);
        if swept.is_err() {
            self.lacked = true;
        }
        swept
    }

    /// Notes an event, as [`Core::note_event`] does.
    ///
    /// # Errors
    /// As those of [`Core::note_event`].
    #[inline(always)]
    pub(crate) fn note_event(&mut self, id: u32, event: SharedEvent) -> Result<Noted, Refusal>
        ensures answered { IsAnswered (state_of self.old) (Note id event) (note_reply_of id result)
            (state_of self.new) }
        ensures memory { GotMemory self.old self.new (note_reply_of id result ∷ []) }
    {
        let noted = self.core.note_event(id, event);
        if matches!(noted, Err(Refusal::OutOfMemory)) {
            self.lacked = true;
        }
        noted
    }
}
