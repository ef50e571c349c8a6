//! A monitor that counts what its replies come to.

use scrib_core::conversation_steps::Noted;
use scrib_core::monitor::Core;
use scrib_core::reply::{Refusal, Reply};
use scrib_core::step::Step;
use scrib_summary::open_verdicts::count_open;
use scrib_summary::summary::Summary;
use scrib_types::shared_event::SharedEvent;
use std::alloc::{AllocError, Global};

/// A monitor, and what its replies and the bad lines come to so far.
#[derive(Drop)]
pub(crate) struct CountedCore {
    pub(crate) core: Core,
    summary: Summary,
}

impl CountedCore {
    ghost use Rattle.std.specs.Prelude.{◌≡◌, IfOk};
    ghost use Rattle.scrib_core.specs.Answers.{IsAnswered, initial};
    ghost use Rattle.scrib_core.specs.ReplyValues.{note_reply_of};
    ghost use Rattle.scrib_core.specs.declared.step.Step.TheVariants.{Note};
    ghost use Rattle.scrib_summary.specs.Summaries.{no_replies, with_refusal, with_reply};
    ghost use Rattle.scrib_reported.specs.CountedCores.{state_of};
    ghost use Rattle.scrib_reported.specs.ReportedRuns.{IsTotal};

    /// Returns a new monitor, with nothing counted.
    pub(crate) fn new(alloc: Global) -> CountedCore
        ensures state { state_of result ≡ initial }
        ensures counted { result.summary ≡ no_replies }
    {
        CountedCore {
            core: Core::new(alloc),
            summary: Summary::none(),
        }
    }

    /// Makes one step and counts its reply.
    pub(crate) fn apply(&mut self, step: Step) -> Reply
        ensures answered { IsAnswered (state_of self.old) step result (state_of self.new) }
        ensures counted { self.new.summary ≡ with_reply result self.old.summary }
    {
        let reply = self.core.apply(step);
        self.summary.count(&reply);
        reply
    }

    /// Notes an event, as [`Core::note_event`] does, and counts the reply.
    ///
    /// # Errors
    /// As those of [`Core::note_event`].
    #[inline(always)]
    pub(crate) fn note_event(&mut self, id: u32, event: SharedEvent) -> Result<Noted, Refusal>
        ensures answered { IsAnswered (state_of self.old) (Note id event) (note_reply_of id result)
            (state_of self.new) }
        ensures counted { self.new.summary ≡ with_reply (note_reply_of id result) self.old.summary }
    {
        let noted = self.core.note_event(id, event);
        match &noted {
            Ok(Noted { told, .. }) => self.summary.count_event(told),
            Err(_) => self.summary.count_refusal(),
        }
        noted
    }

    /// Counts a bad line, or an end inside a module text.
    pub(crate) fn count_bad_line(&mut self)
        ensures { self.new ≡ record self.old { summary = with_refusal self.old.summary } }
    {
        self.summary.count_refusal();
    }

    /// Returns what was counted, together with the verdicts on the conversations that are open.
    ///
    /// # Errors
    /// `AllocError` where memory is refused.
    pub(crate) fn total(&self) -> Result<Summary, AllocError>
        ensures { IfOk result (IsTotal (state_of self.now) self.now.summary) }
    {
        let mut total = self.summary;
        count_open(&self.core, &mut total.verdicts)?;
        Ok(total)
    }
}
