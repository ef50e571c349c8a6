//! What the replies to a script come to.

ghost use Rattle.std.specs.Prelude.{◌≡◌, IsTrue};
ghost use Rattle.scrib_types.specs.declared.event.Told.TheVariants.{Judged};
ghost use Rattle.scrib_types.specs.declared.event.Verdict.TheVariants.{Permitted};
ghost use Rattle.scrib_summary.specs.Summaries as spec;

use crate::verdict_counts::VerdictCounts;
use scrib_core::reply::Reply;
use scrib_types::event::{Told, Verdict};

/// What the replies to a script come to. A count stays at its greatest value.
#[derive(Clone, Copy, Debug, PartialEq, Eq)]
pub struct Summary {
    /// How many conversations were opened.
    pub opened: u64,
    /// How many events were noted.
    pub events: u64,
    /// How many steps and lines were refused.
    pub refused: u64,
    /// Whether a reply reported an offence.
    pub offended: bool,
    /// How the conversations were judged that were closed.
    pub verdicts: VerdictCounts,
}

impl Summary {
    /// Returns what no reply comes to.
    pub fn none() -> Summary
        ensures { result ≡ spec.no_replies }
    {
        Summary {
            opened: 0,
            events: 0,
            refused: 0,
            offended: false,
            verdicts: VerdictCounts::none(),
        }
    }

    /// Counts a reply.
    pub fn count(&mut self, reply: &Reply)
        ensures { self.new ≡ spec.with_reply reply.now self.old }
    {
        match reply {
            Reply::Edited { .. } | Reply::Profiled { .. } => {}
            Reply::Opened { .. } => self.opened = self.opened.saturating_add(1),
            Reply::Noted { told, .. } => self.count_event(told),
            Reply::Judged { told, .. } => self.note_offence(told),
            Reply::Closed {
                verdict,
                complete,
                ..
            } => self.count_closed(verdict, *complete),
            Reply::Refused(_) => self.count_refusal(),
        }
    }

    /// Counts an event that was noted, with its verdict.
    #[inline(always)]
    pub fn count_event(&mut self, told: &Told)
        ensures { self.new ≡ spec.with_event told.now self.old }
    {
        self.events = self.events.saturating_add(1);
        self.note_offence(told);
    }

    /// Counts an event that was noted and is permitted.
    #[inline(always)]
    pub fn count_permitted(&mut self)
        ensures { self.new ≡ spec.with_event (Judged Permitted) self.old }
    {
        self.events = self.events.saturating_add(1);
    }

    /// Notes whether a verdict is an offence.
    #[inline(always)]
    pub fn note_offence(&mut self, told: &Told)
        ensures { self.new ≡ spec.with_told told.now self.old }
    {
        if matches!(told, Told::Judged(Verdict::Offence { .. })) {
            self.offended = true;
        }
    }

    // Counts a conversation that was closed with this verdict.
    fn count_closed(&mut self, verdict: &Verdict, complete: bool)
        ensures { self.new ≡ spec.with_closed verdict.now complete self.old }
    {
        self.verdicts.count_closed(verdict, complete);
        if matches!(verdict, Verdict::Offence { .. }) {
            self.offended = true;
        }
    }

    /// Counts a step or a line that was refused.
    pub fn count_refusal(&mut self)
        ensures { self.new ≡ spec.with_refusal self.old }
    {
        self.refused = self.refused.saturating_add(1);
    }
}
