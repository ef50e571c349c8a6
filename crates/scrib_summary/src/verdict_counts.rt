//! How many conversations have which verdict.

ghost use Rattle.std.specs.Prelude.{◌≡◌};
ghost use Rattle.scrib_summary.specs.VerdictCounts as spec;

use scrib_types::event::{Told, Verdict};

/// How many conversations have which verdict. A count stays at its greatest value.
#[derive(Clone, Copy, Debug, PartialEq, Eq)]
pub struct VerdictCounts {
    pub permitted: u64,
    /// How many logs are complete. They are among those that are permitted.
    pub complete: u64,
    pub offences: u64,
    pub stale: u64,
    pub withdrawn: u64,
}

impl VerdictCounts {
    /// Returns the counts of no conversation.
    pub fn none() -> VerdictCounts
        ensures { result ≡ spec.no_counts }
    {
        VerdictCounts {
            permitted: 0,
            complete: 0,
            offences: 0,
            stale: 0,
            withdrawn: 0,
        }
    }

    /// Counts one more conversation, which has this verdict, and whose log is complete or not.
    pub fn count(&mut self, told: &Told, complete: bool)
        ensures { self.new ≡ spec.with_complete complete (spec.with_told told.now self.old) }
    {
        match told {
            Told::Stale => self.stale = self.stale.saturating_add(1),
            Told::Judged(verdict) => self.count_verdict(verdict),
        }
        if complete {
            self.complete = self.complete.saturating_add(1);
        }
    }

    // Counts one more conversation, which has this verdict.
    fn count_verdict(&mut self, verdict: &Verdict)
        ensures { self.new ≡ spec.with_verdict verdict.now self.old }
    {
        match verdict {
            Verdict::Permitted => self.permitted = self.permitted.saturating_add(1),
            Verdict::Offence { .. } => self.offences = self.offences.saturating_add(1),
            Verdict::Withdrawn => self.withdrawn = self.withdrawn.saturating_add(1),
        }
    }

    /// Counts one more conversation, which is closed with this verdict, and whose log is complete or not.
    pub fn count_closed(&mut self, verdict: &Verdict, complete: bool)
        ensures { self.new ≡ spec.with_complete complete (spec.with_verdict verdict.now self.old) }
    {
        self.count_verdict(verdict);
        if complete {
            self.complete = self.complete.saturating_add(1);
        }
    }
}
