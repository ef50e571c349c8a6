//! What the sweeps of a script came to.

ghost use Rattle.std.specs.Prelude.{◌≡◌};
ghost use Rattle.scrib_sweeping.specs.SweptRuns.{no_sweeps, with_sweep};
ghost use Rattle.scrib_sweeping.specs.SweptScripts.{capped};

/// What the sweeps of a script came to. A count stays at its greatest value.
#[derive(Clone, Copy, Debug, PartialEq, Eq)]
pub struct SweepCounts {
    /// How many conversations were judged again.
    pub judged: u64,
    /// How many sweeps were refused memory.
    pub refused: u64,
}

impl SweepCounts {
    /// Returns the counts of no sweep.
    pub(crate) fn none() -> SweepCounts
        ensures { result ≡ no_sweeps }
    {
        SweepCounts {
            judged: 0,
            refused: 0,
        }
    }

    /// Counts a sweep that judged this many conversations, and was refused memory or not.
    pub(crate) fn count(&mut self, judged: usize, refused: bool)
        ensures { self.new ≡ capped (with_sweep self.old judged refused) }
    {
        self.judged = self.judged.saturating_add(judged as u64);
        self.refused = self.refused.saturating_add(u64::from(refused));
    }
}
