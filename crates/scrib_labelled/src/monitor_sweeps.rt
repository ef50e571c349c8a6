//! Sweeps of a monitor between the entries of its script.

use crate::labelled_monitor::LabelledMonitor;
use scrib_sweep::stale::stale_conversations;
use scrib_sweep::sweep::{Progress, sweep_some};
use std::alloc::{AllocError, Global};

impl LabelledMonitor {
    ghost use Rattle.std.specs.Prelude.{◌≡◌, IfOk};
    ghost use Rattle.std.specs.Result.{result_ok};
    ghost use Rattle.scrib_sweep.specs.Sweeps.{AreStale, Covers, IsSwept, IsSweptSome};
    ghost use Rattle.scrib_labelled.specs.CheckedCores.{state_of};

    /// Returns the ids of the stale conversations, rising.
    ///
    /// # Errors
    /// `AllocError` where memory is refused.
    pub fn stale_conversations(&self, alloc: Global) -> Result<Vec<u32>, AllocError>
        ensures { IfOk result (λ ids. AreStale (state_of self.now.core) ids.items) }
    {
        stale_conversations(alloc, &self.core.core)
    }

    /// Makes at most 64 turns of the listed conversations that are stale, as `sweep_some` of `scrib_sweep` does. Gathers
    /// nothing, and closes no conversation.
    pub fn sweep_some<'a>(&mut self, listed: &'a [u32]) -> Progress<'a>
        requires { Covers (state_of self.old.core) listed.now }
        ensures swept { IsSweptSome (state_of self.old.core) listed.now result (state_of self.new.core) }
        ensures same { self.new ≡ record self.old { core = self.new.core } }
    {
        sweep_some(&mut self.core.core, listed)
    }

    /// Makes turns of the stale conversations until none is stale, as `sweep` of `scrib_sweep` does. Gathers nothing,
    /// and closes no conversation. Returns how many were stale.
    ///
    /// # Errors
    /// `AllocError` where memory is refused. The turns made so far remain.
    pub fn sweep_all(&mut self, alloc: Global) -> Result<usize, AllocError>
        ensures swept { IsSwept (state_of self.old.core) (result_ok result) (state_of self.new.core) }
        ensures same { self.new ≡ record self.old { core = self.new.core } }
    {
        self.core.sweep(alloc)
    }
}
