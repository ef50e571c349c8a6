//! The conversations that are stale.

ghost use Rattle.std.specs.Prelude.{◌↔◌, ℕ, IfOk, OnErr, IsTrue};
ghost use Rattle.scrib_core.specs.Held.{state_of};
ghost use Rattle.scrib_core.specs.Marks.{IsStale};
ghost use Rattle.scrib_sweep.specs.Sweeps.{AreStale};

use scrib_core::monitor::Core;
use std::alloc::{AllocError, Global};

/// Returns the ids of the stale conversations, rising.
///
/// # Errors
/// `AllocError` if memory was refused. Some conversation is stale then.
pub fn stale_conversations(alloc: Global, core: &Core) -> Result<Vec<u32>, AllocError>
    ensures listed { IfOk result (λ ids. AreStale (state_of core.now) ids.items) }
    ensures some { OnErr result ((id : ℕ) × IsStale ((state_of core.now).marks id)) }
{
    let mut ids = Vec::new(alloc);
    for index in 0..core.open_count() {
        if let Some(id) = core.conversation_at(index) {
            if is_stale(core, id) {
                ids.push(id)?;
            }
        }
    }
    ids.sort_unstable();
    ids.dedup();
    Ok(ids)
}

// Whether the conversation is open and its verdict is stale.
pub(crate) fn is_stale(core: &Core, id: u32) -> bool
    ensures { IsTrue result ↔ IsStale ((state_of core.now).marks id) }
{
    match core.fresh_record(id) {
        Some(_) => false,
        None => core.view(id).is_some(),
    }
}
