//! The stale conversations of a service, and a sweep of all its shards.

ghost use Rattle.std.specs.Prelude.{◌<◌, ◌≤◌, ◌*◌, IfOk, vec_len};
ghost use Rattle.scrib_shards.specs.Called.{AreStaleSome};

use crate::service::Service;
use scrib_locked_steps::sweep::{Swept, sweep_shard, touched_locked};
use std::alloc::AllocError;
use std::sync::Wait;

impl Service {
    /// Returns the ids of the shard's conversations with stale verdicts, rising.
    ///
    /// # Errors
    /// `AllocError` if memory was refused.
    pub fn touched(&self, rt: &impl Wait, shard: usize) -> Result<Vec<u32>, AllocError>
        requires { shard < vec_len self.now.shards }
        ensures { IfOk result (λ ids. AreStaleSome ids.items) }
    {
        let guard = self.library.read(rt, shard);
        let library = &*guard;
        let shard = self.shards[shard].lock(rt);
        library.is_accepting();
        touched_locked(library, &shard)
    }

    /// Renews every stale verdict, shard after shard, with at most 4,096 turns for each conversation. It waits for no
    /// lock: the caller has the service alone, so the library's lock is free.
    ///
    /// # Errors
    /// `AllocError` if memory was refused. The turns made so far remain.
    pub fn sweep_shards(&mut self) -> Result<Swept, AllocError>
        ensures turns { IfOk result (λ s. s.judged ≤ s.turns) }
        ensures few { IfOk result (λ s. s.turns ≤ 4096 * s.judged) }
    {
        let Some(library) = self.library.try_read(0) else {
            // Not reached: the caller has the service alone, and no call of this crate forgets a guard.
            return Err(AllocError);
        };
        let mut swept = Swept {
            turns: 0,
            judged: 0,
        };
        for shard in self.shards.iter_mut() {
            let more = sweep_shard(&library, shard.get_mut())?;
            swept.turns = swept.turns.saturating_add(more.turns);
            swept.judged = swept.judged.saturating_add(more.judged);
        }
        Ok(swept)
    }
}
