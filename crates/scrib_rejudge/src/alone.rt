//! The sweep of a service that no other thread uses.

ghost use Rattle.std.specs.Prelude.{◌≤◌, ◌*◌, IfOk};

use scrib_locked_steps::sweep::Swept;
use scrib_shards::service::Service;
use std::alloc::AllocError;

/// Renews every stale verdict, and returns the numbers of turns made and of conversations renewed. It waits for no
/// lock: the caller has the service alone, so the library's lock is free.
///
/// # Errors
/// `AllocError` if memory was refused. The turns made so far remain, and conversations may be stale.
pub fn sweep_alone(service: &mut Service) -> Result<Swept, AllocError>
    ensures turns { IfOk result (λ s. s.judged ≤ s.turns) }
    ensures few { IfOk result (λ s. s.turns ≤ 4096 * s.judged) }
{
    service.sweep_shards()
}
