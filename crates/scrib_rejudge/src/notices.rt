//! Sweeps of the shards that notices name.

ghost use Rattle.std.specs.Prelude.{◌≤◌, IfOk};

use crate::turns::{NO_TURNS, sum_swept, sweep_shard};
use crossbeam_channel::Receiver;
use scrib_locked_steps::sweep::Swept;
use scrib_shards::gate::Gate;
use scrib_shards::service::Service;
use std::alloc::AllocError;
use std::sync::Wait;

/// The notice that conversations of the shard of this number, from 0, may be stale.
#[derive(Clone, Copy)]
pub struct Notice {
    pub shard: usize,
}

/// Sweeps the shard that each notice names, until the channel is closed and empty. A notice that names no shard is
/// ignored. Returns the totals of all sweeps. The gate is called in each turn.
///
/// # Errors
/// `AllocError` if memory was refused. The turns made so far remain.
pub fn serve_notices<G: Gate>(
    rt: &impl Wait,
    service: &Service,
    inbox: &Receiver<Notice>,
    gate: &G,
) -> Result<Swept, AllocError>
    ensures { IfOk result (λ s. s.judged ≤ s.turns) }
{
    let mut swept = NO_TURNS;
    for notice in inbox.iter(rt) {
        if notice.shard < service.shards() {
            swept = sum_swept(swept, sweep_shard(rt, service, notice.shard, gate)?);
        }
    }
    Ok(swept)
}
