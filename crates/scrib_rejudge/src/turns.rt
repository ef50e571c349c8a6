//! Turns of the stale conversations of a shard.

ghost use Rattle.std.specs.Prelude.{◌≡◌, ◌<◌, ◌+◌, ◌-◌, ◌^◌, min, IfOk, vec_len};
ghost use Rattle.scrib_rejudge.specs.Sweeps.{IsConversationSwept, IsShardSwept};

use scrib_core::reply::Refusal;
use scrib_locked_steps::sweep::{MAX_TURNS, Swept};
use scrib_shards::gate::Gate;
use scrib_shards::service::Service;
use scrib_types::event::Told;
use std::alloc::AllocError;
use std::sync::Wait;

/// The totals of no sweep.
pub(crate) const NO_TURNS: Swept = Swept {
    turns: 0,
    judged: 0,
};

/// Returns the totals of two sweeps. Sums saturate.
pub(crate) fn sum_swept(one: Swept, other: Swept) -> Swept
    ensures turns { result.turns ≡ min (one.turns + other.turns) (2 ^ 64 - 1) }
    ensures judged { result.judged ≡ min (one.judged + other.judged) (2 ^ 64 - 1) }
{
    Swept {
        turns: one.turns.saturating_add(other.turns),
        judged: one.judged.saturating_add(other.judged),
    }
}

// Gives the conversation turns, at most 4,096, until its verdict is fresh. A conversation that was closed meanwhile
// counts as renewed, if it had turns before.
fn sweep_conversation<G: Gate>(
    rt: &impl Wait,
    service: &Service,
    id: u32,
    gate: &G,
) -> Result<Swept, AllocError>
    ensures { IfOk result (IsConversationSwept id) }
{
    for before in 0..MAX_TURNS {
        match service.turn(rt, id, gate) {
            Ok(Told::Stale) => {}
            Ok(Told::Judged(_)) => {
                return Ok(Swept {
                    turns: before + 1,
                    judged: 1,
                });
            }
            Err(Refusal::NoConversation) => {
                return Ok(Swept {
                    turns: before,
                    judged: before.min(1),
                });
            }
            Err(_) => return Err(AllocError),
        }
    }
    Ok(Swept {
        turns: MAX_TURNS,
        judged: 0,
    })
}

/// Gives each stale conversation of the shard turns, at most 4,096, until its verdict is fresh.
///
/// # Errors
/// `AllocError` if memory was refused. The turns made so far remain.
pub(crate) fn sweep_shard<G: Gate>(
    rt: &impl Wait,
    service: &Service,
    shard: usize,
    gate: &G,
) -> Result<Swept, AllocError>
    requires { shard < vec_len service.now.shards }
    ensures { IfOk result IsShardSwept }
{
    let ids = service.touched(rt, shard)?;
    let mut swept = NO_TURNS;
    for id in &ids {
        swept = sum_swept(swept, sweep_conversation(rt, service, *id, gate)?);
    }
    Ok(swept)
}
