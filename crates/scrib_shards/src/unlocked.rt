//! A service without locks, while it is settled.

ghost use Rattle.std.specs.Prelude.{◌≡◌, ◌<◌, ◌≤◌, vec_len, vec_capacity};

use crate::service::{Service, ShardLock, shard_lock};
use crossbeam_utils::sync::ShardedLock;
use scrib_library::library::Library;
use scrib_locked_steps::shard::Shard;
use std::alloc::Global;

/// The parts of a service: its library, the values of its shards, and the emptied list of their locks. Each list has
/// room for all values.
#[derive(Drop)]
pub(crate) struct Unlocked {
    pub(crate) alloc: Global,
    pub(crate) library: ShardedLock<Library>,
    pub(crate) shards: Vec<Shard>,
    pub(crate) locks: Vec<ShardLock>,
    ghost some: { 0 < vec_len shards },
    ghost few: { vec_len shards ≤ 64 },
    ghost back: { vec_len shards ≤ vec_capacity shards },
    ghost empty: { vec_len locks ≡ 0 },
    ghost room: { vec_len shards ≤ vec_capacity locks },
}

/// Takes the values of the shards out of their locks, in order.
pub(crate) fn unlock(service: Service) -> Unlocked
    ensures { vec_len result.shards ≡ vec_len service.shards }
{
    let Service {
        alloc,
        library,
        shards,
        spare,
    } = service;
    let (shards, locks) = unlock_all(shards, spare);
    Unlocked {
        alloc,
        library,
        shards,
        locks,
    }
}

// Returns the values behind the locks, in order, and the emptied list of locks. `values` has room for them.
fn unlock_all(mut locks: Vec<ShardLock>, mut values: Vec<Shard>) -> (Vec<Shard>, Vec<ShardLock>)
    requires empty { vec_len values ≡ 0 }
    requires room { vec_len locks ≤ vec_capacity values }
    ensures all { vec_len result.0 ≡ vec_len locks }
    ensures values { vec_len locks ≤ vec_capacity result.0 }
    ensures empty { vec_len result.1 ≡ 0 }
    ensures room { vec_len locks ≤ vec_capacity result.1 }
{
    while let Some(lock) = locks.pop() {
        values.push_reserved(lock.into_inner().into_inner());
    }
    values.reverse();
    (values, locks)
}

/// Returns locks of the values, in order, and the emptied list of values. `locks` has room for them.
pub(crate) fn lock_all(
    mut locks: Vec<ShardLock>,
    mut values: Vec<Shard>,
) -> (Vec<ShardLock>, Vec<Shard>)
    requires empty { vec_len locks ≡ 0 }
    requires room { vec_len values ≤ vec_capacity locks }
    requires back { vec_len values ≤ vec_capacity values }
    ensures all { vec_len result.0 ≡ vec_len values }
    ensures empty { vec_len result.1 ≡ 0 }
    ensures room { vec_len values ≤ vec_capacity result.1 }
{
    values.reverse();
    while let Some(value) = values.pop() {
        locks.push_reserved(shard_lock(value));
    }
    (locks, values)
}
