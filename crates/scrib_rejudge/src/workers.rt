//! Sweeps by workers: threads that divide the shards among them.

ghost use Rattle.std.specs.Prelude.{◌≡◌, ◌⊎◌, ◌↔◌, ◌<◌, ◌≤◌, IfOk, IsErrOf, All};
ghost use Rattle.scrib_rejudge.specs.Sweeps.{shards_of, IsSweepCounted};

use crate::turns::{NO_TURNS, sum_swept, sweep_shard};
use scrib_locked_steps::sweep::Swept;
use scrib_shards::gate::Gate;
use scrib_shards::service::Service;
use std::alloc::{AllocError, Global};
use std::sync::Wait;
use std::thread;
use std::thread::Threads;

/// The maximal number of workers of a sweep.
pub const MAX_WORKERS: usize = 16;

/// Why a sweep was not made, or not completed.
#[derive(Drop)]
pub enum SweepFault {
    /// The number of workers is 0 or greater than 16.
    BadWorkers,
    /// Memory was refused.
    OutOfMemory,
}

/// Returns the numbers of the worker's shards, rising: those that equal its own number modulo the number of workers.
/// Workers and shards are numbered from 0.
///
/// # Errors
/// `AllocError` if memory was refused.
#[tactic(auto, using(crate::proofs::WorkerShardLemmas::all_below))]
pub fn shards_of(
    alloc: Global,
    worker: usize,
    workers: usize,
    shards: usize,
) -> Result<Vec<usize>, AllocError>
    requires { 0 < workers }
    ensures listed { IfOk result (λ v. v.items ≡ shards_of worker workers shards) }
    ensures below { IfOk result (λ v. All (λ shard. shard < shards) v.items) }
{
    (0..shards)
        .filter(|shard| *shard % workers == worker)
        .collect(alloc)
}

// One of the workers of a sweep: its number, from 0, and the number of workers.
#[derive(Clone, Copy)]
struct Worker {
    number: usize,
    of: usize,
}

// Sweeps the worker's shards, one after the other.
fn run_worker<G: Gate>(
    rt: &impl Wait,
    alloc: Global,
    service: &Service,
    gate: &G,
    worker: Worker,
) -> Result<Swept, AllocError>
    requires { 0 < worker.of }
    ensures { IsSweepCounted result }
{
    let mut swept = NO_TURNS;
    for shard in &shards_of(alloc, worker.number, worker.of, service.shards())? {
        swept = sum_swept(swept, sweep_shard(rt, service, *shard, gate)?);
    }
    Ok(swept)
}

// Runs the workers and returns the result of each.
fn run_workers<R: Threads + Wait + Sync, G: Gate + Sync>(
    rt: &R,
    alloc: Global,
    service: &Service,
    gate: &G,
    workers: usize,
) -> Result<Vec<Result<Swept, AllocError>>, AllocError>
    requires { 0 < workers }
    ensures { IfOk result (λ all. All IsSweepCounted all.items) }
{
    thread::map_indices(
        rt,
        alloc,
        workers,
        &|number| run_worker(
            rt,
            alloc,
            service,
            gate,
            Worker {
                number,
                of: workers,
            },
        ),
    )
}

/// Gives each stale conversation turns, at most 4,096, until its verdict is fresh. `workers` threads divide the shards
/// among them. Returns the numbers of turns made and of conversations renewed. The gate is called in each turn. If a
/// thread cannot be started, the calling thread does its part.
///
/// # Errors
/// `BadWorkers` exactly if the number of workers is 0 or greater than 16; `OutOfMemory` if memory was refused. All
/// workers have ended then. The turns made remain, and conversations may be stale.
pub fn sweep<R: Threads + Wait + Sync, G: Gate + Sync>(
    rt: &R,
    alloc: Global,
    service: &Service,
    workers: usize,
    gate: &G,
) -> Result<Swept, SweepFault>
    ensures swept { IfOk result (λ s. s.judged ≤ s.turns) }
    ensures bad { IsErrOf result SweepFault.BadWorkers ↔ ((workers ≡ 0) ⊎ (16 < workers)) }
{
    if workers == 0 || workers > MAX_WORKERS {
        return Err(SweepFault::BadWorkers);
    }
    let Ok(all) = run_workers(rt, alloc, service, gate, workers) else {
        return Err(SweepFault::OutOfMemory);
    };
    let mut swept = NO_TURNS;
    for own in &all {
        match own {
            Ok(own) => swept = sum_swept(swept, *own),
            Err(_) => return Err(SweepFault::OutOfMemory),
        }
    }
    Ok(swept)
}
