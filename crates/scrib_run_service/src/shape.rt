//! The numbers of shards and workers of a service.

ghost use Rattle.std.specs.Prelude.{◌≡◌, ◌⊎◌, ◌↔◌, ◌<◌, ◌≤◌, IfOk, IsErrOf};

use scrib_rejudge::workers::MAX_WORKERS;

/// The most shards of a service.
pub const MAX_SHARDS: usize = 64;

/// The number of shards of a service, and of the workers that renew its stale verdicts.
#[derive(Clone, Copy)]
pub struct Shape {
    shards: usize,
    workers: usize,
    pub ghost some_shards: { 0 < shards },
    pub ghost few_shards: { shards ≤ 64 },
    pub ghost some_workers: { 0 < workers },
    pub ghost few_workers: { workers ≤ 16 },
}

/// Why a shape is refused.
#[derive(Clone, Copy, Debug, PartialEq, Eq)]
pub enum ShapeFault {
    /// The number of shards is 0 or greater than 64.
    BadShards,
    /// The number of workers is 0 or greater than 16.
    BadWorkers,
}

impl Shape {
    /// Returns a shape of these numbers of shards and workers.
    ///
    /// # Errors
    /// `BadShards` exactly if the number of shards is 0 or greater than 64. Else `BadWorkers` exactly if the number of
    /// workers is 0 or greater than 16.
    pub fn new(shards: usize, workers: usize) -> Result<Shape, ShapeFault>
        ensures shards { IfOk result (λ shape. shape.shards ≡ shards) }
        ensures workers { IfOk result (λ shape. shape.workers ≡ workers) }
        ensures bad_shards { IsErrOf result ShapeFault.BadShards ↔ ((shards ≡ 0) ⊎ (64 < shards)) }
        ensures bad_workers { IsErrOf result ShapeFault.BadWorkers → (workers ≡ 0) ⊎ (16 < workers) }
        ensures good_workers { IfOk result (λ shape. (0 < workers) × (workers ≤ 16)) }
    {
        if shards == 0 || shards > MAX_SHARDS {
            return Err(ShapeFault::BadShards);
        }
        if workers == 0 || workers > MAX_WORKERS {
            return Err(ShapeFault::BadWorkers);
        }
        Ok(Shape { shards, workers })
    }

    /// Returns the number of shards.
    pub fn shards(&self) -> usize
        ensures is { result ≡ self.now.shards }
        ensures some { 0 < result }
        ensures few { result ≤ 64 }
    {
        self.shards
    }

    /// Returns the number of workers.
    pub fn workers(&self) -> usize
        ensures is { result ≡ self.now.workers }
        ensures some { 0 < result }
        ensures few { result ≤ 16 }
    {
        self.workers
    }
}
