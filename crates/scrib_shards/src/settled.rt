//! The end of a service.

ghost use Rattle.std.specs.Prelude.{◌≡◌, ◌<◌, ◌≤◌, IfOk, IfErr, length, vec_len};
ghost use Rattle.std.specs.Option.{option_map};
ghost use Rattle.scrib_record.specs.Versions.{meaning_of, number_of};
ghost use Rattle.scrib_library.specs.Holdings.{IsNumber};
ghost use Rattle.scrib_library.specs.Modules.{IsMeaning};
ghost use Rattle.scrib_settlement.specs.Mismatches.{AreFound};
ghost use Rattle.scrib_settlement.specs.Settled.{IsFault, IsSettled};
ghost use Rattle.scrib_shards.specs.Settling.{IsSettledSome, IsFaultSome};

use crate::service::{Service, service_of};
use crate::unlocked::{Unlocked, lock_all, unlock};
use crossbeam_utils::sync::ShardedLock;
use scrib_core::ended::Ended;
use scrib_library::library::Library;
use scrib_locked_steps::pass::Pass;
use scrib_locked_steps::shard::Shard;
use scrib_record::version::Version;
use scrib_settlement::fault::SettleFault;
use scrib_settlement::settle::settle_found;
use scrib_settlement::shard_mismatches::{Found, found_in, found_in_each};
use scrib_types::name::Dotted;
use std::alloc::{AllocError, Global};
use std::thread::Threads;
use std::{mem, thread};

/// A settled service: the library, and every conversation by rising id. It also holds what was settled: the shards with
/// their logs, and the passes with their receipts.
#[derive(Drop)]
pub struct Settled {
    pub library: Library,
    pub list: Vec<Ended>,
    pub shards: Vec<Shard>,
    pub passes: Vec<Pass>,
}

impl Settled {
    /// Returns the final version of a protocol, by its full name.
    pub fn present(&self, name: &Dotted) -> Option<&Version>
        ensures meaning { IsMeaning self.now.library.modules name.now (option_map (λ v. meaning_of v.now) result) }
        ensures number { IsNumber self.now.library name.now (option_map (λ v. number_of v.now) result) }
    {
        self.library.present(name)
    }
}

impl Service {
    /// Ends the service and returns every conversation. This requires that the passes have exactly one receipt for each
    /// place of each log, equal to the entry there, and no others.
    ///
    /// # Errors
    /// `PassesMissing` with the least shard whose passes have more or fewer receipts than its logs have events. Else
    /// `Mismatch` with the first mismatch of the least such conversation. Else `OutOfMemory`, which may also replace
    /// `Mismatch`. The service and the passes are returned, with the same number of shards.
    pub fn settle(self, passes: Vec<Pass>) -> Result<Settled, (SettleFault, Service, Vec<Pass>)>
        ensures settled { IfOk result (λ s. IsSettledSome (vec_len self.shards) s.library s.shards.items s.passes.items
            s.list.items) }
        ensures given { IfOk result (λ s. s.passes ≡ passes) }
        ensures fault { IfErr result (λ e. IsFaultSome (vec_len self.shards) passes.items e.0) }
        ensures shards { IfErr result (λ e. vec_len e.1.shards ≡ vec_len self.shards) }
        ensures passes { IfErr result (λ e. e.2 ≡ passes) }
    {
        let unlocked = unlock(self);
        let found = found_in_each(
            unlocked.alloc,
            unlocked.shards.as_slice(),
            passes.as_slice(),
        );
        settle_unlocked(unlocked, passes, found)
    }

    /// Ends the service as `settle` does. The logs of each shard are compared with the receipts on a thread of its own.
    /// If no thread can be started, an existing one does the work.
    ///
    /// # Errors
    /// Those of `settle`.
    pub fn settle_on_threads<R: Threads + Sync>(
        self,
        rt: &R,
        passes: Vec<Pass>,
    ) -> Result<Settled, (SettleFault, Service, Vec<Pass>)>
        ensures settled { IfOk result (λ s. IsSettledSome (vec_len self.shards) s.library s.shards.items s.passes.items
            s.list.items) }
        ensures given { IfOk result (λ s. s.passes ≡ passes) }
        ensures fault { IfErr result (λ e. IsFaultSome (vec_len self.shards) passes.items e.0) }
        ensures shards { IfErr result (λ e. vec_len e.1.shards ≡ vec_len self.shards) }
        ensures passes { IfErr result (λ e. e.2 ≡ passes) }
    {
        let unlocked = unlock(self);
        let found = found_on_threads(
            rt,
            unlocked.alloc,
            unlocked.shards.as_slice(),
            passes.as_slice(),
        );
        settle_unlocked(unlocked, passes, found)
    }
}

// Returns the result for each shard, computed on a thread of its own.
fn found_on_threads<R: Threads + Sync>(
    rt: &R,
    alloc: Global,
    shards: &[Shard],
    passes: &[Pass],
) -> Result<Vec<Found>, AllocError>
    ensures { IfOk result (λ found. AreFound shards.now passes.now found.items) }
{
    thread::map_indices(
        rt,
        alloc,
        shards.len(),
        &|at| found_in(alloc, shards, passes, at),
    )
}

// Settles the shards by the result for each. After a fault they are put behind locks again, for which room exists.
fn settle_unlocked(
    unlocked: Unlocked,
    passes: Vec<Pass>,
    found: Result<Vec<Found>, AllocError>,
) -> Result<Settled, (SettleFault, Service, Vec<Pass>)>
    requires found { IfOk found (λ all. AreFound unlocked.shards.items passes.items all.items) }
    ensures settled { IfOk result (λ s. IsSettledSome (vec_len unlocked.shards) s.library s.shards.items
        s.passes.items s.list.items) }
    ensures given { IfOk result (λ s. s.passes ≡ passes) }
    ensures fault { IfErr result (λ e. IsFaultSome (vec_len unlocked.shards) passes.items e.0) }
    ensures shards { IfErr result (λ e. vec_len e.1.shards ≡ vec_len unlocked.shards) }
    ensures passes { IfErr result (λ e. e.2 ≡ passes) }
{
    let Unlocked {
        alloc,
        library,
        shards,
        locks,
    } = unlocked;
    match settle_values(alloc, &library, shards.as_slice(), passes.as_slice(), found) {
        Ok((library, list)) => Ok(Settled {
            library,
            list,
            shards,
            passes,
        }),
        Err(fault) => {
            let (locks, spare) = lock_all(locks, shards);
            let service = service_of(alloc, library, locks, spare);
            Err((fault, service, passes))
        }
    }
}

// Settles the shards under the library behind the lock, by the result for each. On success it takes the library out;
// after a fault the library stays.
fn settle_values(
    alloc: Global,
    lock: &ShardedLock<Library>,
    shards: &[Shard],
    passes: &[Pass],
    found: Result<Vec<Found>, AllocError>,
) -> Result<(Library, Vec<Ended>), SettleFault>
    requires some { 0 < length shards.now }
    requires few { length shards.now ≤ 64 }
    requires found { IfOk found (λ all. AreFound shards.now passes.now all.items) }
    ensures settled { IfOk result (λ s. IsSettled s.0 shards.now passes.now s.1.items) }
    ensures fault { IfErr result (IsFault shards.now passes.now) }
{
    let Some(mut library) = lock.try_write() else {
        // Not reached: the caller owns the service, and no call of this crate forgets a guard. A fault that needs no
        // library comes first.
        settle_found(alloc, &Library::new(alloc), shards, passes, found)?;
        return Err(SettleFault::OutOfMemory);
    };
    let list = settle_found(alloc, &library, shards, passes, found)?;
    let library = mem::replace(&mut *library, Library::new(alloc));
    Ok((library, list))
}
