//! Runs connections on threads, beside workers that renew stale verdicts.

ghost use Rattle.std.specs.Prelude.{◌≡◌, ◌<◌, ℕ, length, map, IfOk, vec_len, slice_index_or};
ghost use Rattle.scrib_run_service.specs.ConnectionResults.{IsConnectionClosed, AreClosed};

use crate::common::Common;
use crate::connection::{Closed, Connection};
use crate::progress::Progress;
use crate::reading::run_script;
use crossbeam_channel::{Receiver, Sender, unbounded};
use scrib_rejudge::notices::{Notice, serve_notices};
use scrib_script_io::fault::ScriptFault;
use scrib_shards::gate::OpenGate;
use scrib_shards::service::Service;
use std::alloc::{AllocError, Global};
use std::io::Read;
use std::marker::Send;
use std::sync::Wait;
use std::thread;
use std::thread::Threads;

/// The result of a connection. Only refused memory is a fault of the run.
pub(crate) type Ran = Result<Closed, AllocError>;

// Carries out the script of a connection. A failed reader ends the connection with a line, and is no fault of the run.
fn run_connection<C: Read, P: Progress>(
    rt: &impl Wait,
    common: &Common<'_, P>,
    outbox: &Sender<Notice>,
    mut reader: C,
) -> Ran
where
    C: Drop,
    ensures { IsConnectionClosed common.now.format (C.remaining reader) result }
{
    let mut connection = Connection::new(common, Some(outbox));
    match run_script(rt, common, &mut connection, &mut reader) {
        Ok(()) => {}
        Err(ScriptFault::Read) => connection.append_read_fault()?,
        Err(_) => return Err(AllocError),
    }
    connection.close()
}

// Carries out the connections, each on a thread of its own.
fn run_each<R: Threads + Wait + Sync, C: Read + Send + Drop, P: Progress + Sync>(
    rt: &R,
    common: &Common<'_, P>,
    outbox: Sender<Notice>,
    readers: Vec<C>,
) -> Result<Vec<Ran>, AllocError>
    ensures len { IfOk result (λ all. vec_len all ≡ vec_len readers) }
    ensures each { IfOk result (λ all. (i : ℕ) (d : _) (c : C) → i < length readers.items →
        IsConnectionClosed common.now.format (C.remaining (slice_index_or readers.items i c))
        (slice_index_or all.items i d)) }
{
    thread::map_vec(
        rt,
        readers,
        &|reader| run_connection(rt, common, &outbox, reader),
    )
}

// As `run_each`. The results are in the order of the readers.
fn run_all<R: Threads + Wait + Sync, C: Read + Send + Drop, P: Progress + Sync>(
    rt: &R,
    common: &Common<'_, P>,
    outbox: Sender<Notice>,
    readers: Vec<C>,
) -> Result<Vec<Ran>, AllocError>
    ensures { IfOk result (λ all. AreClosed common.now.format (map (λ c. C.remaining c) readers.items) all.items) }
{
    run_each(rt, common, outbox, readers)
}

// Sweeps the shards that notices name, by this number of workers, until the channel is closed and empty. A worker that
// is refused memory ends, since the last sweep reaches every shard.
fn serve_all<R: Threads + Wait + Sync>(
    rt: &R,
    alloc: Global,
    service: &Service,
    inbox: &Receiver<Notice>,
    workers: usize,
) {
    let _ = thread::map_indices(
        rt,
        alloc,
        workers,
        &|_worker| serve_notices(rt, service, inbox, &OpenGate).is_ok(),
    );
}

/// Carries out the scripts of the readers, each on a thread of its own and over a connection of its own. Meanwhile this
/// number of workers renews the verdicts that edits leave stale. Returns the results in the order of the readers, when
/// all threads have ended.
///
/// # Errors
/// `AllocError` where memory for the channel or the threads is refused.
pub(crate) fn run_connections<R: Threads + Wait + Sync, C: Read + Send + Drop, P: Progress + Sync>(
    rt: &R,
    common: &Common<'_, P>,
    workers: usize,
    readers: Vec<C>,
) -> Result<Vec<Ran>, AllocError>
    ensures { IfOk result (λ all. AreClosed common.now.format (map (λ c. C.remaining c) readers.items) all.items) }
{
    let (alloc, service) = (common.alloc, common.service);
    let (outbox, inbox) = unbounded(alloc)?;
    let ((), ran) = thread::join(
        rt,
        || serve_all(rt, alloc, service, &inbox, workers),
        || run_all(rt, common, outbox, readers),
    );
    ran
}
