//! Sweeps of all shards at once, by workers and by notices.

use crate::fault::RowsFault;
use crate::service::crossing::Crossing;
use crossbeam_channel::unbounded;
use scrib_rejudge::Swept;
use scrib_rejudge::notices::{Notice, serve_notices};
use scrib_rejudge::workers::{SweepFault, sweep};
use scrib_shards::gate::OpenGate;
use scrib_shards::service::Service;
use std::alloc::Global;
use std::io::Write;
use std::sync::Wait;
use std::sync::atomic::Ordering;
use std::thread::Threads;

/// What was swept where no sweep was made.
pub(crate) const NOTHING_SWEPT: Swept = Swept {
    turns: 0,
    judged: 0,
};

/// How verdicts are brought up to date.
#[derive(Clone, Copy)]
pub(crate) enum Sweep {
    /// By so many workers, or by one thread that has the service alone where there are none.
    Workers(usize),
    /// By none, by one, and so on up to so many workers. What is refused is printed.
    UpTo(usize),
    /// By two workers, which judge a conversation each at the same time. What was swept, and how many of them met the
    /// other, is printed.
    Meeting,
    /// By notices in a closed channel, of which the last names no shard.
    Notices,
}

/// Adds the ids of the conversations of the shards whose verdict is out of date.
pub(crate) fn push_touched(
    rt: &impl Wait,
    service: &Service,
    out: &mut Vec<u8>,
) -> Result<(), RowsFault> {
    write!(out, "touched:")?;
    for shard in 0..service.shards() {
        for id in service.touched(rt, shard)?.as_slice() {
            write!(out, " {id}")?;
        }
    }
    writeln!(out)?;
    Ok(())
}

/// Sweeps by notices.
pub(crate) fn sweep_by_notices(
    rt: &impl Wait,
    alloc: Global,
    service: &Service,
) -> Result<Swept, RowsFault> {
    let (outbox, inbox) = unbounded(alloc)?;
    for shard in [0, 1, 7] {
        if outbox.send(rt, Notice { shard }).is_err() {
            return Err(RowsFault::Memory);
        }
    }
    drop(outbox);
    Ok(serve_notices(rt, service, &inbox, &OpenGate)?)
}

/// Brings verdicts up to date, and adds what is printed meanwhile. Returns what was swept.
pub(crate) fn sweep_by<R: Threads + Wait + Sync>(
    rt: &R,
    alloc: Global,
    service: &mut Service,
    way: Sweep,
    out: &mut Vec<u8>,
) -> Result<Swept, RowsFault> {
    match way {
        Sweep::Workers(0) => Ok(service.sweep_shards()?),
        Sweep::Workers(workers) => {
            let swept = sweep(rt, alloc, service, workers, &OpenGate);
            swept.ok().ok_or(RowsFault::Memory)
        }
        Sweep::UpTo(most) => {
            for workers in 0..=most {
                match sweep(rt, alloc, service, workers, &OpenGate) {
                    Ok(_) => {}
                    Err(SweepFault::BadWorkers) => writeln!(out, "refused BadWorkers {workers}")?,
                    Err(SweepFault::OutOfMemory) => return Err(RowsFault::Memory),
                }
            }
            Ok(NOTHING_SWEPT)
        }
        Sweep::Meeting => {
            let crossing = Crossing::new();
            let swept = sweep(rt, alloc, service, 2, &crossing);
            let swept = swept.ok().ok_or(RowsFault::Memory)?;
            let Swept { turns, judged } = swept;
            let met = crossing.met.load(Ordering::SeqCst);
            writeln!(out, "{turns} turns, {judged} judged\nmet: {met}")?;
            Ok(swept)
        }
        Sweep::Notices => sweep_by_notices(rt, alloc, service),
    }
}
