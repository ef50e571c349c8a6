//! Threads that use one service, each by passes of its own.

use crate::fault::RowsFault;
use crate::making::{CHOICE, DEMO, LOOP, event_of, name_of, steps_of};
use crate::service::closing::close_in_rounds;
use crate::service::crossing::Crossing;
use crate::service::events::{EVENTS, PER_LOG, event_at};
use crate::service::sweeping::sweep_by_notices;
use scrib_core::reply::Refusal;
use scrib_report::verdict::verdict;
use scrib_shards::gate::OpenGate;
use scrib_shards::pass::Pass;
use scrib_shards::service::Service;
use std::alloc::{AllocError, Global};
use std::io::Write;
use std::sync::Wait;
use std::sync::atomic::{AtomicU64, Ordering};
use std::thread;
use std::thread::Threads;

// The ids of a thread's conversations have these steps, so that with as many shards each has one of its own.
const ID_STEP: usize = 64;

// What each of two threads reports of conversation 0: neither waits for the other.
const REPORTS: [&[&str]; 2] = [
    &[
        "join 0 A",
        "join 0 B",
        "send 0 A B a()",
        "recv 0 A B a()",
        "send 0 A B a()",
    ],
    &["join 0 C", "send 0 C D c()", "send 0 C D c()"],
];

/// What a further thread edits meanwhile.
#[derive(Clone, Copy)]
pub(crate) enum Editing {
    /// There is no such thread.
    Nothing,
    /// A module that nothing is noted of, without pause until all events are noted.
    AnotherModule,
    /// The module of the conversations, five times, and each time back.
    TheirModule,
}

/// What the threads do.
#[derive(Clone, Copy)]
pub(crate) enum Plan {
    /// Two threads report what roles of one conversation do, and ask for the verdict.
    Report,
    /// Two threads note an event each, in shards 0 and 1, where each waits for the other.
    Meet,
    /// One thread opens and closes conversations whose verdicts are out of date, while the other brings verdicts up to
    /// date. How many were closed is printed.
    Close,
    /// So many threads note so many events in all, each in conversations of its own, while a further one edits.
    Note {
        threads: usize,
        notes: usize,
        editing: Editing,
    },
}

/// The passes of threads, without which the service can't be settled, and what is printed.
#[derive(Drop)]
pub(crate) struct Record {
    pub(crate) passes: Vec<Pass>,
    pub(crate) out: Vec<u8>,
}

// What the threads share: their plan, where two of them meet, and how many have noted their events.
#[derive(Drop)]
struct Crew {
    plan: Plan,
    crossing: Crossing,
    done: AtomicU64,
}

// Notes each line's event by a pass of the thread's own, and then asks for the verdict. The log that is judged has each
// of these events, and perhaps others of the other thread.
fn report(
    rt: &impl Wait,
    alloc: Global,
    service: &Service,
    lines: &[&str],
) -> Result<Record, RowsFault> {
    let mut pass = service.connect(rt, 0)?;
    for text in lines {
        service.note(rt, &mut pass, event_of(alloc, text)?, &OpenGate)?;
    }
    let told = service.ask(rt, &pass)?;
    let mut out = verdict(alloc, &told)?;
    out.push(b'\n')?;
    let mut passes = Vec::new(alloc);
    passes.push(pass)?;
    Ok(Record { passes, out })
}

// Notes that A joins. The first thread does so in conversation 0, and stays in the gate until the other was answered.
// The other does so in conversation 1, once the gate was entered.
fn meet(
    rt: &impl Wait,
    alloc: Global,
    service: &Service,
    crossing: &Crossing,
    thread: usize,
) -> Result<Vec<Pass>, RowsFault> {
    let event = event_of(alloc, "join 0 A")?;
    let mut passes = Vec::new(alloc);
    if thread == 0 {
        let mut pass = service.connect(rt, 0)?;
        service.note(rt, &mut pass, event, crossing)?;
        passes.push(pass)?;
    } else {
        let mut pass = service.connect(rt, 1)?;
        crossing.look_for(&crossing.first);
        service.note(rt, &mut pass, event, &OpenGate)?;
        crossing.second.store(1, Ordering::SeqCst);
        passes.push(pass)?;
    }
    Ok(passes)
}

// Notes so many events in conversations of the thread's own, and returns the passes.
fn note_own(
    rt: &impl Wait,
    alloc: Global,
    service: &Service,
    thread: usize,
    notes: usize,
) -> Result<Vec<Pass>, RowsFault> {
    let events = steps_of(alloc, EVENTS)?;
    let name = name_of(alloc, "open 0 k.K")?;
    let mut passes: Vec<Pass> = Vec::new(alloc);
    for number in 0..notes {
        let place = number % PER_LOG;
        if place == 0 {
            let id = thread.saturating_add(number / PER_LOG * ID_STEP);
            let id = u32::try_from(id).ok().ok_or(RowsFault::BadRow)?;
            service.open(rt, id, &name)?;
            passes.push(service.connect(rt, id)?)?;
        }
        let pass = passes.last_mut().ok_or(RowsFault::Wrong)?;
        service.note(rt, pass, event_at(&events, place)?, &OpenGate)?;
    }
    Ok(passes)
}

// Edits until so many threads have noted their events, or for a while.
fn edit(
    rt: &impl Wait,
    service: &Service,
    crew: &Crew,
    threads: usize,
    editing: Editing,
) -> Result<(), RowsFault> {
    for number in 0..u64::MAX {
        let text = match editing {
            Editing::AnotherModule if crew.done.load(Ordering::SeqCst) < threads as u64 => DEMO,
            Editing::TheirModule if number < 10 && number.is_multiple_of(2) => CHOICE,
            Editing::TheirModule if number < 10 => LOOP,
            _ => break,
        };
        service.put(rt, text.as_bytes()).map_err(Refusal::Edit)?;
    }
    Ok(())
}

// Closes conversations, and says when all are closed. The other thread sweeps until then.
fn close_or_sweep(
    rt: &impl Wait,
    alloc: Global,
    service: &Service,
    crew: &Crew,
    thread: usize,
) -> Result<Record, RowsFault> {
    let mut out = Vec::new(alloc);
    if thread == 0 {
        let closed = close_in_rounds(rt, alloc, service);
        crew.done.fetch_add(1, Ordering::SeqCst);
        writeln!(out, "{} closed", closed?)?;
    } else {
        for _ in 0..u64::MAX {
            if crew.done.load(Ordering::SeqCst) > 0 {
                break;
            }
            sweep_by_notices(rt, alloc, service)?;
        }
    }
    let passes = Vec::new(alloc);
    Ok(Record { passes, out })
}

// What the thread of this number does: the one after those that note edits.
fn work(
    rt: &impl Wait,
    alloc: Global,
    service: &Service,
    crew: &Crew,
    thread: usize,
) -> Result<Record, RowsFault> {
    let passes = match crew.plan {
        Plan::Report => {
            let lines = REPORTS.get(thread).ok_or(RowsFault::Wrong)?;
            return report(rt, alloc, service, lines);
        }
        Plan::Close => return close_or_sweep(rt, alloc, service, crew, thread),
        Plan::Meet => meet(rt, alloc, service, &crew.crossing, thread)?,
        Plan::Note { threads, notes, .. } if thread < threads => {
            let own = notes.checked_div(threads).unwrap_or(0);
            let passes = note_own(rt, alloc, service, thread, own);
            crew.done.fetch_add(1, Ordering::SeqCst);
            passes?
        }
        Plan::Note {
            threads,
            editing,
            ..
        } => {
            edit(rt, service, crew, threads, editing)?;
            Vec::new(alloc)
        }
    };
    let out = Vec::new(alloc);
    Ok(Record { passes, out })
}

// Runs so many threads, and returns what each did.
fn run_all<R: Threads + Wait + Sync>(
    rt: &R,
    alloc: Global,
    service: &Service,
    crew: &Crew,
    threads: usize,
) -> Result<Vec<Result<Record, RowsFault>>, AllocError> {
    thread::map_indices(
        rt,
        alloc,
        threads,
        &|thread| work(rt, alloc, service, crew, thread),
    )
}

/// Runs the threads of the plan. Adds their passes and what each prints; and a line where each found the other.
pub(crate) fn run_crew<R: Threads + Wait + Sync>(
    rt: &R,
    alloc: Global,
    service: &Service,
    plan: Plan,
    record: &mut Record,
) -> Result<(), RowsFault> {
    let threads = match plan {
        Plan::Report | Plan::Meet | Plan::Close => 2,
        Plan::Note {
            threads,
            editing: Editing::Nothing,
            ..
        } => threads,
        Plan::Note { threads, .. } => threads.saturating_add(1),
    };
    let crew = Crew {
        plan,
        crossing: Crossing::new(),
        done: AtomicU64::new(0),
    };
    for own in run_all(rt, alloc, service, &crew, threads)? {
        let mut own = own?;
        record.passes.append(&mut own.passes)?;
        record.out.append(&mut own.out)?;
    }
    if crew.crossing.met.load(Ordering::SeqCst) == 2 {
        writeln!(record.out, "each saw the other")?;
    }
    Ok(())
}
