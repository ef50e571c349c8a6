//! Examples of a service, as lists of acts.

use crate::fault::RowsFault;
use crate::making::{closed_id, event_of, name_of, steps_of};
use crate::service::closing::close;
use crate::service::crew::{Plan, Record, run_crew};
use crate::service::settling::{push_settling, push_settling_twice};
use crate::service::sweeping::{NOTHING_SWEPT, Sweep, push_touched, sweep_by};
use scrib_client::passes::Passes;
use scrib_client::service_reply::{ServiceReply, push_service_reply, refused};
use scrib_client::steps::make_step;
use scrib_core::format::Format;
use scrib_core::monitor::Core;
use scrib_core::reply::{Reply, close_reply};
use scrib_core::step::Step;
use scrib_locked_steps::close_calls::CloseRefusal;
use scrib_rejudge::Swept;
use scrib_shards::service::{Service, ServiceFault};
use std::alloc::Global;
use std::io::Write;
use std::mem;
use std::sync::Wait;
use std::thread::Threads;

/// What is done with a service.
#[derive(Clone, Copy)]
pub(crate) enum Act<'a> {
    /// The steps of a script are made.
    Make(&'a str),
    /// The same, and the replies are printed.
    Answer(&'a str),
    /// The same, and by a core too: each of its replies that differs is printed as well.
    Compare(&'a str),
    /// The same, but how many replies there are, how many of them differ, and how many conversations were closed is
    /// printed alone.
    Agree(&'a str),
    /// The conversation of this id is closed, without the passes by which steps are made now.
    Close(u32),
    /// The event of a line is noted so often in conversation 0.
    Repeat(&'a str, usize),
    /// Conversations of the first shard are opened, of the protocol of this line, until one is refused. How many are
    /// open, the id that was refused, and why, are printed.
    Fill(&'a str),
    /// From now on steps are made by new passes.
    Reconnect,
    /// Another service takes the place of the one to which the passes belong.
    Replace,
    /// The threads of a plan run.
    Run(Plan),
    /// The conversations whose verdict is out of date are printed.
    Touched,
    /// Verdicts are brought up to date.
    Sweep(Sweep),
    /// What the last sweep did is printed.
    Swept,
}

/// What is done with a service at last.
#[derive(Clone, Copy)]
pub(crate) enum Ending {
    Nothing,
    /// The receipts of the passes are counted.
    Count,
    /// It is settled.
    Settle,
    /// Settling is refused without the last pass, and then tried with all.
    SettleTwice,
}

// A service, the passes by which steps are made, the passes that were made otherwise, what is printed, and what the
// last sweep did.
#[derive(Drop)]
struct Stage {
    alloc: Global,
    service: Service,
    passes: Passes,
    record: Record,
    swept: Swept,
}

// Adds the line of a reply, and that of a core's reply where it differs. Whether it does.
fn push_reply(
    alloc: Global,
    reply: &ServiceReply,
    by_core: Option<Reply>,
    out: &mut Vec<u8>,
) -> Result<bool, RowsFault> {
    let mut line = Vec::new(alloc);
    push_service_reply(&mut line, reply, Format::Line)?;
    out.extend_from_slice(&line)?;
    let Some(by_core) = by_core else {
        return Ok(false);
    };
    let mut other = Vec::new(alloc);
    push_service_reply(&mut other, &ServiceReply::Reply(by_core), Format::Line)?;
    let differs = other.as_slice() != line.as_slice();
    if differs {
        out.extend_from_slice(b"but the core: ")?;
        out.extend_from_slice(&other)?;
    }
    Ok(differs)
}

// Makes the steps of the script, of which a core may have these replies, and adds the lines of the replies. How many
// replies differ.
fn push_replies(
    rt: &impl Wait,
    stage: &mut Stage,
    steps: Vec<Step>,
    by_core: Vec<Reply>,
) -> Result<usize, RowsFault> {
    let mut by_core = by_core.into_iter();
    let mut different: usize = 0;
    for step in steps {
        let by_core = by_core.next();
        let differs = match closed_id(&step) {
            Some(id) => {
                reconnect(stage)?;
                push_closing(rt, stage, id, by_core)?
            }
            None => {
                let reply = make_step(rt, &stage.service, &mut stage.passes, step);
                push_reply(stage.alloc, &reply, by_core, &mut stage.record.out)?
            }
        };
        different = different.saturating_add(usize::from(differs));
    }
    Ok(different)
}

// Closes the conversation with the passes that were made before, and adds the line of the reply, and that of a core's
// reply where it differs. Whether it does.
fn push_closing(
    rt: &impl Wait,
    stage: &mut Stage,
    id: u32,
    by_core: Option<Reply>,
) -> Result<bool, RowsFault> {
    let alloc = stage.alloc;
    let closed = close(rt, alloc, &stage.service, id, &mut stage.record.passes)?;
    let out = &mut stage.record.out;
    let reply = match closed {
        Ok(closed) => close_reply(id, Ok(closed)),
        Err(CloseRefusal::Step(refusal)) => close_reply(id, Err(refusal)),
        Err(CloseRefusal::PassesMissing) => {
            writeln!(out, "refused PassesMissing")?;
            return Ok(true);
        }
        Err(
            CloseRefusal::Mismatch {
                conversation,
                place,
            },
        ) => {
            writeln!(out, "refused Mismatch {conversation} {place}")?;
            return Ok(true);
        }
    };
    push_reply(alloc, &ServiceReply::Reply(reply), by_core, out)
}

// Makes the steps of the script by the service and by a core, and adds how many replies there are, how many of them
// differ, and how many conversations were closed.
fn push_agreement(rt: &impl Wait, stage: &mut Stage, script: &str) -> Result<(), RowsFault> {
    let alloc = stage.alloc;
    let steps = steps_of(alloc, script)?;
    let by_core = Core::new(alloc).run(&steps)?;
    let replies = by_core.len();
    let mut closed: usize = 0;
    for reply in &by_core {
        closed = closed.saturating_add(usize::from(matches!(reply, Reply::Closed { .. })));
    }
    let length = stage.record.out.len();
    let different = push_replies(rt, stage, steps, by_core)?;
    stage.record.out.truncate(length);
    writeln!(
        stage.record.out,
        "{replies} replies, {different} differ, {closed} closed"
    )?;
    Ok(())
}

// Lets new passes make steps from now on.
fn reconnect(stage: &mut Stage) -> Result<(), RowsFault> {
    let alloc = stage.alloc;
    let passes = mem::replace(&mut stage.passes, Passes::new(alloc));
    stage.record.passes.append(&mut passes.into_vec(alloc)?)?;
    Ok(())
}

// Notes the event of the line so often in conversation 0.
fn note_often(
    rt: &impl Wait,
    stage: &mut Stage,
    line: &str,
    times: usize,
) -> Result<(), RowsFault> {
    let event = event_of(stage.alloc, line)?;
    for _ in 0..times {
        let event = event.copy()?;
        stage.passes.note(rt, &stage.service, 0, event)?;
    }
    Ok(())
}

// Opens conversations of the first shard until one is refused, and adds how many are open, the id that was refused, and
// why.
fn fill(rt: &impl Wait, stage: &mut Stage, line: &str) -> Result<(), RowsFault> {
    let name = name_of(stage.alloc, line)?;
    let shards = stage.service.shards();
    for (count, id) in (0..=65_536_u32).step_by(shards).enumerate() {
        if let Err(refusal) = stage.service.open(rt, id, &name) {
            write!(stage.record.out, "{count} open\n{id}: ")?;
            push_reply(stage.alloc, &refused(refusal), None, &mut stage.record.out)?;
            return Ok(());
        }
    }
    Err(RowsFault::Wrong)
}

// Does what is done at last with the service and its passes, and returns what is printed in all.
fn printed_at_last(
    alloc: Global,
    service: Service,
    record: Record,
    ending: Ending,
) -> Result<Vec<u8>, RowsFault> {
    let Record { passes, mut out } = record;
    match ending {
        Ending::Nothing => {}
        Ending::Count => {
            let mut count: usize = 0;
            for pass in &passes {
                count = count.saturating_add(pass.receipts().len());
            }
            writeln!(out, "{count}")?;
        }
        Ending::Settle => {
            push_settling(alloc, service, passes, &mut out)?;
        }
        Ending::SettleTwice => push_settling_twice(alloc, service, passes, &mut out)?,
    }
    Ok(out)
}

// Performs the act.
fn perform<R: Threads + Wait + Sync>(
    rt: &R,
    stage: &mut Stage,
    act: Act<'_>,
) -> Result<(), RowsFault> {
    let alloc = stage.alloc;
    match act {
        Act::Make(script) => {
            let length = stage.record.out.len();
            push_replies(rt, stage, steps_of(alloc, script)?, Vec::new(alloc))?;
            stage.record.out.truncate(length);
        }
        Act::Answer(script) => {
            push_replies(rt, stage, steps_of(alloc, script)?, Vec::new(alloc))?;
        }
        Act::Compare(script) => {
            let steps = steps_of(alloc, script)?;
            let by_core = Core::new(alloc).run(&steps)?;
            push_replies(rt, stage, steps, by_core)?;
        }
        Act::Agree(script) => push_agreement(rt, stage, script)?,
        Act::Close(id) => {
            push_closing(rt, stage, id, None)?;
        }
        Act::Repeat(line, times) => note_often(rt, stage, line, times)?,
        Act::Fill(line) => fill(rt, stage, line)?,
        Act::Reconnect => reconnect(stage)?,
        Act::Replace => {
            let shards = stage.service.shards();
            stage.service = Service::new(alloc, shards).ok().ok_or(RowsFault::Memory)?;
        }
        Act::Run(plan) => run_crew(rt, alloc, &stage.service, plan, &mut stage.record)?,
        Act::Touched => push_touched(rt, &stage.service, &mut stage.record.out)?,
        Act::Sweep(sweep) => {
            stage.swept = sweep_by(rt, alloc, &mut stage.service, sweep, &mut stage.record.out)?;
        }
        Act::Swept => {
            let Swept { turns, judged } = stage.swept;
            writeln!(stage.record.out, "{turns} turns, {judged} judged")?;
        }
    }
    Ok(())
}

/// What is printed where these acts are performed on a service of so many shards, one after the other.
pub(crate) fn play<R: Threads + Wait + Sync>(
    rt: &R,
    alloc: Global,
    shards: usize,
    acts: &[Act<'_>],
    ending: Ending,
) -> Result<Vec<u8>, RowsFault> {
    let service = match Service::new(alloc, shards) {
        Ok(service) => service,
        Err(ServiceFault::BadShards) => {
            return Ok(Vec::from_slice(alloc, b"refused BadShards\n")?);
        }
        Err(ServiceFault::OutOfMemory) => return Err(RowsFault::Memory),
    };
    let record = Record {
        passes: Vec::new(alloc),
        out: Vec::new(alloc),
    };
    let mut stage = Stage {
        alloc,
        service,
        passes: Passes::new(alloc),
        record,
        swept: NOTHING_SWEPT,
    };
    for act in acts {
        perform(rt, &mut stage, *act)?;
    }
    perform(rt, &mut stage, Act::Reconnect)?;
    let Stage {
        service,
        record,
        ..
    } = stage;
    printed_at_last(alloc, service, record, ending)
}
