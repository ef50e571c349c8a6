//! Rows of calls of a core.

use crate::fault::{RowsFault, check, second};
use crate::making::step_of;
use crate::memory::rows::Call;
use scrib_core::format::Format;
use scrib_core::monitor::Core;
use scrib_core::reply::{Refusal, Reply};
use scrib_core::step::Step;
use scrib_report::json::json;
use scrib_report::line::line;
use scrib_types::protocol::Protocol;
use std::alloc::Global;

fn same_line(alloc: Global, a: &Reply, b: &Reply) -> Result<bool, RowsFault> {
    Ok(line(alloc, a)?.as_slice() == line(alloc, b)?.as_slice())
}

// Whether both have the conversation, with the same verdict, protocol and log, or neither has it.
fn is_same(alloc: Global, a: &mut Core, b: &mut Core, id: u32) -> Result<bool, RowsFault> {
    let told = a.apply(Step::Ask { id });
    if !same_line(alloc, &told, &b.apply(Step::Ask { id }))? {
        return Ok(false);
    }
    let (own, other) = match (a.view(id), b.view(id)) {
        (None, None) => return Ok(true),
        (Some((None, own)), Some((None, other))) => (own, other),
        (Some((Some(a), own)), Some((Some(b), other))) if Protocol::same_meaning(a, b) => {
            (own, other)
        }
        _ => return Ok(false),
    };
    for (event, by_other) in own.iter().zip(other) {
        if !event.equal(by_other) {
            return Ok(false);
        }
    }
    Ok(own.len() == other.len())
}

/// The reply to the step, and its format; `Memory` where memory is refused.
pub(crate) fn made(
    alloc: Global,
    core: &mut Core,
    step: &str,
) -> Result<(Format, Reply), RowsFault> {
    let (format, step) = step_of(alloc, step)?;
    match core.apply(step) {
        Reply::Refused(Refusal::OutOfMemory) => Err(RowsFault::Memory),
        reply => Ok((format, reply)),
    }
}

/// The core that made these calls.
pub(crate) fn core_after(alloc: Global, calls: &[Call]) -> Result<Core, RowsFault> {
    let mut core = Core::new(alloc);
    for (step, _) in calls {
        made(alloc, &mut core, step)?;
    }
    Ok(core)
}

// The core is to be as one that made these calls.
fn check_core(alloc: Global, core: &mut Core, calls: &[Call]) -> Result<(), RowsFault> {
    let mut other = core_after(alloc, calls)?;
    for id in [1, 2] {
        check(is_same(alloc, core, &mut other, id)?)?;
    }
    Ok(())
}

// Makes the call, which comes after those, and compares the line of its reply. Where memory is refused, the core is to
// be as one that made those calls, and the step is made once more.
fn check_call(
    alloc: Global,
    core: &mut Core,
    before: &[Call],
    (step, answer): &Call,
) -> Result<(), RowsFault> {
    let (format, reply) = match made(alloc, core, step) {
        Err(RowsFault::Memory) => {
            second(check_core(alloc, core, before))?;
            second(made(alloc, core, step))?
        }
        answer => answer?,
    };
    let text = match format {
        Format::Line => line(alloc, &reply)?,
        Format::Json => json(alloc, &reply)?,
    };
    if answer.starts_with(' ') {
        check(text.ends_with(answer.as_bytes()))
    } else {
        check(text.as_slice() == answer.as_bytes())
    }
}

/// Makes the calls of a row, and compares the lines of their replies.
pub(crate) fn run_calls(alloc: Global, calls: &[Call]) -> Result<(), RowsFault> {
    let mut core = Core::new(alloc);
    for (at, call) in calls.iter().enumerate() {
        check_call(alloc, &mut core, &calls[..at], call)?;
    }
    Ok(())
}

// The replies to the steps of a new core. Where there is no room for them, no step is made, and the steps are made once
// more.
fn replies_to(alloc: Global, calls: &[Call]) -> Result<Vec<Reply>, RowsFault> {
    let mut steps = Vec::new(alloc);
    for (text, _) in calls {
        let (_, step) = step_of(alloc, text)?;
        steps.push(step)?;
    }
    let mut core = Core::new(alloc);
    if let Ok(replies) = core.run(&steps) {
        return Ok(replies);
    }
    second(check_core(alloc, &mut core, &[]))?;
    core.run(&steps).ok().ok_or(RowsFault::Again)
}

/// Makes the calls of a row at once, and compares the replies with those that a core gives to the steps one by one.
/// Where one of them is refused memory, the others are answered as without it.
pub(crate) fn run_at_once(alloc: Global, calls: &[Call]) -> Result<(), RowsFault> {
    let replies = replies_to(alloc, calls)?;
    let mut other = Core::new(alloc);
    for ((step, _), reply) in calls.iter().zip(replies.as_slice()) {
        if matches!(reply, Reply::Refused(Refusal::OutOfMemory)) {
            continue;
        }
        let (_, alone) = made(alloc, &mut other, step)?;
        check(same_line(alloc, reply, &alone)?)?;
    }
    Ok(())
}
