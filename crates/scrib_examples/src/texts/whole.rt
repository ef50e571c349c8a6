//! Scripts whose verdicts are compared with the judgement of the whole log, by the definitions.

use crate::fault::RowsFault;
use crate::making::steps_of;
use scrib_core::monitor::Core;
use scrib_core::reply::Reply;
use scrib_core::step::Step;
use scrib_global::judge::judge_whole;
use scrib_report::verdict::verdict;
use scrib_types::event::{Told, Verdict};
use std::alloc::{AllocError, Global};
use std::io::Write;

// Makes the step. Where it comes to a verdict that isn't out of date, whether its text is that of the judgement of the
// whole log under the protocol that is there.
fn agrees(alloc: Global, core: &mut Core, step: Step) -> Result<Option<bool>, AllocError> {
    let reply = core.apply(step);
    let (id, told) = match &reply {
        Reply::Noted { id, told, .. } | Reply::Judged { id, told, .. } => (*id, told),
        _ => return Ok(None),
    };
    if matches!(told, Told::Stale) {
        return Ok(None);
    }
    let whole = match core.view(id) {
        Some((Some(protocol), log)) => judge_whole(alloc, protocol, log)?,
        _ => Verdict::Withdrawn,
    };
    let whole = verdict(alloc, &Told::Judged(whole))?;
    Ok(Some(verdict(alloc, told)?.as_slice() == whole.as_slice()))
}

/// Makes the steps of the script, and adds how many verdicts came that weren't out of date, and of how many the text is
/// that of the judgement of the whole log.
pub(crate) fn push_judgements(
    alloc: Global,
    script: &str,
    out: &mut Vec<u8>,
) -> Result<(), RowsFault> {
    let mut core = Core::new(alloc);
    let (mut agreed, mut verdicts) = (0u64, 0u64);
    for step in steps_of(alloc, script)? {
        if let Some(is_same) = agrees(alloc, &mut core, step)? {
            verdicts = verdicts.saturating_add(1);
            agreed = agreed.saturating_add(u64::from(is_same));
        }
    }
    writeln!(
        out,
        "{agreed} of {verdicts} verdicts are those on the whole logs"
    )?;
    Ok(())
}
