//! Counts the open conversations of a monitor by their verdicts.

ghost use Rattle.std.specs.Prelude.{OnOk, IfOk};
ghost use Rattle.std.specs.Map.{keys_of};
ghost use Rattle.scrib_core.specs.Answers.{IsReportedIn};
ghost use Rattle.scrib_core.specs.Held.{state_of};
ghost use Rattle.scrib_summary.specs.VerdictCounts.{CountsVerdicts};

use crate::verdict_counts::VerdictCounts;
use scrib_core::monitor::Core;
use scrib_types::event::Told;
use std::alloc::AllocError;

/// Counts each open conversation once: by the verdict that `ask` reports, or as stale, and also where its log is
/// complete.
///
/// # Errors
/// `AllocError` where memory is refused. Some conversations may be counted then.
pub fn count_open(core: &Core, counts: &mut VerdictCounts) -> Result<(), AllocError>
    ensures { OnOk result (CountsVerdicts (state_of core.now) (keys_of (state_of core.now).world.conversations)
        counts.old counts.new) }
{
    for index in 0..core.open_count() {
        let Some(id) = core.conversation_at(index) else {
            // each index below the count has a conversation
            unreachable!()
        };
        let told = told_on(core, id)?;
        counts.count(&told, core.is_complete(id));
    }
    Ok(())
}

// Returns the verdict on the conversation, or that it is stale.
fn told_on(core: &Core, id: u32) -> Result<Told, AllocError>
    ensures { IfOk result (IsReportedIn (state_of core.now) id) }
{
    match core.verdict_on(id) {
        Ok(judged) => Ok(judged.told),
        Err(_) => Err(AllocError),
    }
}
