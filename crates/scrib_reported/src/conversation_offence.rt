//! The offence of a conversation, with its reason and the line of its event.

ghost use Rattle.std.specs.Prelude.{◌≡◌, ℕ, List, IfOk};
ghost use Rattle.scrib_types.specs.declared.event.Told.TheVariants.{Judged};
ghost use Rattle.scrib_types.specs.declared.event.Verdict.TheVariants.{Offence};
ghost use Rattle.scrib_core.specs.Answers.{IsReportedIn};
ghost use Rattle.scrib_core.specs.Held.{state_of};
ghost use Rattle.scrib_reported.specs.FoundOffences.{IsOffenceIn};
ghost use Rattle.scrib_reported.specs.Kept.{keeping};

use crate::kept::KeptConversations;
use scrib_core::monitor::Core;
use scrib_findings::finding::ReportedOffence;
use scrib_offences::explain_refused::explain_refused;
use scrib_types::allowed::Allowed;
use scrib_types::name::Dotted;
use std::alloc::{AllocError, Global};

/// An offence of a conversation, and the full name of its protocol.
#[derive(Drop)]
pub(crate) struct ConversationOffence {
    pub(crate) protocol: Dotted,
    pub(crate) offence: ReportedOffence,
}

/// Returns the offence of a conversation whose verdict is an offence that allows these actions.
///
/// # Errors
/// `AllocError` where memory is refused.
pub(crate) fn offence_of(
    alloc: Global,
    core: &Core,
    kept: &KeptConversations,
    id: u32,
    allowed: Allowed,
) -> Result<ConversationOffence, AllocError>
    requires { (place : ℕ) × (role : List ℕ) × IsReportedIn (state_of core.now) id
        (Judged (Offence place role allowed)) }
    ensures { IfOk result (λ found. (place : ℕ) (role : List ℕ)
        → IsReportedIn (state_of core.now) id (Judged (Offence place role allowed))
        → IsOffenceIn (state_of core.now) id (keeping kept.now id).lines place allowed found.protocol found.offence) }
{
    let Some(record) = core.fresh_record(id) else {
        // a verdict that is not stale has a record
        unreachable!()
    };
    let Some(explained) = explain_refused(alloc, record)? else {
        // the verdict of the record is the same offence
        unreachable!()
    };
    let protocol = record.name().copy()?;
    let line = kept.line_at(id, explained.place);
    let offence = ReportedOffence {
        explained,
        allowed,
        line,
    };
    Ok(ConversationOffence { protocol, offence })
}
