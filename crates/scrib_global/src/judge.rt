//! The judgement of a whole log, by the definitions.

ghost use Rattle.std.specs.Prelude.{◌≡◌, ◌↔◌, IfOk, Some};
ghost use Rattle.scrib_types.specs.Meaning.{agreement_of};
ghost use Rattle.scrib_types.specs.Judgement.{Judges};
ghost use Rattle.scrib_types.specs.declared.event.Verdict.TheVariants.{Permitted};
ghost use Rattle.scrib_global.specs.Simulation.{IsJoinedRun};

use crate::allowed::allowed;
use crate::permitted::first_offence;
use scrib_types::allowed::Allowed;
use scrib_types::event::Verdict;
use scrib_types::protocol::Protocol;
use scrib_types::shared_event::SharedEvent;
use std::alloc::{AllocError, Global};

/// The verdict on the whole log under the protocol. It is `Permitted` exactly where the log is a run with lawful joins.
/// Otherwise it is `Offence`, with the least offending place, from 1, and its role. It lists exactly the actions that
/// the role was allowed there, sorted by their printed text, none twice. The function judges each beginning of the log
/// from its first event, and is slow.
///
/// # Errors
/// `AllocError` where memory is refused.
pub fn judge_whole(
    alloc: Global,
    protocol: &Protocol,
    log: &[SharedEvent],
) -> Result<Verdict, AllocError>
    ensures verdict { IfOk result (Judges (Some (agreement_of protocol.now)) log.now) }
    ensures runs { IfOk result (λ verdict. (verdict ≡ Permitted) ↔ IsJoinedRun (agreement_of protocol.now) log.now) }
{
    match first_offence(alloc, protocol, log)? {
        None => Ok(Verdict::Permitted),
        Some(at) => {
            let role = log[at].get().subject().copy()?;
            let list = allowed(alloc, protocol, &log[..at], &role)?;
            let allowed = Allowed::new(alloc, list)?;
            Ok(Verdict::Offence {
                place: at + 1,
                role,
                allowed,
            })
        }
    }
}
