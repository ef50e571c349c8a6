//! The judgement of a whole log at once.

ghost use Rattle.std.specs.Prelude.{Some, IfOk};
ghost use Rattle.scrib_record.specs.CompleteRecords.{IsWholeVerdict};

use crate::configuration::Configuration;
use crate::judging::{Halt, offence, perform};
use crate::numbering::Numbering;
use crate::whole_verdict::WholeVerdict;
use scrib_types::event::Verdict;
use scrib_types::shared_event::SharedEvent;
use std::alloc::{AllocError, Global};

/// Returns the verdict on the whole log under the numbering's version, and whether the log is complete.
///
/// # Errors
/// `AllocError` where memory was refused.
pub fn judge_whole(
    alloc: Global,
    numbering: Numbering,
    log: &[SharedEvent],
) -> Result<WholeVerdict, AllocError>
    ensures { IfOk result (IsWholeVerdict (Some numbering.version) log.now) }
{
    let version = numbering.version().share()?;
    let mut configuration = Configuration::start(alloc, numbering)?;
    let (passed, halt) = perform(&mut configuration, &version, log);
    match halt {
        Halt::AtEnd => Ok(WholeVerdict {
            verdict: Verdict::Permitted,
            complete: configuration.is_complete(&version),
        }),
        Halt::Refused => {
            let verdict = offence(&configuration, &version, passed + 1, &log[passed])?;
            Ok(WholeVerdict {
                verdict,
                complete: false,
            })
        }
        Halt::NoMemory => Err(AllocError),
    }
}
