//! Converts a record's answer into a value that owns its parts.

ghost use Rattle.std.specs.Prelude.{◌≡◌, IfOk};
ghost use Rattle.scrib_core.specs.Permitted.{is_permitted_verdict};
ghost use Rattle.scrib_core.specs.ReplyValues.{IsVerdictOf, told_of};

use scrib_record::answer::Answer;
use scrib_types::event::{Told, Verdict};
use std::alloc::AllocError;

/// Converts the answer of a record.
///
/// # Errors
/// `AllocError` if the reference count of a shared name or list cannot rise.
pub(crate) fn verdict_of(answer: Answer<'_>) -> Result<Told, AllocError>
    ensures { IfOk result (IsVerdictOf answer.entry) }
{
    match answer {
        Answer::Stale => Ok(Told::Stale),
        Answer::Permitted => Ok(Told::Judged(Verdict::Permitted)),
        Answer::Offence {
            place,
            role,
            allowed,
        } => {
            let role = role.copy()?;
            let allowed = allowed.copy()?;
            Ok(Told::Judged(Verdict::Offence {
                place,
                role,
                allowed,
            }))
        }
        Answer::Withdrawn => Ok(Told::Judged(Verdict::Withdrawn)),
    }
}

/// Returns whether the answer of a record is `Permitted`.
pub(crate) fn is_permitted_answer(answer: Answer<'_>) -> bool
    ensures { result ≡ is_permitted_verdict (told_of answer.entry) }
{
    matches!(answer, Answer::Permitted)
}
