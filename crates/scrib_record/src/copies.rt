//! Copies of verdicts.

ghost use Rattle.std.specs.Prelude.{◌≡◌, IfOk};

use scrib_types::event::{Action, Verdict};
use std::alloc::AllocError;

/// Returns a copy of the verdict.
///
/// # Errors
/// `AllocError` where the reference count of a name, a message or a list cannot rise.
pub fn copy_verdict(verdict: &Verdict) -> Result<Verdict, AllocError>
    ensures { IfOk result (λ copy. copy ≡ verdict.now) }
{
    match verdict {
        Verdict::Permitted => Ok(Verdict::Permitted),
        Verdict::Offence {
            place,
            role,
            allowed,
        } => {
            let role = role.copy()?;
            let allowed = allowed.copy()?;
            Ok(Verdict::Offence {
                place: *place,
                role,
                allowed,
            })
        }
        Verdict::Withdrawn => Ok(Verdict::Withdrawn),
    }
}

/// Returns a copy of the action.
///
/// # Errors
/// Those of `copy_verdict`.
pub fn copy_action(action: &Action) -> Result<Action, AllocError>
    ensures { IfOk result (λ copy. copy ≡ action.now) }
{
    match action {
        Action::Join => Ok(Action::Join),
        Action::Sends { to, message } => {
            let to = to.copy()?;
            let message = message.copy()?;
            Ok(Action::Sends { to, message })
        }
        Action::Receives { from, message } => {
            let from = from.copy()?;
            let message = message.copy()?;
            Ok(Action::Receives { from, message })
        }
    }
}
