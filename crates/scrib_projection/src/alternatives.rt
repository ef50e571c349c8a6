//! The merge of the alternatives of receptions from one sender.

ghost use Rattle.std.specs.Prelude.{◌≡◌, ◌&&◌, IfOk};
ghost use Rattle.scrib_types.specs.LocalView.{local_of, local_branches};
ghost use Rattle.scrib_types.specs.Projection.{with_alternative, alternatives};
ghost use Rattle.scrib_types.specs.Same.{same_message, same_local};
ghost use Rattle.scrib_projection.specs.Merging.{fitted};
ghost use Rattle.scrib_projection.specs.Surveys.{offered};

use scrib_types::containers::Items;
use scrib_types::local::Local;
use scrib_types::message::operators_equal;
use scrib_types::shared_message::SharedMessage;
use std::alloc::{AllocError, Global};

// How a message and its continuation fit the alternatives.
#[derive(Drop)]
enum Fit {
    /// They are one of the alternatives.
    Known,
    /// No alternative has the message's operator.
    New,
    /// An alternative has the operator, and another payload or continuation.
    Clashing,
}

/// The alternatives of two receptions, in the order of their first occurrence. `None` where two have the same operator
/// and differ.
///
/// # Errors
/// `AllocError` where memory is refused.
pub(crate) fn merged_alternatives(
    alloc: Global,
    known: Items<(SharedMessage, Local)>,
    more: &[(SharedMessage, Local)],
) -> Result<Option<Items<(SharedMessage, Local)>>, AllocError>
    ensures { IfOk result (λ o. offered o ≡ alternatives (local_branches known) (local_branches more.now)) }
{
    let mut known = known;
    for (message, local) in more {
        let next = with_alternative(alloc, known, message, local)?;
        match next {
            Some(next) => known = next,
            None => return Ok(None),
        }
    }
    Ok(Some(known))
}

// The alternatives and one more, or `None` where one of them has its operator and differs from it.
fn with_alternative(
    alloc: Global,
    known: Items<(SharedMessage, Local)>,
    message: &SharedMessage,
    local: &Local,
) -> Result<Option<Items<(SharedMessage, Local)>>, AllocError>
    ensures { IfOk result (λ o. offered o ≡ with_alternative message.now (local_of local.now) (local_branches known)) }
{
    let mut known = known;
    match fit_of(known.as_slice(), message, local) {
        Fit::Known => Ok(Some(known)),
        Fit::New => {
            let message = message.copy()?;
            let local = Local::copy(alloc, local)?;
            known.push((message, local))?;
            Ok(Some(known))
        }
        Fit::Clashing => Ok(None),
    }
}

// How the message and its continuation fit the alternatives.
fn fit_of(known: &[(SharedMessage, Local)], message: &SharedMessage, local: &Local) -> Fit
    ensures { fitted result message.now (local_of local.now) (local_branches known.now)
        ≡ with_alternative message.now (local_of local.now) (local_branches known.now) }
{
    for (other, continuation) in known {
        if operators_equal(&message.get().op, &other.get().op) {
            if same_alternative(message, local, other, continuation) {
                return Fit::Known;
            }
            return Fit::Clashing;
        }
    }
    Fit::New
}

fn same_alternative(
    message: &SharedMessage,
    local: &Local,
    other: &SharedMessage,
    continuation: &Local,
) -> bool
    ensures { result ≡ (same_message message.now other.now
        && same_local (local_of local.now) (local_of continuation.now)) }
{
    same_message(message, other) && same(local, continuation)
}

fn same_message(a: &SharedMessage, b: &SharedMessage) -> bool
    ensures { result ≡ same_message a.now b.now }
{
    a.equal(b)
}

/// Whether the two are the same.
pub(crate) fn same(a: &Local, b: &Local) -> bool
    ensures { result ≡ same_local (local_of a.now) (local_of b.now) }
{
    Local::equal(a, b)
}
