//! The unfolding of recursive local types.

ghost use Rattle.std.specs.Prelude.{◌≡◌, IfOk};
ghost use Rattle.scrib_types.specs.LocalView.{local_of, local_branches};
ghost use Rattle.scrib_types.specs.Traces.{unfolding_of};
ghost use Rattle.scrib_global.specs.Unfolded as unfolded;

use scrib_types::containers::{Boxed, Items};
use scrib_types::local::Local;
use scrib_types::shared_message::SharedMessage;
use std::alloc::{AllocError, Global};

/// Whether a send or a reception follows the leading recursions.
#[tactic(auto, using(scrib_types::specs::LocalView::local_views))]
pub fn acts_first(local: &Local) -> bool
    ensures { result ≡ unfolded.acts_first (local_of local.now) }
{
    match local {
        Local::End | Local::Var(_) => false,
        Local::Rec(body) => acts_first(body.get()),
        Local::Send { .. } | Local::Recv { .. } => true,
    }
}

/// The unfolding of the recursion with this body.
///
/// # Errors
/// `AllocError` where memory is refused.
pub fn unfold(alloc: Global, body: &Local) -> Result<Local, AllocError>
    ensures { IfOk result (λ l. local_of l ≡ unfolding_of (local_of body.now)) }
{
    substitute(alloc, body, 0, body)
}

// The type with the recursion of this body in place of the variable of the `depth`-th enclosing recursion.
#[cycle(substitute)]
#[tactic(auto, using(scrib_types::specs::LocalView::local_views))]
fn substitute(alloc: Global, local: &Local, depth: u64, body: &Local) -> Result<Local, AllocError>
    ensures { IfOk result (λ l. unfolded.Substitutes (local_of body.now) (local_of local.now) depth (local_of l)) }
{
    match local {
        Local::End => Ok(Local::End),
        Local::Var(variable) => {
            if u64::from(*variable) != depth {
                return Ok(Local::Var(*variable));
            }
            let body = Local::copy(alloc, body)?;
            Ok(Local::Rec(Boxed::new(alloc, body)?))
        }
        Local::Rec(inner) => {
            let inner = substitute(alloc, inner.get(), depth.saturating_add(1), body)?;
            Ok(Local::Rec(Boxed::new(alloc, inner)?))
        }
        Local::Send { to, branches } => {
            let to = to.copy()?;
            let branches = substitute_all(alloc, branches.as_slice(), depth, body)?;
            let branches = Items::from_vec(branches);
            Ok(Local::Send { to, branches })
        }
        Local::Recv { from, branches } => {
            let from = from.copy()?;
            let branches = substitute_all(alloc, branches.as_slice(), depth, body)?;
            let branches = Items::from_vec(branches);
            Ok(Local::Recv { from, branches })
        }
    }
}

#[cycle(substitute)]
fn substitute_all(
    alloc: Global,
    branches: &[(SharedMessage, Local)],
    depth: u64,
    body: &Local,
) -> Result<Vec<(SharedMessage, Local)>, AllocError>
    ensures { IfOk result
        (λ v. unfolded.SubstitutesAll (local_of body.now) (local_branches branches.now) depth
        (local_branches v.items)) }
{
    let mut done = Vec::new(alloc);
    for (message, local) in branches {
        let local = substitute(alloc, local, depth, body)?;
        let message = message.copy()?;
        done.push((message, local))?;
    }
    Ok(done)
}
