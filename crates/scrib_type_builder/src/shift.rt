//! Global types under one more recursion.

ghost use Rattle.std.specs.Prelude.{◌≡◌, IfOk};
ghost use Rattle.scrib_types.specs.GlobalView.{global_of, global_branches};
ghost use Rattle.scrib_type_builder.specs.Shifting.{shifted, branches_shifted};

use crate::build_error::{Refused, next_depth};
use scrib_types::containers::{Boxed, Items};
use scrib_types::global::GlobalType;
use scrib_types::shared_message::SharedMessage;
use std::alloc::Global;

/// Returns the type under one more recursion. Each variable from `under` on belongs to a recursion around the type, and
/// so counts one more.
///
/// # Errors
/// `Refused` where memory was refused.
#[cycle(shift)]
#[tactic(auto, using(scrib_types::specs::GlobalView::global_views))]
pub fn shifted(alloc: Global, global: &GlobalType, under: u32) -> Result<GlobalType, Refused>
    ensures { IfOk result (λ g. global_of g ≡ shifted under (global_of global.now)) }
{
    match global {
        GlobalType::End => Ok(GlobalType::End),
        GlobalType::Var(i) => {
            if *i < under {
                return Ok(GlobalType::Var(*i));
            }
            let more = next_depth(*i)?;
            Ok(GlobalType::Var(more))
        }
        GlobalType::Rec(body) => {
            let deeper = next_depth(under)?;
            let body = shifted(alloc, body.get(), deeper)?;
            Ok(GlobalType::Rec(Boxed::new(alloc, body)?))
        }
        GlobalType::Comm { from, to, branches } => {
            let from = from.copy()?;
            let to = to.copy()?;
            let branches = shifted_branches(alloc, branches.as_slice(), under)?;
            let branches = Items::from_vec(branches);
            Ok(GlobalType::Comm { from, to, branches })
        }
    }
}

#[cycle(shift)]
fn shifted_branches(
    alloc: Global,
    branches: &[(SharedMessage, GlobalType)],
    under: u32,
) -> Result<Vec<(SharedMessage, GlobalType)>, Refused>
    ensures { IfOk result (λ more. global_branches more.items ≡ branches_shifted under (global_branches branches.now)) }
{
    let mut more = Vec::with_capacity(alloc, branches.len())?;
    for (message, global) in branches {
        let message = message.copy()?;
        let global = shifted(alloc, global, under)?;
        more.push((message, global))?;
    }
    Ok(more)
}
