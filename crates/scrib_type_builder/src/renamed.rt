//! Global types with other roles.

ghost use Rattle.std.specs.Prelude.{◌≡◌, IfOk};
ghost use Rattle.scrib_types.specs.GlobalView.{global_of, global_branches};
ghost use Rattle.scrib_static_checks.specs.Names.{role_names};
ghost use Rattle.scrib_static_checks.specs.Elaboration.{given_for};
ghost use Rattle.scrib_type_builder.specs.Renaming.{renamed, branches_renamed, named};

use scrib_tree::tree::RoleDeclaration;
use scrib_types::containers::{Boxed, Items};
use scrib_types::global::GlobalType;
use scrib_types::name::Role;
use scrib_types::shared_message::SharedMessage;
use std::alloc::{AllocError, Global};

/// Returns the role that is passed for this declared role, by position, or the role itself if it is not declared.
pub fn given_for<'a>(declared: &[RoleDeclaration], given: &[&'a Role], role: &'a Role) -> &'a Role
    ensures { result.now ≡ given_for (role_names declared.now) (named given.now) role.now }
{
    for (i, name) in given.iter().enumerate() {
        if i >= declared.len() {
            return role;
        }
        if role.equal(&declared[i].name) {
            return *name;
        }
    }
    role
}

/// Returns the type with each declared role replaced by the role that is passed for it.
///
/// # Errors
/// `AllocError` where memory was refused.
#[cycle(rename)]
#[tactic(auto, using(scrib_types::specs::GlobalView::global_views))]
pub fn renamed(
    alloc: Global,
    declared: &[RoleDeclaration],
    given: &[&Role],
    global: &GlobalType,
) -> Result<GlobalType, AllocError>
    ensures { IfOk result (λ g. global_of g ≡ renamed (given_for (role_names declared.now) (named given.now))
        (global_of global.now)) }
{
    match global {
        GlobalType::End => Ok(GlobalType::End),
        GlobalType::Var(i) => Ok(GlobalType::Var(*i)),
        GlobalType::Rec(body) => {
            let body = renamed(alloc, declared, given, body.get())?;
            Ok(GlobalType::Rec(Boxed::new(alloc, body)?))
        }
        GlobalType::Comm { from, to, branches } => {
            let from = given_for(declared, given, from).copy()?;
            let to = given_for(declared, given, to).copy()?;
            let branches = renamed_branches(alloc, declared, given, branches.as_slice())?;
            let branches = Items::from_vec(branches);
            Ok(GlobalType::Comm { from, to, branches })
        }
    }
}

#[cycle(rename)]
fn renamed_branches(
    alloc: Global,
    declared: &[RoleDeclaration],
    given: &[&Role],
    branches: &[(SharedMessage, GlobalType)],
) -> Result<Vec<(SharedMessage, GlobalType)>, AllocError>
    ensures { IfOk result (λ more. global_branches more.items
        ≡ branches_renamed (given_for (role_names declared.now) (named given.now)) (global_branches branches.now)) }
{
    let mut more = Vec::with_capacity(alloc, branches.len())?;
    for (message, global) in branches {
        let message = message.copy()?;
        let global = renamed(alloc, declared, given, global)?;
        more.push((message, global))?;
    }
    Ok(more)
}
