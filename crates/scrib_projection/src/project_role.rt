//! Projection on a role, in one pass from the leaves up.

ghost use Rattle.std.specs.Prelude.{◌≡◌, ◌≤◌, ◌<◌, ℕ, List, length, IfOk, IfSome, false, Some, None, option_map};
ghost use Rattle.scrib_types.specs.declared.profile.Profile.{Profile};
ghost use Rattle.scrib_types.specs.Trees.{GlobalTree, GlobalRec, Send, Recv};
ghost use Rattle.scrib_types.specs.GlobalView.{global_of, global_branches};
ghost use Rattle.scrib_types.specs.LocalView.{local_of};
ghost use Rattle.scrib_types.specs.Nodes.{global_nodes, branch_nodes};
ghost use Rattle.scrib_projection.specs.Surveys.{IsProjectionResult, AreSeen, AreOwnBranches, AreOtherBranches, offered, with_branch};

use crate::merge::Merge;
use crate::survey::Survey;
use scrib_types::containers::{Boxed, Items};
use scrib_types::global::GlobalType;
use scrib_types::local::Local;
use scrib_types::name::Role;
use scrib_types::profile::Profile;
use scrib_types::shared_message::SharedMessage;
use std::alloc::{AllocError, Global};

/// The result of projecting a global type on a role.
#[derive(Drop)]
pub struct ProjectionResult {
    /// What the pass finds in the type.
    pub survey: Survey,
    /// The projection, if it is defined.
    pub local: Option<Local>,
}

// The projected branches of a communication, for its sender or its receiver.
#[derive(Drop)]
struct OwnBranches {
    survey: Survey,
    locals: Option<Items<(SharedMessage, Local)>>,
}

// The merged branches of a communication, for any other role.
#[derive(Drop)]
struct OtherBranches {
    survey: Survey,
    merge: Merge,
}

/// Projects the global type on the role under the profile, and surveys it.
///
/// # Errors
/// `AllocError` where memory is refused.
#[cycle(project_role)]
#[tactic(auto, using(scrib_types::specs::GlobalView::global_views, scrib_types::specs::LocalView::local_views))]
pub fn project_role(
    alloc: Global,
    global: &GlobalType,
    role: &Role,
    profile: Profile,
) -> Result<ProjectionResult, AllocError>
    ensures { IfOk result (IsProjectionResult profile role.now (global_of global.now)) }
{
    match skip_uninvolved(global, role) {
        GlobalType::End => Ok(leaf(0, Local::End)),
        GlobalType::Var(i) => Ok(leaf(u64::from(*i) + 1, Local::Var(*i))),
        GlobalType::Rec(body) => {
            let body = project_role(alloc, body.get(), role, profile)?;
            let outcome = recursion(alloc, body)?;
            Ok(outcome)
        }
        GlobalType::Comm { from, to, branches } => {
            let several = branches.len() > 1;
            if role.equal(from) {
                let own_branches = project_branches(alloc, branches.as_slice(), role, profile)?;
                let survey = own_branches.survey.communication(true, several, false);
                let local = send(alloc, to, own_branches.locals)?;
                return Ok(ProjectionResult { survey, local });
            }
            if role.equal(to) {
                let own_branches = project_branches(alloc, branches.as_slice(), role, profile)?;
                let survey = own_branches.survey.communication(true, several, false);
                let local = receive(alloc, from, own_branches.locals)?;
                return Ok(ProjectionResult { survey, local });
            }
            let others = merge_branches(alloc, branches.as_slice(), role, profile)?;
            let differ = others.merge.differs();
            let survey = others.survey.communication(false, several, differ);
            let local = others.merge.into_local();
            Ok(ProjectionResult { survey, local })
        }
    }
}

// The type after the leading communications that have one branch and don't involve the role. Its projection on the
// role is the same.
fn skip_uninvolved<'a>(global: &'a GlobalType, role: &Role) -> &'a GlobalType
    ensures seen { (profile : Profile) (s : ProjectionResult)
        → IsProjectionResult profile role.now (global_of result.now) s
        → IsProjectionResult profile role.now (global_of global.now) s }
    ensures within { global_nodes (global_of result.now) ≤ global_nodes (global_of global.now) }
{
    if let GlobalType::Comm { from, to, branches } = global {
        if let [(_, follows)] = branches.as_slice() {
            if !role.equal(from) && !role.equal(to) {
                return skip_uninvolved(follows, role);
            }
        }
    }
    global
}

// Projects the branches on the role, which is the sender or the receiver of their communication.
#[cycle(project_role)]
fn project_branches(
    alloc: Global,
    branches: &[(SharedMessage, GlobalType)],
    role: &Role,
    profile: Profile,
) -> Result<OwnBranches, AllocError>
    ensures { IfOk result (AreOwnBranches profile role.now (global_branches branches.now)) }
{
    let mut survey = Survey::leaf(0);
    let mut locals = Some(Items::from_vec(Vec::with_capacity(alloc, branches.len())?));
    for (message, global) in branches {
        let outcome = project_role(alloc, global, role, profile)?;
        survey = survey.with_branch(outcome.survey);
        locals = with_branch(alloc, locals, message, outcome.local)?;
    }
    Ok(OwnBranches { survey, locals })
}

// Projects and merges the branches on the role, which is neither the sender nor the receiver of their communication.
// Where all branches have a common type for the role, it projects that one alone.
#[cycle(project_role)]
fn merge_branches(
    alloc: Global,
    branches: &[(SharedMessage, GlobalType)],
    role: &Role,
    profile: Profile,
) -> Result<OtherBranches, AllocError>
    ensures { IfOk result (AreOtherBranches profile role.now (global_branches branches.now)) }
{
    if let Some(global) = common_type(branches, role) {
        let outcome = project_role(alloc, global, role, profile)?;
        return Ok(same_for_all(outcome, branches));
    }
    let mut survey = Survey::leaf(0);
    let mut merge = Merge::Empty;
    for (_, global) in branches {
        let outcome = project_role(alloc, global, role, profile)?;
        survey = survey.with_branch(outcome.survey);
        merge = merge.with(alloc, profile, outcome.local)?;
    }
    Ok(OtherBranches { survey, merge })
}

// The one type that each branch has after the leading communications that don't involve the role, if there is one.
// This saves projections. Where it returns `None`, each branch is projected, with the same result.
fn common_type<'a>(
    branches: &'a [(SharedMessage, GlobalType)],
    role: &Role,
) -> Option<&'a GlobalType>
    ensures seen { IfSome result (λ g. (profile : Profile) (s : ProjectionResult)
        → IsProjectionResult profile role.now (global_of g.now) s
        → AreSeen profile role.now s (global_branches branches.now)) }
    ensures within { IfSome result (λ g. global_nodes (global_of g.now) ≤ branch_nodes (global_branches branches.now)) }
    ensures some { IfSome result (λ _. 0 < length branches.now) }
{
    let Some(((_, first), more)) = branches.split_first() else {
        return None;
    };
    let first = skip_uninvolved(first, role);
    for (_, global) in more {
        if !GlobalType::equal(first, skip_uninvolved(global, role)) {
            return None;
        }
    }
    Some(first)
}

// The merged branches, where each has this result.
fn same_for_all(
    outcome: ProjectionResult,
    branches: &[(SharedMessage, GlobalType)],
) -> OtherBranches
    requires { 0 < length branches.now }
    ensures { (profile : Profile) (r : List ℕ) → AreSeen profile r outcome (global_branches branches.now)
        → AreOtherBranches profile r (global_branches branches.now) result }
{
    let mut survey = Survey::leaf(0);
    for _ in branches {
        survey = survey.with_branch(outcome.survey);
    }
    let merge = Merge::of(outcome.local);
    OtherBranches { survey, merge }
}

// Adds a branch, where it and all the others have projections.
fn with_branch(
    alloc: Global,
    locals: Option<Items<(SharedMessage, Local)>>,
    message: &SharedMessage,
    local: Option<Local>,
) -> Result<Option<Items<(SharedMessage, Local)>>, AllocError>
    ensures { IfOk result (λ o. o ≡ with_branch locals message.now local) }
{
    match (locals, local) {
        (Some(mut locals), Some(local)) => {
            let message = message.copy()?;
            locals.push((message, local))?;
            Ok(Some(locals))
        }
        _ => Ok(None),
    }
}

// The result of an end or a variable, for any role.
fn leaf(depth: u64, local: Local) -> ProjectionResult
    ensures depth { result.survey.depth ≡ depth }
    ensures occurs { result.survey.occurs ≡ false }
    ensures choice_count { result.survey.choice_count ≡ 0 }
    ensures first { result.survey.first ≡ None }
    ensures local { result.local ≡ Some local }
{
    ProjectionResult {
        survey: Survey::leaf(depth),
        local: Some(local),
    }
}

// The result of a recursion, from that of its body. A closed recursion without the role projects to the end.
#[tactic(auto, using(scrib_types::specs::LocalView::local_views))]
fn recursion(alloc: Global, body: ProjectionResult) -> Result<ProjectionResult, AllocError>
    ensures { IfOk result (λ s. (profile : Profile) (r : List ℕ) (g : GlobalTree) → IsProjectionResult profile r g body
        → IsProjectionResult profile r (GlobalRec g) s) }
{
    let survey = body.survey.recursion();
    if survey.depth == 0 && !survey.occurs {
        let local = Some(Local::End);
        return Ok(ProjectionResult { survey, local });
    }
    let local = match body.local {
        Some(local) => Some(Local::Rec(Boxed::new(alloc, local)?)),
        None => None,
    };
    Ok(ProjectionResult { survey, local })
}

// The choice of sends to this role, with these branches.
#[tactic(auto, using(scrib_types::specs::LocalView::local_views))]
fn send(
    alloc: Global,
    to: &Role,
    locals: Option<Items<(SharedMessage, Local)>>,
) -> Result<Option<Local>, AllocError>
    ensures { IfOk result (λ o. option_map local_of o ≡ option_map (Send to.now) (offered locals)) }
{
    match locals {
        Some(branches) => {
            let to = to.copy()?;
            Ok(Some(Local::Send { to, branches }))
        }
        None => Ok(None),
    }
}

// The choice of receptions from this role, with these branches.
#[tactic(auto, using(scrib_types::specs::LocalView::local_views))]
fn receive(
    alloc: Global,
    from: &Role,
    locals: Option<Items<(SharedMessage, Local)>>,
) -> Result<Option<Local>, AllocError>
    ensures { IfOk result (λ o. option_map local_of o ≡ option_map (Recv from.now) (offered locals)) }
{
    match locals {
        Some(branches) => {
            let from = from.copy()?;
            Ok(Some(Local::Recv { from, branches }))
        }
        None => Ok(None),
    }
}
