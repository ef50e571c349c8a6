//! What the block of a called protocol adds to the type of the statements after the call.

ghost use Rattle.std.specs.Prelude.{◌≡◌, ◌<◌, List, length, slice_get, Some, MatchResult};
ghost use Rattle.scrib_tree.specs.declared.tree.ModuleTree.{ModuleTree};
ghost use Rattle.scrib_static_checks.specs.Names.{Declaration};
ghost use Rattle.scrib_static_checks.specs.Walking.{AreSummaries};
ghost use Rattle.scrib_static_checks.specs.Source.{Done, Then};
ghost use Rattle.scrib_static_checks.specs.SourceView.{statement_of, body_of};
ghost use Rattle.scrib_static_checks.specs.Table.{protocol_at, IsConsistent, IsOwnPlace, IsPartSomewhere, IsStatementSomewhere, StopsAt};
ghost use Rattle.scrib_static_checks.specs.CallEffect.{HasEffect, IsEffectOf};

use crate::checking::{CheckContext, CheckError, State};
use crate::effect::{CallEffect, joining};
use crate::statements::check_call;
use scrib_tree::tree::Statement;

/// Returns the effect of a block of the protocol at index `own` of the table.
///
/// # Errors
/// Those of the check of a call in it.
#[cycle(effects)]
pub fn block_effect(
    context: &CheckContext,
    own: usize,
    body: &[Statement],
) -> Result<CallEffect, CheckError>
    requires consistent { IsConsistent context.now }
    requires own { IsOwnPlace context.now own }
    requires part { IsPartSomewhere (protocol_at context.now) (body_of body.now) }
    ensures { MatchResult result
        (HasEffect context.now.modules.now (protocol_at context.now) (body_of body.now))
        (StopsAt context.now) }
{
    let mut effect = CallEffect::Nothing;
    for statement in body {
        let step = statement_effect(context, own, statement)?;
        effect = effect.before(step);
    }
    Ok(effect)
}

/// Returns the effect of the protocol at this index of the table, or `Other` if no walk has finished with it.
pub fn effect_at(states: &[State], place: usize) -> CallEffect
    requires { place < length states.now }
    ensures { (modules : List ModuleTree) (ds : List Declaration) (d : Declaration)
        → AreSummaries modules ds states.now
        → slice_get ds place ≡ Some d
        → IsEffectOf modules d result }
{
    match states[place] {
        State::Walked(summary) => summary.effect,
        State::Walking => CallEffect::Other,
        State::Unwalked => CallEffect::Other,
    }
}

#[cycle(effects)]
fn statement_effect(
    context: &CheckContext,
    own: usize,
    statement: &Statement,
) -> Result<CallEffect, CheckError>
    requires consistent { IsConsistent context.now }
    requires own { IsOwnPlace context.now own }
    requires part { IsStatementSomewhere (protocol_at context.now) (statement_of statement.now) }
    ensures { MatchResult result
        (HasEffect context.now.modules.now (protocol_at context.now) (Then (statement_of statement.now) Done))
        (StopsAt context.now) }
{
    let declared = context.at.protocol.roles.as_slice();
    match statement {
        Statement::Message { .. } => Ok(CallEffect::Other),
        Statement::Choice { at, branches, spot } => {
            let branches = branches.as_slice();
            if branches.len() != 1 {
                return Ok(CallEffect::Other);
            }
            let inner = block_effect(context, own, branches[0].body.as_slice())?;
            let outer = joining(declared, at, own, *spot);
            Ok(outer.before(inner))
        }
        Statement::Rec { body, .. } => {
            let effect = block_effect(context, own, body.as_slice())?;
            Ok(effect)
        }
        Statement::Continue { .. } => Ok(CallEffect::Other),
        Statement::Do {
            protocol,
            roles,
            spot,
        } => {
            let called = check_call(context, protocol, roles.as_slice(), *spot)?;
            Ok(called.effect.given(roles.as_slice(), declared))
        }
    }
}
