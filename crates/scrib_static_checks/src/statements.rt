//! The rules of statements: the first pass over a protocol.

ghost use Rattle.std.specs.Prelude.{◌≡◌, ℕ, List, ◌∷◌, slice_get, Some, true, false, IfOk, MatchResult};
ghost use Rattle.scrib_types.specs.declared.message.Message.{Message};
ghost use Rattle.scrib_types.specs.WellFormed.{has_role};
ghost use Rattle.scrib_static_checks.specs.declared.checking.CheckError.TheVariants.{Broken};
ghost use Rattle.scrib_static_checks.specs.Source.{Body, Then, Sends, Chooses, Continues, Calls};
ghost use Rattle.scrib_static_checks.specs.SourceView.{statement_of, body_of, blocks_of};
ghost use Rattle.scrib_static_checks.specs.Names.{Declaration, called};
ghost use Rattle.scrib_static_checks.specs.Statements.{BlockKeeps, StatementKeeps, BlocksKeep};
ghost use Rattle.scrib_static_checks.specs.Faults.{HasStatement, spot_of};
ghost use Rattle.scrib_static_checks.specs.Table.{shown, enclosing_names, protocol_at, IsConsistent, IsPart, AreParts, IsEntry, IsCallKept, StopsAt};

use crate::checking::{BrokenRule, CheckContext, CheckError, EnclosingRec, State, Summary};
use crate::declared::looked_in;
use crate::fault::FaultKind;
use crate::names::{are_different, are_roles, has_module, has_role, is_among};
use scrib_tree::tree::{Block, Statement};
use scrib_types::name::{Dotted, Name, Role};
use scrib_types::spot::Spot;
use std::alloc::{AllocError, Global};

/// Checks the statements of a block, and returns whether it has an exit.
///
/// # Errors
/// `Broken` with the first rule that is broken. `Call` at the first call of a protocol that was not walked.
/// `OutOfMemory` where memory was refused.
#[cycle(statements)]
pub fn check_block<'a>(
    alloc: Global,
    context: &CheckContext,
    recs: &[EnclosingRec<'a>],
    body: &'a [Statement],
) -> Result<bool, CheckError>
    requires consistent { IsConsistent context.now }
    requires part { IsPart (protocol_at context.now) (enclosing_names recs.now) (body_of body.now) }
    ensures { MatchResult result
        (BlockKeeps context.now.modules.now (protocol_at context.now) (enclosing_names recs.now) true
        (body_of body.now))
        (StopsAt context.now) }
{
    let mut exits = true;
    for statement in body {
        if !exits {
            return Err(broken(FaultKind::Unreachable, spot_of(statement)));
        }
        exits = check_statement(alloc, context, recs, statement)?;
    }
    Ok(exits)
}

#[cycle(statements)]
fn check_statement<'a>(
    alloc: Global,
    context: &CheckContext,
    recs: &[EnclosingRec<'a>],
    statement: &'a Statement,
) -> Result<bool, CheckError>
    requires consistent { IsConsistent context.now }
    requires part { (rest : Body) × IsPart (protocol_at context.now) (enclosing_names recs.now)
        (Then (statement_of statement.now) rest) }
    ensures { MatchResult result
        (StatementKeeps context.now.modules.now (protocol_at context.now) (enclosing_names recs.now)
        (statement_of statement.now))
        (StopsAt context.now) }
{
    match statement {
        Statement::Message { from, to, spot, .. } => {
            check_message(context, from, to.as_slice(), *spot)?;
            Ok(true)
        }
        Statement::Choice { at, branches, spot } => {
            if !has_role(context.at.protocol.roles.as_slice(), at) {
                return Err(broken(FaultKind::NoRole, *spot));
            }
            let exits = check_branches(alloc, context, recs, branches.as_slice())?;
            Ok(exits)
        }
        Statement::Rec { name, body, .. } => {
            let inner = inside(alloc, recs, name)?;
            let exits = check_block(alloc, context, &inner, body.as_slice())?;
            Ok(exits)
        }
        Statement::Continue { name, spot } => {
            if !is_enclosing(recs, name) {
                return Err(broken(FaultKind::NoRec, *spot));
            }
            Ok(false)
        }
        Statement::Do {
            protocol,
            roles,
            spot,
        } => {
            let called = check_call(context, protocol, roles.as_slice(), *spot)?;
            Ok(called.exits)
        }
    }
}

#[cycle(statements)]
fn check_branches<'a>(
    alloc: Global,
    context: &CheckContext,
    recs: &[EnclosingRec<'a>],
    branches: &'a [Block],
) -> Result<bool, CheckError>
    requires consistent { IsConsistent context.now }
    requires part { AreParts (protocol_at context.now) (enclosing_names recs.now) (blocks_of branches.now) }
    ensures { MatchResult result
        (BlocksKeep context.now.modules.now (protocol_at context.now) (enclosing_names recs.now)
        (blocks_of branches.now))
        (StopsAt context.now) }
{
    let mut exits = false;
    for branch in branches {
        let leaves = check_block(alloc, context, recs, branch.body.as_slice())?;
        exits |= leaves;
    }
    Ok(exits)
}

// Checks the rules of a message from this role to these.
fn check_message(
    context: &CheckContext,
    from: &Role,
    to: &[Role],
    spot: Spot,
) -> Result<(), CheckError>
    requires { (m : Message) × HasStatement (protocol_at context.now) (Sends m from.now to.now spot) }
    ensures { MatchResult result
        (λ _. (recs : List (List ℕ)) (m : Message)
        → StatementKeeps context.now.modules.now (protocol_at context.now) recs (Sends m from.now to.now spot) true)
        (StopsAt context.now) }
{
    let roles = context.at.protocol.roles.as_slice();
    if !has_role(roles, from) {
        return Err(broken(FaultKind::NoRole, spot));
    }
    if !are_roles(to, roles) {
        return Err(broken(FaultKind::NoRole, spot));
    }
    if is_among(to, from) {
        return Err(broken(FaultKind::SelfMessage, spot));
    }
    Ok(())
}

/// Checks a call of this path with these roles, and returns the result of the walk over the called protocol.
///
/// # Errors
/// `Broken` with the first rule that is broken, and `Call` where that protocol was not walked.
pub fn check_call(
    context: &CheckContext,
    path: &Dotted,
    roles: &[Role],
    spot: Spot,
) -> Result<Summary, CheckError>
    requires consistent { IsConsistent context.now }
    requires occurs { HasStatement (protocol_at context.now) (Calls path.now roles.now spot) }
    ensures { MatchResult result
        (IsCallKept context.now path.now roles.now spot)
        (StopsAt context.now) }
{
    if !are_roles(roles, context.at.protocol.roles.as_slice()) {
        return Err(broken(FaultKind::NoRole, spot));
    }
    if !are_different(roles) {
        return Err(broken(FaultKind::RepeatedRole, spot));
    }
    let to = called(context, path, roles, spot)?;
    let callee = context.declared[to].protocol;
    if roles.len() != callee.roles.len() {
        return Err(broken(FaultKind::WrongCount, spot));
    }
    match context.states[to] {
        State::Walked(summary) => Ok(summary),
        State::Walking => Err(broken(FaultKind::DoCycle, spot)),
        State::Unwalked => Err(CheckError::Call(to)),
    }
}

// Returns the index in the table of the protocol that a call names.
fn called(
    context: &CheckContext,
    path: &Dotted,
    roles: &[Role],
    spot: Spot,
) -> Result<usize, CheckError>
    requires consistent { IsConsistent context.now }
    requires occurs { HasStatement (protocol_at context.now) (Calls path.now roles.now spot) }
    ensures { MatchResult result
        (IsEntry context.now path.now)
        (StopsAt context.now) }
{
    let names = path.as_slice();
    let last = names.len() - 1;
    let Some(home) = looked_in(context.at.home, &names[..last]) else {
        return Err(broken(FaultKind::NoModule, spot));
    };
    match context
        .protocol_index
        .find(context.declared, home, &names[last])
    {
        Some(k) => Ok(k),
        None if has_module(context.modules, home) => Err(broken(FaultKind::NoProtocol, spot)),
        None => Err(broken(FaultKind::NoModule, spot)),
    }
}

fn broken(kind: FaultKind, spot: Spot) -> CheckError
    ensures { result ≡ Broken (record { kind = kind; spot = spot }) }
{
    CheckError::Broken(BrokenRule { kind, spot })
}

// Returns the position of the statement's first byte.
#[tactic(auto, using(crate::proofs::Spots::spots_of))]
fn spot_of(statement: &Statement) -> Spot
    ensures { result ≡ spot_of (statement_of statement.now) }
{
    match statement {
        Statement::Message { spot, .. } => *spot,
        Statement::Choice { spot, .. } => *spot,
        Statement::Rec { spot, .. } => *spot,
        Statement::Continue { spot, .. } => *spot,
        Statement::Do { spot, .. } => *spot,
    }
}

// Returns the recursions around a statement in the block of the recursion of this name.
fn inside<'a>(
    alloc: Global,
    recs: &[EnclosingRec<'a>],
    name: &'a Name,
) -> Result<Vec<EnclosingRec<'a>>, AllocError>
    ensures { IfOk result (λ inner. enclosing_names inner.items ≡ name.now ∷ enclosing_names recs.now) }
{
    let mut inner = Vec::new(alloc);
    inner.push(EnclosingRec { name })?;
    for rec in recs {
        inner.push(*rec)?;
    }
    Ok(inner)
}

// Returns whether a recursion of this name is among these.
fn is_enclosing(recs: &[EnclosingRec], name: &Name) -> bool
    ensures { result ≡ has_role name.now (enclosing_names recs.now) }
{
    for rec in recs {
        if name.equal(rec.name) {
            return true;
        }
    }
    false
}
