//! The number of nodes and the height of a protocol's type: the second pass.

ghost use Rattle.std.specs.Prelude.{◌≡◌, ◌||◌, MatchResult};
ghost use Rattle.scrib_static_checks.specs.Source.{Body};
ghost use Rattle.scrib_static_checks.specs.SourceView.{statement_of, body_of, blocks_of};
ghost use Rattle.scrib_static_checks.specs.Elaboration.{continues_in, continues_at, continues_some};
ghost use Rattle.scrib_static_checks.specs.Table.{protocol_at, IsConsistent, IsPartSomewhere, IsStatementSomewhere, AreSomewhere, StopsAt};
ghost use Rattle.scrib_static_checks.specs.SizeFunctions.{StatementHasSize, BlockHasSize, BlocksHaveSize};

use crate::checking::{CheckContext, CheckError};
use crate::size_bound::SizeBound;
use crate::statements::check_call;
use scrib_tree::tree::{Block, Statement};
use scrib_types::name::Name;

/// Returns the size of a block.
///
/// # Errors
/// Those of the check of a call in it.
#[cycle(sizes)]
pub fn size_block(context: &CheckContext, body: &[Statement]) -> Result<SizeBound, CheckError>
    requires consistent { IsConsistent context.now }
    requires part { IsPartSomewhere (protocol_at context.now) (body_of body.now) }
    ensures { MatchResult result
        (BlockHasSize context.now.modules.now (protocol_at context.now) (body_of body.now))
        (StopsAt context.now) }
{
    let mut size = SizeBound::row(0);
    for statement in body {
        let step = size_statement(context, statement)?;
        size = size.compose(step);
    }
    Ok(size)
}

#[cycle(sizes)]
fn size_statement(context: &CheckContext, statement: &Statement) -> Result<SizeBound, CheckError>
    requires consistent { IsConsistent context.now }
    requires part { IsStatementSomewhere (protocol_at context.now) (statement_of statement.now) }
    ensures { MatchResult result
        (StatementHasSize context.now.modules.now (protocol_at context.now) (statement_of statement.now))
        (StopsAt context.now) }
{
    match statement {
        Statement::Message { to, .. } => Ok(SizeBound::row(to.len())),
        Statement::Choice { branches, .. } => {
            let size = size_branches(context, branches.as_slice())?;
            Ok(size)
        }
        Statement::Rec { name, body, .. } => {
            let size = size_block(context, body.as_slice())?;
            if continues_in(name, body.as_slice()) {
                Ok(SizeBound::row(1).compose(size))
            } else {
                Ok(size)
            }
        }
        Statement::Continue { .. } => Ok(SizeBound::end()),
        Statement::Do {
            protocol,
            roles,
            spot,
        } => {
            let called = check_call(context, protocol, roles.as_slice(), *spot)?;
            Ok(called.size)
        }
    }
}

#[cycle(sizes)]
fn size_branches(context: &CheckContext, branches: &[Block]) -> Result<SizeBound, CheckError>
    requires consistent { IsConsistent context.now }
    requires part { AreSomewhere (protocol_at context.now) (blocks_of branches.now) }
    ensures { MatchResult result
        (BlocksHaveSize context.now.modules.now (protocol_at context.now) (blocks_of branches.now))
        (StopsAt context.now) }
{
    let mut size = SizeBound::end();
    for branch in branches {
        let more = size_block(context, branch.body.as_slice())?;
        size = size.or(more);
    }
    Ok(size)
}

/// Returns whether the block contains a `continue` of the recursion of this name.
#[cycle(continues)]
#[tactic(auto, using(crate::specs::SourceView::statement_views))]
pub fn continues_in(name: &Name, body: &[Statement]) -> bool
    ensures { result ≡ continues_in name.now (body_of body.now) }
{
    for statement in body {
        if continues_at(name, statement) {
            return true;
        }
    }
    false
}

#[cycle(continues)]
#[tactic(auto, using(crate::specs::SourceView::statement_views))]
fn continues_at(name: &Name, statement: &Statement) -> bool
    ensures { result ≡ continues_at name.now (statement_of statement.now) }
{
    match statement {
        Statement::Message { .. } => false,
        Statement::Choice { branches, .. } => continues_some(name, branches.as_slice()),
        Statement::Rec {
            name: other,
            body,
            ..
        } => {
            if name.equal(other) {
                return false;
            }
            continues_in(name, body.as_slice())
        }
        Statement::Continue { name: other, .. } => name.equal(other),
        Statement::Do { .. } => false,
    }
}

#[cycle(continues)]
#[tactic(auto, using(crate::specs::SourceView::statement_views))]
fn continues_some(name: &Name, branches: &[Block]) -> bool
    ensures { result ≡ continues_some name.now (blocks_of branches.now) }
{
    for branch in branches {
        if continues_in(name, branch.body.as_slice()) {
            return true;
        }
    }
    false
}
