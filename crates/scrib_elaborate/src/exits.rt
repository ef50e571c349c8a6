//! Which blocks have an exit, after the first pass.

ghost use Rattle.std.specs.Prelude.{◌≡◌, ◌<◌, List, length, slice_get, Some, false};
ghost use Rattle.scrib_tree.specs.declared.tree.ModuleTree.{ModuleTree};
ghost use Rattle.scrib_static_checks.specs.SourceView.{statement_of, body_of, blocks_of};
ghost use Rattle.scrib_static_checks.specs.Names.{Declaration};
ghost use Rattle.scrib_static_checks.specs.Statements.{KeepsRules};
ghost use Rattle.scrib_elaborate.specs.NoExit.{Stays, StatementStays, AllStay};
ghost use Rattle.scrib_elaborate.specs.Typing.{IsTable};
ghost use Rattle.scrib_static_checks.specs.Walking.{AreSummaries};

use crate::tasks::ElaborationContext;
use crate::typing::callee;
use scrib_static_checks::checking::State;
use scrib_tree::tree::{Block, ModuleTree, Statement};

/// Returns whether a path through the block, in this module, leads to its end.
#[cycle(exits)]
pub fn has_exit<'a>(
    context: &ElaborationContext<'a, '_>,
    home: &'a ModuleTree,
    body: &'a [Statement],
) -> bool
    requires { IsTable context.now }
    ensures { result ≡ false → Stays context.now.modules.now home.now (body_of body.now) }
{
    for statement in body {
        if !leads_on(context, home, statement) {
            return false;
        }
    }
    true
}

#[cycle(exits)]
fn leads_on<'a>(
    context: &ElaborationContext<'a, '_>,
    home: &'a ModuleTree,
    statement: &'a Statement,
) -> bool
    requires { IsTable context.now }
    ensures { result ≡ false → StatementStays context.now.modules.now home.now (statement_of statement.now) }
{
    match statement {
        Statement::Message { .. } => true,
        Statement::Choice { branches, .. } => some_exit(context, home, branches.as_slice()),
        Statement::Rec { body, .. } => has_exit(context, home, body.as_slice()),
        Statement::Continue { .. } => false,
        Statement::Do { protocol, .. } => match callee(context, home, protocol) {
            Some(callee) => exits_at(context.states, callee.place),
            None => true,
        },
    }
}

#[cycle(exits)]
fn some_exit<'a>(
    context: &ElaborationContext<'a, '_>,
    home: &'a ModuleTree,
    branches: &'a [Block],
) -> bool
    requires { IsTable context.now }
    ensures { result ≡ false → AllStay context.now.modules.now home.now (blocks_of branches.now) }
{
    for branch in branches {
        if has_exit(context, home, branch.body.as_slice()) {
            return true;
        }
    }
    false
}

// Returns whether the protocol at this index of the table has an exit, if a walk has finished with it.
fn exits_at(states: &[State], place: usize) -> bool
    requires { place < length states.now }
    ensures { (modules : List ModuleTree) (ds : List Declaration) (d : Declaration)
        → AreSummaries modules ds states.now
        → slice_get ds place ≡ Some d
        → result ≡ false
        → KeepsRules modules d false }
{
    match states[place] {
        State::Walked(summary) => summary.exits,
        State::Walking => true,
        State::Unwalked => true,
    }
}
