//! The first fault on types, in the order of the text.
//!
//! The third pass builds the type of what follows a statement before it builds the statement's own. So of several
//! faults it finds the last one first. The text's order goes into the first block of each choice, and on to what
//! follows a block at its first end. Both orders agree, except at blocks without an exit: nothing follows them. In the
//! order of the text their faults come before those of what is after the first path to an end.

ghost use Rattle.std.specs.Prelude.{◌≡◌, ℕ, Bool, List, IfOk, IfErr, MatchResult};
ghost use Rattle.scrib_types.specs.declared.spot.Spot.{Spot};
ghost use Rattle.scrib_tree.specs.declared.tree.ModuleTree.{ModuleTree};
ghost use Rattle.scrib_static_checks.specs.Source.{Body, Then, Chooses, Repeats, Calls};
ghost use Rattle.scrib_static_checks.specs.SourceView.{statement_of, body_of, blocks_of};
ghost use Rattle.scrib_static_checks.specs.Names.{Declaration};
ghost use Rattle.scrib_static_checks.specs.Statements.{KeepsRules};
ghost use Rattle.scrib_static_checks.specs.Table.{declaration_of};
ghost use Rattle.scrib_elaborate.specs.NoExit.{Stays};
ghost use Rattle.scrib_elaborate.specs.Scope.{scope_of};
ghost use Rattle.scrib_elaborate.specs.Typing.{IsTable, TypingFails, IsAhead, IsTaskAhead, AreAhead, StopsAhead};

use crate::exits::has_exit;
use crate::scope::Scope;
use crate::tasks::{CallStatement, ElaborationContext, Task};
use crate::typing::{callee, perform_tasks};
use scrib_static_checks::size::continues_in;
use scrib_tree::tree::{Block, Statement};
use scrib_type_builder::build_error::{BuildError, Refused};
use scrib_types::name::Name;
use std::alloc::Global;

/// Returns the fault that is first in the order of the text, where a run returned `found` and left these tasks. The
/// tasks contain what precedes the fault, the outermost block first. The walk goes forward through them, on the first
/// path through each block. It builds each block without an exit on the way in isolation. If that fails, its fault is
/// an earlier one, and the walk goes on in what precedes that one.
pub fn first_fault<'a>(
    context: &ElaborationContext<'a, '_>,
    left: Vec<Task<'a>>,
    found: BuildError<'a>,
) -> BuildError<'a>
    requires table { IsTable context.now }
    requires kept { (e : Bool) × KeepsRules context.now.modules.now (declaration_of context.now.root) e }
    requires found { StopsAhead context.now.modules.now (declaration_of context.now.root) left.items found }
    ensures { TypingFails context.now.modules.now (declaration_of context.now.root) result }
{
    let mut ahead = left;
    ahead.reverse();
    let mut entered = Vec::new(context.alloc);
    let mut reported = found;
    // Memory ends long before this many tasks.
    for _ in 0..u64::MAX {
        if let BuildError::OutOfMemory = reported {
            return reported;
        }
        let Some(task) = ahead.pop() else {
            return reported;
        };
        if let Err(earlier) = visit_task(context, &mut ahead, &mut entered, task) {
            reported = earlier;
        }
    }
    BuildError::OutOfMemory
}

// Walks through the first statement of a task: first what is inside it, and then the statements after it.
fn visit_task<'a>(
    context: &ElaborationContext<'a, '_>,
    ahead: &mut Vec<Task<'a>>,
    entered: &mut Vec<usize>,
    task: Task<'a>,
) -> Result<(), BuildError<'a>>
    requires { IsTable context.now }
    ensures { (root : Declaration) (e : Bool) → KeepsRules context.now.modules.now root e
        → IsTaskAhead context.now.modules.now root task.entry
        → AreAhead context.now.modules.now root ahead.old.items
        → MatchResult result (λ _. AreAhead context.now.modules.now root ahead.new.items)
        (StopsAhead context.now.modules.now root ahead.new.items) }
{
    let Task::Front(scope, statements) = task else {
        return Ok(());
    };
    let Some((first, rest)) = statements.split_first() else {
        return Ok(());
    };
    if !rest.is_empty() {
        let again = scope.copy(context.alloc)?;
        ahead.push(Task::Front(again, rest))?;
    }
    visit_statement(context, ahead, entered, scope, first)
}

// Walks into a statement.
fn visit_statement<'a>(
    context: &ElaborationContext<'a, '_>,
    ahead: &mut Vec<Task<'a>>,
    entered: &mut Vec<usize>,
    scope: Scope<'a>,
    statement: &'a Statement,
) -> Result<(), BuildError<'a>>
    requires { IsTable context.now }
    ensures { (root : Declaration) (e : Bool) (rest : Body) → KeepsRules context.now.modules.now root e
        → IsAhead context.now.modules.now root (scope_of scope.entry) scope.entry.depth
        (Then (statement_of statement.now) rest)
        → AreAhead context.now.modules.now root ahead.old.items
        → MatchResult result (λ _. AreAhead context.now.modules.now root ahead.new.items)
        (StopsAhead context.now.modules.now root ahead.new.items) }
{
    match statement {
        Statement::Message { .. } => Ok(()),
        Statement::Choice { branches, .. } => {
            visit_choice(context, ahead, &scope, branches.as_slice())
        }
        Statement::Rec { name, body, .. } => {
            enter(context.alloc, ahead, scope, name, body.as_slice())?;
            Ok(())
        }
        // The walk reaches a `continue` only after a statement without an exit, which ends it.
        Statement::Continue { .. } => Ok(()),
        Statement::Do {
            protocol,
            roles,
            ..
        } => {
            let call = CallStatement {
                path: protocol,
                roles: roles.as_slice(),
            };
            visit_call(context, ahead, entered, &scope, call)?;
            Ok(())
        }
    }
}

// Tries the blocks of a choice before the first one with an exit, and walks into that one.
fn visit_choice<'a>(
    context: &ElaborationContext<'a, '_>,
    ahead: &mut Vec<Task<'a>>,
    scope: &Scope<'a>,
    branches: &'a [Block],
) -> Result<(), BuildError<'a>>
    requires { IsTable context.now }
    ensures { (root : Declaration) (e : Bool) (chooser : List ℕ) (spot : Spot) (rest : Body)
        → KeepsRules context.now.modules.now root e
        → IsAhead context.now.modules.now root (scope_of scope.now) scope.now.depth
        (Then (Chooses chooser (blocks_of branches.now) spot) rest)
        → AreAhead context.now.modules.now root ahead.old.items
        → MatchResult result (λ _. AreAhead context.now.modules.now root ahead.new.items)
        (StopsAhead context.now.modules.now root ahead.new.items) }
{
    for branch in branches {
        let body = branch.body.as_slice();
        let inside = scope.copy(context.alloc)?;
        if has_exit(context, scope.within.home, body) {
            ahead.push(Task::Front(inside, body))?;
            return Ok(());
        }
        try_alone(context, ahead, inside, body)?;
    }
    Ok(())
}

// Builds a block without an exit in isolation. If that fails, the tasks are those in front of its fault.
fn try_alone<'a>(
    context: &ElaborationContext<'a, '_>,
    ahead: &mut Vec<Task<'a>>,
    scope: Scope<'a>,
    body: &'a [Statement],
) -> Result<(), BuildError<'a>>
    requires { IsTable context.now }
    ensures same { IfOk result (λ _. ahead.new.items ≡ ahead.old.items) }
    ensures fault { (root : Declaration) (e : Bool) → KeepsRules context.now.modules.now root e
        → IsAhead context.now.modules.now root (scope_of scope.entry) scope.entry.depth (body_of body.now)
        → Stays context.now.modules.now scope.entry.within.home.now (body_of body.now)
        → IfErr result (StopsAhead context.now.modules.now root ahead.new.items) }
{
    let mut tasks = Vec::new(context.alloc);
    tasks.push(Task::Front(scope, body))?;
    match perform_tasks(context, &mut tasks) {
        Ok(_) => Ok(()),
        Err(fault) => {
            tasks.reverse();
            *ahead = tasks;
            Err(fault)
        }
    }
}

// Walks into a recursion.
fn enter<'a>(
    alloc: Global,
    ahead: &mut Vec<Task<'a>>,
    scope: Scope<'a>,
    name: &'a Name,
    body: &'a [Statement],
) -> Result<(), Refused>
    ensures { (modules : List ModuleTree) (root : Declaration) (spot : Spot) (rest : Body)
        → IsAhead modules root (scope_of scope.entry) scope.entry.depth
        (Then (Repeats name.now (body_of body.now) spot) rest)
        → AreAhead modules root ahead.old.items
        → IfOk result (λ _. AreAhead modules root ahead.new.items) }
{
    if continues_in(name, body) {
        let inside = scope.inside(alloc, name)?;
        ahead.push(Task::Front(inside, body))?;
        return Ok(());
    }
    ahead.push(Task::Front(scope, body))?;
    Ok(())
}

// Walks into a called protocol, once: its blocks without an exit have the same types at each call.
fn visit_call<'a>(
    context: &ElaborationContext<'a, '_>,
    ahead: &mut Vec<Task<'a>>,
    entered: &mut Vec<usize>,
    scope: &Scope<'a>,
    call: CallStatement<'a>,
) -> Result<(), Refused>
    requires { IsTable context.now }
    ensures { (root : Declaration) (spot : Spot) (rest : Body)
        → IsAhead context.now.modules.now root (scope_of scope.now) scope.now.depth
        (Then (Calls call.entry.path.now call.entry.roles.now spot) rest)
        → AreAhead context.now.modules.now root ahead.old.items
        → IfOk result (λ _. AreAhead context.now.modules.now root ahead.new.items) }
{
    let CallStatement { path, roles } = call;
    let Some(callee) = callee(context, scope.within.home, path) else {
        return Ok(());
    };
    if entered.contains(&callee.place) {
        return Ok(());
    }
    entered.push(callee.place)?;
    let inside = scope.inside_call(context.alloc, callee.declared, roles)?;
    ahead.push(Task::Front(inside, callee.declared.protocol.body.as_slice()))?;
    Ok(())
}
