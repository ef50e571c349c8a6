//! Builds the global type of a protocol: the third pass.

ghost use Rattle.std.specs.Prelude.{◌≡◌, ℕ, ◌<◌, Bool, List, ◌∷◌, map, slice_get, Some, None, IfOk, IfErr, IfSome, MatchResult, reverse};
ghost use Rattle.scrib_types.specs.declared.spot.Spot.{Spot};
ghost use Rattle.scrib_types.specs.GlobalView.{global_of};
ghost use Rattle.scrib_types.specs.Trees.{GlobalEnd};
ghost use Rattle.scrib_tree.specs.declared.tree.ModuleTree.{ModuleTree};
ghost use Rattle.scrib_elaborate.specs.declared.tasks.Task.TheVariants.{Front, Join, Close};
ghost use Rattle.scrib_static_checks.specs.Source.{Repeats, Calls};
ghost use Rattle.scrib_static_checks.specs.SourceView.{statement_of, body_of};
ghost use Rattle.scrib_static_checks.specs.Names.{called};
ghost use Rattle.scrib_static_checks.specs.Statements.{KeepsRules};
ghost use Rattle.scrib_static_checks.specs.Elaboration.{Frames, Types, role_in, prefix_message, level_of, start_of};
ghost use Rattle.scrib_type_builder.specs.Shifting.{shifted};
ghost use Rattle.scrib_static_checks.specs.Table.{shown, declaration_of};
ghost use Rattle.scrib_static_checks.specs.CallEffect.{IsEffectOf};
ghost use Rattle.scrib_elaborate.specs.Scope.{scope_of};
ghost use Rattle.scrib_type_builder.specs.BuiltType.{type_of, add_no_origins};
ghost use Rattle.scrib_elaborate.specs.Typing.{Target, whole_target, made_of, nothing_made, FramesMake, PassesOn, IsTypedRest, IsState, IsTable, IsVariable, TypingFails, StopsAhead};

use crate::choices::{choose, join};
use crate::first_fault::first_fault;
use crate::scope::Scope;
use crate::tasks::{
    CallSite, Callee, ChoiceStatement, ElaborationContext, MessageStatement, RecStatement, Task,
};
use scrib_static_checks::block_effects::effect_at;
use scrib_static_checks::declared::{Declaration, looked_in};
use scrib_static_checks::effect::CallEffect;
use scrib_static_checks::size::continues_in;
use scrib_tree::tree::{ModuleTree, Statement};
use scrib_type_builder::build_error::{BuildError, Refused};
use scrib_type_builder::built_type::{BuiltType, Origin};
use scrib_types::global::GlobalType;
use scrib_types::name::{Dotted, Name};
use scrib_types::spot::Spot;
use std::alloc::{AllocError, Global};

// Puts one message to each of the receivers in turn in front of this type.
fn prefix_messages<'a>(
    alloc: Global,
    scope: &Scope<'a>,
    statement: MessageStatement<'a>,
    typed: BuiltType<'a>,
) -> Result<BuiltType<'a>, AllocError>
    ensures global { IfOk result (λ t. type_of t
        ≡ prefix_message statement.entry.message.now (role_in (scope_of scope.now) statement.entry.from.now)
        (map (role_in (scope_of scope.now)) statement.entry.to.now) (type_of typed.entry)) }
    ensures origins { IfOk result (λ t. t.origins.items
        ≡ add_no_origins (map (role_in (scope_of scope.now)) statement.entry.to.now) typed.entry.origins.items) }
{
    let MessageStatement { message, from, to } = statement;
    let sender = scope.role(from);
    let mut typed = typed;
    for i in (0..to.len()).rev() {
        let receiver = scope.role(&to[i]);
        typed = typed.prefix_message(alloc, message, sender, receiver)?;
    }
    Ok(typed)
}

// Begins a recursion, where the type of what follows it is `typed`.
fn begin_recursion<'a>(
    alloc: Global,
    tasks: &mut Vec<Task<'a>>,
    scope: Scope<'a>,
    statement: RecStatement<'a>,
    typed: BuiltType<'a>,
) -> Result<BuiltType<'a>, Refused>
    ensures { (modules : List ModuleTree) (target : Target)
        → IsTypedRest modules target (reverse tasks.old.items) (scope_of scope.entry) scope.entry.depth
        (Repeats statement.entry.name.now (body_of statement.entry.body.now) statement.entry.spot) (made_of typed.entry)
        → IfOk result (λ t. IsState modules target (reverse tasks.new.items) (made_of t)) }
{
    let RecStatement { name, body, spot } = statement;
    if continues_in(name, body) {
        let inside = scope.inside(alloc, name)?;
        let follows = deeper(alloc, scope.depth, typed)?;
        tasks.push(Task::Close(scope.within.home, spot))?;
        tasks.push(Task::Front(inside, body))?;
        return Ok(follows);
    }
    tasks.push(Task::Front(scope, body))?;
    Ok(typed)
}

// Returns the type under one more recursion, where `depth` are around it. If none is, the type has no free variable,
// and is unchanged.
fn deeper<'a>(alloc: Global, depth: u32, typed: BuiltType<'a>) -> Result<BuiltType<'a>, Refused>
    ensures global { (modules : List ModuleTree) (frames : Frames) → Types modules depth frames (type_of typed.entry)
        → IfOk result (λ t. type_of t ≡ shifted 0 (type_of typed.entry)) }
    ensures origins { IfOk result (λ t. t.origins.items ≡ typed.entry.origins.items) }
{
    if depth == 0 {
        return Ok(typed);
    }
    typed.shifted(alloc)
}

// Enters a called protocol, where what follows the call has this type. It does not enter one that leaves the type
// unchanged, or whose type is in the memo and that nothing follows.
fn call<'a>(
    context: &ElaborationContext<'a, '_>,
    tasks: &mut Vec<Task<'a>>,
    scope: &Scope<'a>,
    call: CallSite<'a>,
    typed: BuiltType<'a>,
) -> Result<BuiltType<'a>, Refused>
    requires { IsTable context.now }
    ensures { (target : Target) (e : Bool) (path : List (List ℕ)) (spot : Spot)
        → KeepsRules context.now.modules.now target.root e
        → called context.now.modules.now scope.now.within.home.now path
        ≡ Some (declaration_of call.entry.callee.declared)
        → slice_get (shown context.now.declared.now) call.entry.callee.place
        ≡ Some (declaration_of call.entry.callee.declared)
        → IsEffectOf context.now.modules.now (declaration_of call.entry.callee.declared) call.entry.callee.effect
        → IsTypedRest context.now.modules.now target (reverse tasks.old.items) (scope_of scope.now) scope.now.depth
        (Calls path call.entry.roles.now spot) (made_of typed.entry)
        → IfOk result (λ t. IsState context.now.modules.now target (reverse tasks.new.items) (made_of t)) }
{
    let CallSite { callee, roles } = call;
    let Callee {
        declared,
        effect,
        place,
    } = callee;
    let inside = scope.inside_call(context.alloc, declared, roles)?;
    if effect.passes(&inside.given, &typed.global) {
        return Ok(passed(context.declared, effect, typed));
    }
    if let Some(alone) = memoized_alone(context, place, &typed.global) {
        let copied = alone.renamed(
            context.alloc,
            declared.protocol.roles.as_slice(),
            &inside.given,
        )?;
        return Ok(copied);
    }
    tasks.push(Task::Front(inside, declared.protocol.body.as_slice()))?;
    Ok(typed)
}

// Returns the type of the protocol at this index of the table, if it is in the memo and nothing follows the call.
#[tactic(auto, using(scrib_types::specs::GlobalView::global_views))]
fn memoized_alone<'a, 'k>(
    context: &ElaborationContext<'a, 'k>,
    place: usize,
    follows: &GlobalType,
) -> Option<&'k BuiltType<'a>>
    ensures memo { IfSome result (λ t. slice_get context.now.memo.now place ≡ Some (Some t.now)) }
    ensures ends { IfSome result (λ _. global_of follows.now ≡ GlobalEnd) }
{
    if let GlobalType::End = follows {
        let alone = context.memo.get(place)?.as_ref()?;
        return Some(alone.get());
    }
    None
}

// Returns the type with a call in front that leaves it unchanged. If the called protocol joins, its first choice is the
// outermost origin of the communication in front.
fn passed<'a>(table: &[Declaration<'a>], effect: CallEffect, typed: BuiltType<'a>) -> BuiltType<'a>
    ensures { PassesOn table.now effect (made_of typed.entry) (made_of result) }
{
    if let CallEffect::Joining { at, spot, .. } = effect {
        // The first pass found the choice at this index.
        if let Some(first) = table.get(at) {
            let home = first.home;
            return typed.with_origin(Origin { home, spot });
        }
    }
    typed
}

// Returns the recursion whose body has this type.
fn close<'a>(
    alloc: Global,
    home: &'a ModuleTree,
    spot: Spot,
    typed: BuiltType<'a>,
) -> Result<BuiltType<'a>, BuildError<'a>>
    ensures { (modules : List ModuleTree) (target : Target) (tasks : List Task)
        → IsState modules target (Close home.entry spot ∷ tasks) (made_of typed.entry)
        → MatchResult result (λ t. IsState modules target tasks (made_of t)) (TypingFails modules target.root) }
{
    typed.close_recursion(alloc, home, spot)
}

// Puts a statement in front of what has this type, or pushes the tasks for that.
fn prepend<'a>(
    context: &ElaborationContext<'a, '_>,
    tasks: &mut Vec<Task<'a>>,
    scope: Scope<'a>,
    statement: &'a Statement,
    typed: BuiltType<'a>,
) -> Result<BuiltType<'a>, BuildError<'a>>
    requires { IsTable context.now }
    ensures { (target : Target) (e : Bool) → KeepsRules context.now.modules.now target.root e
        → IsTypedRest context.now.modules.now target (reverse tasks.old.items) (scope_of scope.entry) scope.entry.depth
        (statement_of statement.now) (made_of typed.entry)
        → MatchResult result (λ t. IsState context.now.modules.now target (reverse tasks.new.items) (made_of t))
        (StopsAhead context.now.modules.now target.root tasks.new.items) }
{
    match statement {
        Statement::Message {
            message,
            from,
            to,
            ..
        } => {
            let to = to.as_slice();
            let sent = MessageStatement { message, from, to };
            let longer = prefix_messages(context.alloc, &scope, sent, typed)?;
            Ok(longer)
        }
        Statement::Choice { at, branches, spot } => {
            let choice = ChoiceStatement {
                chooser: at,
                branches: branches.as_slice(),
                spot: *spot,
            };
            choose(context.alloc, tasks, scope, choice, typed)
        }
        Statement::Rec { name, body, spot } => {
            let recursion = RecStatement {
                name,
                body: body.as_slice(),
                spot: *spot,
            };
            let begun = begin_recursion(context.alloc, tasks, scope, recursion, typed)?;
            Ok(begun)
        }
        Statement::Continue { name, .. } => Ok(continued_variable(context.alloc, &scope, name)),
        Statement::Do {
            protocol,
            roles,
            ..
        } => {
            let Some(callee) = callee(context, scope.within.home, protocol) else {
                // Not reached: the first pass found it.
                return Ok(typed);
            };
            let called = CallSite {
                callee,
                roles: roles.as_slice(),
            };
            let entered = call(context, tasks, &scope, called, typed)?;
            Ok(entered)
        }
    }
}

// Returns the variable of the recursion of this name. The first pass found the recursion around the statement.
fn continued_variable<'a>(alloc: Global, scope: &Scope<'a>, name: &Name) -> BuiltType<'a>
    ensures { (level : ℕ) → level_of name.now (scope_of scope.now).recs ≡ Some level → level < scope.now.depth
        → IsVariable (scope_of scope.now) scope.now.depth name.now (made_of result) }
{
    let level = scope.level_of(name).unwrap_or(0);
    BuiltType::variable(alloc, scope.depth.saturating_sub(level.saturating_add(1)))
}

/// Returns the protocol that a call of this path names.
pub fn callee<'a>(
    context: &ElaborationContext<'a, '_>,
    at: &'a ModuleTree,
    path: &'a Dotted,
) -> Option<Callee<'a>>
    requires { IsTable context.now }
    ensures none { result ≡ None → called context.now.modules.now at.now path.now ≡ None }
    ensures place { IfSome result (λ c. slice_get (shown context.now.declared.now) c.place
        ≡ Some (declaration_of c.declared)) }
    ensures called { IfSome result (λ c. called context.now.modules.now at.now path.now
        ≡ Some (declaration_of c.declared)) }
    ensures effect { IfSome result (λ c. IsEffectOf context.now.modules.now (declaration_of c.declared) c.effect) }
{
    let names = path.as_slice();
    let last = names.len() - 1;
    let home = looked_in(at, &names[..last])?;
    let place = context
        .protocol_index
        .find(context.declared, home, &names[last])?;
    let declared = context.declared[place];
    let effect = effect_at(context.states, place);
    Some(Callee {
        place,
        declared,
        effect,
    })
}

// Puts the last of these statements in front, or ends the task if none is left.
fn front<'a>(
    context: &ElaborationContext<'a, '_>,
    tasks: &mut Vec<Task<'a>>,
    scope: Scope<'a>,
    statements: &'a [Statement],
    typed: BuiltType<'a>,
) -> Result<BuiltType<'a>, BuildError<'a>>
    requires { IsTable context.now }
    ensures { (target : Target) (e : Bool) → KeepsRules context.now.modules.now target.root e
        → IsState context.now.modules.now target (Front scope.entry statements.entry ∷ reverse tasks.old.items)
        (made_of typed.entry)
        → MatchResult result (λ t. IsState context.now.modules.now target (reverse tasks.new.items) (made_of t))
        (StopsAhead context.now.modules.now target.root tasks.new.items) }
{
    let (typed, statements) = messages(context.alloc, &scope, statements, typed)?;
    let Some((last, rest)) = statements.split_last() else {
        return Ok(typed);
    };
    let again = scope.copy(context.alloc)?;
    tasks.push(Task::Front(again, rest))?;
    prepend(context, tasks, scope, last, typed)
}

// Puts the messages at the end of these statements in front of what has this type, and returns the statements before
// them.
fn messages<'a>(
    alloc: Global,
    scope: &Scope<'a>,
    statements: &'a [Statement],
    typed: BuiltType<'a>,
) -> Result<(BuiltType<'a>, &'a [Statement]), AllocError>
    ensures { (modules : List ModuleTree) (target : Target) (e : Bool) (tasks : List Task)
        → KeepsRules modules target.root e
        → IsState modules target (Front scope.now statements.entry ∷ tasks) (made_of typed.entry)
        → IfOk result (λ r. IsState modules target (Front scope.now r.1 ∷ tasks) (made_of r.0)) }
{
    let mut typed = typed;
    let mut left = statements;
    while let Some((last, rest)) = left.split_last() {
        let Statement::Message {
            message,
            from,
            to,
            ..
        } = last
        else {
            return Ok((typed, left));
        };
        let to = to.as_slice();
        let sent = MessageStatement { message, from, to };
        typed = prefix_messages(alloc, scope, sent, typed)?;
        left = rest;
    }
    Ok((typed, left))
}

// Performs one task.
fn step<'a>(
    context: &ElaborationContext<'a, '_>,
    tasks: &mut Vec<Task<'a>>,
    task: Task<'a>,
    typed: BuiltType<'a>,
) -> Result<BuiltType<'a>, BuildError<'a>>
    requires { IsTable context.now }
    ensures { (target : Target) (e : Bool) → KeepsRules context.now.modules.now target.root e
        → IsState context.now.modules.now target (task.entry ∷ reverse tasks.old.items) (made_of typed.entry)
        → MatchResult result (λ t. IsState context.now.modules.now target (reverse tasks.new.items) (made_of t))
        (StopsAhead context.now.modules.now target.root tasks.new.items) }
{
    match task {
        Task::Front(scope, statements) => { front(context, tasks, scope, statements, typed) }
        Task::Join(choosing) => join(context.alloc, tasks, choosing, typed),
        Task::Close(home, spot) => close(context.alloc, home, spot, typed),
    }
}

/// Performs these tasks, the last one first, from the last statement on. It starts with the type of no statement, and
/// returns that of the tasks' statements. These are those of a protocol, or of a block in isolation.
///
/// # Errors
/// `Broken` with the first rule on types that is broken, from the last statement on, its module and its position. The
/// tasks that are left contain the statements in front of it. `OutOfMemory` where memory was refused.
pub fn perform_tasks<'a>(
    context: &ElaborationContext<'a, '_>,
    tasks: &mut Vec<Task<'a>>,
) -> Result<BuiltType<'a>, BuildError<'a>>
    requires { IsTable context.now }
    ensures { (target : Target) (e : Bool) → KeepsRules context.now.modules.now target.root e
        → IsState context.now.modules.now target (reverse tasks.old.items) nothing_made
        → MatchResult result (λ t. FramesMake context.now.modules.now target.depth target.frames (made_of t))
        (StopsAhead context.now.modules.now target.root tasks.new.items) }
{
    let mut typed = BuiltType::end(context.alloc);
    // Memory ends long before this many tasks.
    for _ in 0..u64::MAX {
        let Some(task) = tasks.pop() else {
            return Ok(typed);
        };
        typed = step(context, tasks, task, typed)?;
    }
    Err(BuildError::OutOfMemory)
}

/// Returns the type of the requested protocol, after the first pass. Types are built from the last statement on, and
/// the tasks that are left are on a stack. So nothing recurs where calls lead from one protocol to the next.
///
/// # Errors
/// `Broken` with the rule on types that is broken, its module and its position. Of several it is the first in the order
/// of the text. `OutOfMemory` where memory was refused.
pub fn type_of_root<'a>(
    context: &ElaborationContext<'a, '_>,
) -> Result<BuiltType<'a>, BuildError<'a>>
    requires table { IsTable context.now }
    requires kept { (e : Bool) × KeepsRules context.now.modules.now (declaration_of context.now.root) e }
    ensures ok { IfOk result (λ t. FramesMake context.now.modules.now 0 (start_of (declaration_of context.now.root))
        (made_of t)) }
    ensures fault { IfErr result (TypingFails context.now.modules.now (declaration_of context.now.root)) }
{
    let mut tasks = first_task(context.alloc, context.root)?;
    match perform_tasks(context, &mut tasks) {
        Ok(typed) => Ok(typed),
        Err(found) => Err(first_fault(context, tasks, found)),
    }
}

/// Returns the type of the requested protocol, after the first pass, or `None` where a rule on types is broken.
///
/// # Errors
/// `Refused` where memory was refused.
pub fn type_alone<'a>(
    context: &ElaborationContext<'a, '_>,
) -> Result<Option<BuiltType<'a>>, Refused>
    requires table { IsTable context.now }
    requires kept { (e : Bool) × KeepsRules context.now.modules.now (declaration_of context.now.root) e }
    ensures { IfOk result
        (λ o. IfSome o (λ t. FramesMake context.now.modules.now 0 (start_of (declaration_of context.now.root))
        (made_of t))) }
{
    let mut tasks = first_task(context.alloc, context.root)?;
    match perform_tasks(context, &mut tasks) {
        Ok(typed) => Ok(Some(typed)),
        Err(BuildError::Broken(..)) => Ok(None),
        Err(BuildError::OutOfMemory) => Err(Refused),
    }
}

// Returns the task of all statements of the requested protocol.
fn first_task<'a>(alloc: Global, root: Declaration<'a>) -> Result<Vec<Task<'a>>, AllocError>
    ensures { IfOk result (λ tasks. (modules : List ModuleTree)
        → IsState modules (whole_target (declaration_of root.entry)) (reverse tasks.items) nothing_made) }
{
    let scope = Scope::start(alloc, root)?;
    let statements = root.protocol.body.as_slice();
    let mut tasks = Vec::new(alloc);
    tasks.push(Task::Front(scope, statements))?;
    Ok(tasks)
}
