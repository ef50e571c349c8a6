//! The types of choices.

ghost use Rattle.std.specs.Prelude.{◌≡◌, List, ◌∷◌, length, Option, IfOk, MatchOption, MatchResult, reverse};
ghost use Rattle.scrib_type_builder.specs.declared.built_type.BuiltType.{BuiltType};
ghost use Rattle.scrib_elaborate.specs.declared.tasks.Task.{Task};
ghost use Rattle.scrib_elaborate.specs.declared.tasks.Task.TheVariants.{Front, Join};
ghost use Rattle.scrib_tree.specs.declared.tree.ModuleTree.{ModuleTree};
ghost use Rattle.scrib_static_checks.specs.Source.{Chooses};
ghost use Rattle.scrib_static_checks.specs.SourceView.{blocks_of};
ghost use Rattle.scrib_elaborate.specs.declared.scope.Scope.{Scope};
ghost use Rattle.scrib_elaborate.specs.Scope.{scope_of, IsSameScope};
ghost use Rattle.scrib_elaborate.specs.Typing.{Target, Made, made_of, IsTypedRest, IsState, TypingFails, StopsAhead, IsChoosing};

use crate::scope::Scope;
use crate::tasks::{ChoiceStatement, Choosing, Task};
use scrib_static_checks::fault::FaultKind;
use scrib_tree::tree::{ModuleTree, Statement};
use scrib_type_builder::build_error::{BuildError, broken};
use scrib_type_builder::built_type::{BuiltType, Origin};
use scrib_type_builder::choice_branches::{ChoiceBranches, add_branch};
use scrib_type_builder::operators::Operators;
use scrib_types::containers::{Items, at};
use scrib_types::global::GlobalType;
use std::alloc::{AllocError, Global};

/// Begins a choice, where the type of what follows it is `follows`, at its first block.
///
/// # Errors
/// `Broken` with `EmptyBranch` where it has no block. `OutOfMemory` where memory was refused.
pub fn choose<'a>(
    alloc: Global,
    tasks: &mut Vec<Task<'a>>,
    scope: Scope<'a>,
    choice: ChoiceStatement<'a>,
    typed: BuiltType<'a>,
) -> Result<BuiltType<'a>, BuildError<'a>>
    ensures { (modules : List ModuleTree) (target : Target)
        → IsTypedRest modules target (reverse tasks.old.items) (scope_of scope.entry) scope.entry.depth
        (Chooses choice.entry.chooser.now (blocks_of choice.entry.branches.now) choice.entry.spot) (made_of typed.entry)
        → MatchResult result (λ t. IsState modules target (reverse tasks.new.items) (made_of t))
        (StopsAhead modules target.root tasks.new.items) }
{
    let ChoiceStatement {
        chooser,
        branches,
        spot,
    } = choice;
    let Some(first) = branches.first() else {
        return Err(broken(scope.within.home, FaultKind::EmptyBranch, spot));
    };
    let (begun, follows) = share(alloc, typed, branches.len() - 1)?;
    let choosing = Choosing {
        scope,
        chooser,
        branches,
        spot,
        follows,
        types: Vec::new(alloc),
    };
    enter(alloc, tasks, choosing, first.body.as_slice())?;
    Ok(begun)
}

/// Adds the type of the choice's next block. After the last block it builds the type of the choice.
///
/// # Errors
/// `Broken` where a block's type does not fit the choice. `OutOfMemory` where memory was refused.
pub fn join<'a>(
    alloc: Global,
    tasks: &mut Vec<Task<'a>>,
    choosing: Choosing<'a>,
    typed: BuiltType<'a>,
) -> Result<BuiltType<'a>, BuildError<'a>>
    ensures { (modules : List ModuleTree) (target : Target)
        → IsState modules target (Join choosing.entry ∷ reverse tasks.old.items) (made_of typed.entry)
        → MatchResult result (λ t. IsState modules target (reverse tasks.new.items) (made_of t))
        (StopsAhead modules target.root tasks.new.items) }
{
    let Choosing {
        scope,
        chooser,
        branches,
        spot,
        follows,
        mut types,
    } = choosing;
    types.push(typed)?;
    let next = at(branches, types.len());
    let Some((next, follows)) = next.zip(follows) else {
        let choice = ChoiceStatement {
            chooser,
            branches,
            spot,
        };
        return joined(alloc, &scope, choice, types);
    };
    let left = branches.len() - types.len() - 1;
    let (begun, follows) = share(alloc, follows, left)?;
    let choosing = Choosing {
        scope,
        chooser,
        branches,
        spot,
        follows,
        types,
    };
    enter(alloc, tasks, choosing, next.body.as_slice())?;
    Ok(begun)
}

// Pushes the statements of the choice's next block, to be built before the choice goes on.
fn enter<'a>(
    alloc: Global,
    tasks: &mut Vec<Task<'a>>,
    choosing: Choosing<'a>,
    body: &'a [Statement],
) -> Result<(), AllocError>
    ensures { (modules : List ModuleTree) (target : Target) (g : Made)
        → ((inner : Scope) → IsSameScope choosing.entry.scope inner
        → IsState modules target (Front inner body.entry ∷ Join choosing.entry ∷ reverse tasks.old.items) g)
        → IfOk result (λ _. IsState modules target (reverse tasks.new.items) g) }
{
    let inner = choosing.scope.copy(alloc)?;
    tasks.push(Task::Join(choosing))?;
    tasks.push(Task::Front(inner, body))?;
    Ok(())
}

// Returns the type of what follows a choice, for the next block, and a copy of it if blocks are left after that one.
fn share<'a>(
    alloc: Global,
    follows: BuiltType<'a>,
    left: usize,
) -> Result<(BuiltType<'a>, Option<BuiltType<'a>>), AllocError>
    ensures next { IfOk result (λ t. made_of t.0 ≡ made_of follows.entry) }
    ensures others { IfOk result (λ t. MatchOption t.1 (left ≡ 0) (λ u. made_of u ≡ made_of follows.entry)) }
{
    if left == 0 {
        return Ok((follows, None));
    }
    let again = follows.copy(alloc)?;
    Ok((again, Some(follows)))
}

// Returns the type of the choice whose blocks have these types.
fn joined<'a>(
    alloc: Global,
    scope: &Scope<'a>,
    choice: ChoiceStatement<'a>,
    types: Vec<BuiltType<'a>>,
) -> Result<BuiltType<'a>, BuildError<'a>>
    ensures { (modules : List ModuleTree) (target : Target) (tasks : List Task) (follows : Option BuiltType)
        → IsChoosing modules target tasks (scope_of scope.now) scope.now.depth choice.entry.chooser.now
        choice.entry.branches.now choice.entry.spot follows
        types.entry.items
        → length types.entry.items ≡ length choice.entry.branches.now
        → MatchResult result (λ t. IsState modules target tasks (made_of t)) (TypingFails modules target.root) }
{
    let home = scope.within.home;
    let chooser = scope.role(choice.chooser);
    let operators = Operators::new(alloc, count_others(types.as_slice()))?;
    let mut so_far = ChoiceBranches {
        receiver: None,
        branches: Items::new(alloc),
        operators,
        origins: Vec::new(alloc),
    };
    for (block, typed) in choice.branches.iter().zip(types) {
        add_branch(home, chooser, block.spot, &mut so_far, typed)?;
    }
    let ChoiceBranches {
        receiver,
        branches,
        mut origins,
        ..
    } = so_far;
    let Some(to) = receiver else {
        return Err(broken(home, FaultKind::EmptyBranch, choice.spot));
    };
    let several = branches.len() > 1;
    origins.push(if several {
        Some(Origin {
            home,
            spot: choice.spot,
        })
    } else {
        None
    })?;
    let from = chooser.copy()?;
    let global = GlobalType::Comm { from, to, branches };
    Ok(BuiltType { global, origins })
}

// Returns the number of branches of the communications that these types begin with, without those of the widest one.
fn count_others(types: &[BuiltType]) -> usize {
    let mut count: usize = 0;
    let mut most: usize = 0;
    for typed in types {
        if let GlobalType::Comm { branches, .. } = &typed.global {
            count = count.saturating_add(branches.len());
            most = most.max(branches.len());
        }
    }
    count.saturating_sub(most)
}
