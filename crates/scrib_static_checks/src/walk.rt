//! The walk over a protocol and all that it calls, which checks their statements: the first pass.

ghost use Rattle.std.specs.Prelude.{◌≡◌, ◌<◌, List, length, IfOk, IfErr, OnOk, MatchResult};
ghost use Rattle.std.specs.List.{All};
ghost use Rattle.scrib_static_checks.specs.ProtocolIndex.{IsProtocolIndex};
ghost use Rattle.scrib_static_checks.specs.Names.{declarations};
ghost use Rattle.scrib_static_checks.specs.Table.{shown, HasCheckedNames};
ghost use Rattle.scrib_static_checks.specs.Walking.{AreUnwalked, IsEntered, EnterFails, IsFaultIn, IsReady, TopKeeps, TopStops, WasWalked, IsIdle, IsSmall, WalkFails};
ghost use Rattle.scrib_tree.specs.declared.tree.ModuleTree.{ModuleTree};

use crate::block_effects::block_effect;
use crate::checking::{BrokenRule, CheckContext, CheckError, State, Summary, SymbolTable};
use crate::declared::Declaration;
use crate::fault::{ElaborateFault, Fault, FaultKind};
use crate::own_names::check_own_names;
use crate::size::size_block;
use crate::statements::check_block;
use scrib_tree::tree::ModuleTree;
use std::alloc::{AllocError, Global};

/// Walks over the protocol at this index of the table and over each that it calls. `states` keeps the results of
/// earlier walks, and is extended by those of this one. After a fault it contains none. The indices of the walked
/// protocols are added to `walked`, each after those that it calls.
///
/// # Errors
/// `Broken` with the first rule that is broken, the module's name and the position. `OutOfMemory` where memory was
/// refused.
pub fn walk(
    alloc: Global,
    table: &SymbolTable,
    root: usize,
    states: &mut Vec<State>,
    walked: &mut Vec<usize>,
) -> Result<(), ElaborateFault>
    requires all { shown table.now.declared.now ≡ declarations table.now.modules.now }
    requires indexed { IsProtocolIndex (shown table.now.declared.now) table.now.protocol_index.now.slots.items }
    requires names_checked { All HasCheckedNames table.now.declared.now }
    requires there { root < length table.now.declared.now }
    requires idle { IsIdle table.now.modules.now (shown table.now.declared.now) states.old.items }
    ensures ok { OnOk result (WasWalked table.now.modules.now (shown table.now.declared.now) states.new.items root) }
    ensures idle { IsIdle table.now.modules.now (shown table.now.declared.now) states.new.items }
    ensures fault { IfErr result (WalkFails table.now.modules.now (shown table.now.declared.now) root) }
{
    match walk_from(alloc, table, root, states, walked) {
        Ok(()) => Ok(()),
        Err(fault) => {
            reset(states);
            Err(fault)
        }
    }
}

// `stack` contains the protocols that the walk has entered and not left. Where a protocol calls one that was not
// walked, the walk enters that one. Then it checks the first again from its beginning. So a protocol is checked once
// more for each other that is first entered from it.
fn walk_from(
    alloc: Global,
    table: &SymbolTable,
    root: usize,
    states: &mut Vec<State>,
    walked: &mut Vec<usize>,
) -> Result<(), ElaborateFault>
    requires all { shown table.now.declared.now ≡ declarations table.now.modules.now }
    requires indexed { IsProtocolIndex (shown table.now.declared.now) table.now.protocol_index.now.slots.items }
    requires names_checked { All HasCheckedNames table.now.declared.now }
    requires there { root < length table.now.declared.now }
    requires idle { IsIdle table.now.modules.now (shown table.now.declared.now) states.old.items }
    ensures ok { OnOk result (WasWalked table.now.modules.now (shown table.now.declared.now) states.new.items root) }
    ensures idle { OnOk result (IsIdle table.now.modules.now (shown table.now.declared.now) states.new.items) }
    ensures long { length states.new.items ≡ length table.now.declared.now }
    ensures fault { IfErr result (WalkFails table.now.modules.now (shown table.now.declared.now) root) }
{
    let SymbolTable {
        modules,
        declared,
        protocol_index,
    } = *table;
    let mut stack = Vec::new(alloc);
    let first = declared[root];
    enter(alloc, first, root, states, &mut stack)?;
    while let Some(top) = stack.pop() {
        let table = SymbolTable {
            modules: &*modules,
            declared: &*declared,
            protocol_index: &*protocol_index,
        };
        match check(alloc, &table, &*states, top) {
            Ok(summary) => {
                walked.push(top)?;
                states[top] = State::Walked(summary);
            }
            Err(CheckError::Call(to)) => {
                let next = declared[to];
                stack.push(top)?;
                enter(alloc, next, to, states, &mut stack)?;
            }
            Err(CheckError::Broken(rule)) => {
                let at = declared[top];
                return Err(fault_in(alloc, at.home, rule));
            }
            Err(CheckError::OutOfMemory) => return Err(ElaborateFault::OutOfMemory),
        }
    }
    Ok(())
}

// Resets all states to `Unwalked`.
fn reset(states: &mut [State])
    ensures { AreUnwalked (length states.old) states.new }
{
    for state in states.iter_mut() {
        *state = State::Unwalked;
    }
}

/// Returns the number of nodes of the type of the protocol at this index, after a walk over it. It is at most 65,536,
/// with at most 4,096 nodes on a path.
///
/// # Errors
/// `Broken` with `TooLarge` and the position of the protocol. `OutOfMemory` where memory was refused.
pub fn check_size(
    alloc: Global,
    declared: &[Declaration],
    states: &[State],
    root: usize,
) -> Result<usize, ElaborateFault>
    requires there { root < length declared.now }
    requires stated { root < length states.now }
    ensures ok { (modules : List ModuleTree) → WasWalked modules (shown declared.now) states.now root
        → IfOk result (IsSmall modules (shown declared.now) root) }
    ensures fault { (modules : List ModuleTree) → WasWalked modules (shown declared.now) states.now root
        → IfErr result (WalkFails modules (shown declared.now) root) }
{
    match states[root] {
        State::Walked(summary) => {
            if summary.size.fits() {
                return Ok(summary.size.nodes.base + 1);
            }
            let at = declared[root];
            let rule = BrokenRule {
                kind: FaultKind::TooLarge,
                spot: at.protocol.spot,
            };
            Err(fault_in(alloc, at.home, rule))
        }
        // A walk leaves no other state here.
        State::Walking => Ok(0),
        State::Unwalked => Ok(0),
    }
}

// Checks the statements of the protocol at this index, and computes its size and its effect.
fn check<'a>(
    alloc: Global,
    table: &SymbolTable<'a, 'a>,
    states: &'a [State],
    top: usize,
) -> Result<Summary, CheckError>
    requires ready { IsReady table.now.modules.now table.now.declared.now states.now top }
    requires indexed { IsProtocolIndex (shown table.now.declared.now) table.now.protocol_index.now.slots.items }
    requires there { top < length table.now.declared.now }
    ensures { MatchResult result
        (TopKeeps table.now.modules.now (shown table.now.declared.now) top)
        (TopStops table.now.modules.now (shown table.now.declared.now) states.now top) }
{
    let SymbolTable {
        modules,
        declared,
        protocol_index,
    } = *table;
    let at = declared[top];
    let context = CheckContext {
        modules,
        declared,
        protocol_index,
        states,
        at,
    };
    let exits = check_block(alloc, &context, &[], at.protocol.body.as_slice())?;
    let size = size_block(&context, at.protocol.body.as_slice())?;
    let effect = block_effect(&context, top, at.protocol.body.as_slice())?;
    Ok(Summary {
        exits,
        size,
        effect,
    })
}

// Checks the names of a protocol and enters it.
fn enter(
    alloc: Global,
    declared: Declaration,
    to: usize,
    states: &mut Vec<State>,
    stack: &mut Vec<usize>,
) -> Result<(), ElaborateFault>
    requires within { to < length states.old.items }
    requires names_checked { HasCheckedNames declared }
    ensures long { length states.new.items ≡ length states.old.items }
    ensures ok { OnOk result (IsEntered declared.entry.home.now declared.entry.protocol.now to states.old.items
        states.new.items stack.old.items stack.new.items) }
    ensures fault { IfErr result (EnterFails declared.entry.home.now declared.entry.protocol.now) }
{
    let Declaration {
        home,
        protocol,
        names_checked,
    } = declared;
    if let Err(rule) = check_own_names(home, protocol, names_checked) {
        return Err(fault_in(alloc, home, rule));
    }
    stack.push(to)?;
    states[to] = State::Walking;
    Ok(())
}

/// Returns the broken rule as a fault of this module, or `OutOfMemory` where memory for a copy of its name was refused.
pub fn fault_in(alloc: Global, home: &ModuleTree, rule: BrokenRule) -> ElaborateFault
    ensures { IsFaultIn home.now rule result }
{
    match home.name.copy() {
        Ok(module) => ElaborateFault::Broken(Fault {
            kind: rule.kind,
            module,
            spot: rule.spot,
        }),
        Err(error) => ElaborateFault::from(error),
    }
}

/// Returns `count` states, all `Unwalked`.
///
/// # Errors
/// `AllocError` where memory was refused.
pub fn unwalked(alloc: Global, count: usize) -> Result<Vec<State>, AllocError>
    ensures { IfOk result (λ states. AreUnwalked count states.items) }
{
    let mut states = Vec::with_capacity(alloc, count)?;
    for _ in 0..count {
        states.push_reserved(State::Unwalked);
    }
    Ok(states)
}
