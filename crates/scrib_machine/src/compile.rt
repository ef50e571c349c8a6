//! The compilation of local types.

ghost use Rattle.std.specs.Prelude.{◌≡◌, ◌+◌, ◌≤◌, IfOk, OnOk, AllPairs, length, reverse};
ghost use Rattle.std.specs.List.Sorted.{IsPermutation};
ghost use Rattle.scrib_types.specs.Judgement.{ComesBefore};
ghost use Rattle.scrib_types.specs.LocalView.{local_of, local_branches};
ghost use Rattle.scrib_types.specs.Trees.{Send, Recv};
ghost use Rattle.scrib_types.specs.declared.event.Action.TheVariants.{Sends, Receives};
ghost use Rattle.scrib_machine.specs.Machines.{IsMachine, IsSystemOf, HasTracesOf};
ghost use Rattle.scrib_machine.specs.Compilable.{IsCompilable, Closed, ClosedAll, Differ, Distinct, DistinctAll, nodes, nodes_all, max_nodes};
ghost use Rattle.scrib_machine.specs.Layout as layout;

use crate::machine::{Edge, Machine, State};
use crate::sorted::sorted;
use scrib_types::event::Action;
use scrib_types::local::Local;
use scrib_types::name::Role;
use scrib_types::one_or_many::OneOrMany;
use scrib_types::shared_message::SharedMessage;
use smallvec::SmallVec;
use std::alloc::{AllocError, Global};

// The number of a choice's branches whose first states are kept on the stack. Few choices have more.
const FEW: usize = 4;

/// The machine of the local type. Its paths from the start are the type's traces. A state is an end or a choice of
/// the type, and a variable leads to the state in which its recursion begins.
///
/// # Errors
/// `AllocError` where memory for the machine is refused.
pub fn compile(alloc: Global, local: &Local) -> Result<Machine, AllocError>
    requires { IsCompilable (local_of local.now) }
    ensures machine { IfOk result IsMachine }
    ensures system { IfOk result (IsSystemOf (local_of local.now)) }
    ensures follows { IfOk result (HasTracesOf (local_of local.now)) }
{
    let mut rows = Vec::new(alloc);
    let mut outer = Vec::new(alloc);
    lay(alloc, local, &mut rows, &mut outer)?;
    Ok(Machine::from_rows(rows))
}

// Adds the states of the local type after those of the rows, and returns the one in which it begins.
// The enclosing recursions begin in the outer states, the innermost last.
#[cycle(lay)]
#[tactic(auto, using(scrib_types::specs::LocalView::local_views))]
fn lay(
    alloc: Global,
    local: &Local,
    rows: &mut Vec<OneOrMany<Edge>>,
    outer: &mut Vec<State>,
) -> Result<State, AllocError>
    requires room { length rows.old.items + nodes (local_of local.now) ≤ max_nodes }
    requires closed { Closed (local_of local.now) (length outer.old.items) }
    requires distinct { Distinct (local_of local.now) }
    ensures placed { IfOk result
        (layout.Placed rows.old.items rows.new.items (reverse outer.old.items) (local_of local.now)) }
    ensures outer { OnOk result (outer.new.items ≡ outer.old.items) }
{
    match local {
        Local::End => {
            let at = rows.len();
            rows.push(OneOrMany::none(alloc))?;
            Ok(at as State)
        }
        Local::Var(i) => Ok(outer[outer.len() - 1 - *i as usize]),
        Local::Rec(body) => {
            outer.push(rows.len() as State)?;
            let root = lay(alloc, body.get(), rows, outer)?;
            let _ = outer.pop();
            Ok(root)
        }
        Local::Send { to, branches } => lay_sends(alloc, to, branches.as_slice(), rows, outer),
        Local::Recv { from, branches } => {
            lay_receptions(alloc, from, branches.as_slice(), rows, outer)
        }
    }
}

// Adds the states of a choice of sends.
#[cycle(lay)]
fn lay_sends(
    alloc: Global,
    to: &Role,
    branches: &[(SharedMessage, Local)],
    rows: &mut Vec<OneOrMany<Edge>>,
    outer: &mut Vec<State>,
) -> Result<State, AllocError>
    requires room { length rows.old.items + nodes (Send to.now (local_branches branches.now)) ≤ max_nodes }
    requires closed { Closed (Send to.now (local_branches branches.now)) (length outer.old.items) }
    requires distinct { Distinct (Send to.now (local_branches branches.now)) }
    ensures placed { IfOk result (layout.Placed rows.old.items rows.new.items (reverse outer.old.items)
        (Send to.now (local_branches branches.now))) }
    ensures outer { OnOk result (outer.new.items ≡ outer.old.items) }
{
    let at = rows.len();
    rows.push(OneOrMany::none(alloc))?;
    let nexts = lay_all(alloc, branches, rows, outer)?;
    rows[at] = sends(alloc, to, branches, nexts.as_slice())?;
    Ok(at as State)
}

// Adds the states of a choice of receptions.
#[cycle(lay)]
fn lay_receptions(
    alloc: Global,
    from: &Role,
    branches: &[(SharedMessage, Local)],
    rows: &mut Vec<OneOrMany<Edge>>,
    outer: &mut Vec<State>,
) -> Result<State, AllocError>
    requires room { length rows.old.items + nodes (Recv from.now (local_branches branches.now)) ≤ max_nodes }
    requires closed { Closed (Recv from.now (local_branches branches.now)) (length outer.old.items) }
    requires distinct { Distinct (Recv from.now (local_branches branches.now)) }
    ensures placed { IfOk result (layout.Placed rows.old.items rows.new.items (reverse outer.old.items)
        (Recv from.now (local_branches branches.now))) }
    ensures outer { OnOk result (outer.new.items ≡ outer.old.items) }
{
    let at = rows.len();
    rows.push(OneOrMany::none(alloc))?;
    let nexts = lay_all(alloc, branches, rows, outer)?;
    rows[at] = receptions(alloc, from, branches, nexts.as_slice())?;
    Ok(at as State)
}

// Adds the states of the branches, one after another, and returns those in which they begin.
#[cycle(lay)]
fn lay_all(
    alloc: Global,
    branches: &[(SharedMessage, Local)],
    rows: &mut Vec<OneOrMany<Edge>>,
    outer: &mut Vec<State>,
) -> Result<SmallVec<State, FEW>, AllocError>
    requires room { length rows.old.items + nodes_all (local_branches branches.now) ≤ max_nodes }
    requires closed { ClosedAll (local_branches branches.now) (length outer.old.items) }
    requires distinct { DistinctAll (local_branches branches.now) }
    ensures placed { IfOk result (λ nexts. layout.PlacedAll rows.old.items rows.new.items (reverse outer.old.items)
        (local_branches branches.now) nexts.items) }
    ensures outer { OnOk result (outer.new.items ≡ outer.old.items) }
{
    let mut nexts = SmallVec::new(alloc);
    for (_, local) in branches {
        let next = lay(alloc, local, rows, outer)?;
        nexts.push(next)?;
    }
    Ok(nexts)
}

// The sorted row of a choice of sends: each branch's message leads to the state in which the branch begins.
fn sends(
    alloc: Global,
    to: &Role,
    branches: &[(SharedMessage, Local)],
    nexts: &[State],
) -> Result<OneOrMany<Edge>, AllocError>
    requires each { length nexts.now ≡ length branches.now }
    requires differ { Differ (local_branches branches.now) }
    ensures same { IfOk result
        (λ row. IsPermutation (layout.edges_of (Sends to.now) (local_branches branches.now) nexts.now) row) }
    ensures sorted { IfOk result (λ row. AllPairs ComesBefore (layout.actions_of row)) }
{
    if branches.len() == 1 {
        let edge = send_edge(to, &branches[0].0, nexts[0])?;
        return Ok(OneOrMany::one(edge));
    }
    let edges = send_edges(alloc, to, branches, nexts)?;
    let edges = sorted(alloc, edges)?;
    Ok(OneOrMany::from_vec(edges))
}

// The sorted row of a choice of receptions: each branch's message leads to the state in which the branch begins.
fn receptions(
    alloc: Global,
    from: &Role,
    branches: &[(SharedMessage, Local)],
    nexts: &[State],
) -> Result<OneOrMany<Edge>, AllocError>
    requires each { length nexts.now ≡ length branches.now }
    requires differ { Differ (local_branches branches.now) }
    ensures same { IfOk result
        (λ row. IsPermutation (layout.edges_of (Receives from.now) (local_branches branches.now) nexts.now) row) }
    ensures sorted { IfOk result (λ row. AllPairs ComesBefore (layout.actions_of row)) }
{
    if branches.len() == 1 {
        let edge = reception_edge(from, &branches[0].0, nexts[0])?;
        return Ok(OneOrMany::one(edge));
    }
    let edges = reception_edges(alloc, from, branches, nexts)?;
    let edges = sorted(alloc, edges)?;
    Ok(OneOrMany::from_vec(edges))
}

// A send of each branch's message, in the order of the branches.
fn send_edges(
    alloc: Global,
    to: &Role,
    branches: &[(SharedMessage, Local)],
    nexts: &[State],
) -> Result<Vec<Edge>, AllocError>
    requires { length nexts.now ≡ length branches.now }
    ensures { IfOk result (λ edges. edges.items
        ≡ layout.edges_of (Sends to.now) (local_branches branches.now) nexts.now) }
{
    let mut edges = Vec::with_capacity(alloc, branches.len())?;
    for i in 0..branches.len() {
        let edge = send_edge(to, &branches[i].0, nexts[i])?;
        edges.push(edge)?;
    }
    Ok(edges)
}

// A reception of each branch's message, in the order of the branches.
fn reception_edges(
    alloc: Global,
    from: &Role,
    branches: &[(SharedMessage, Local)],
    nexts: &[State],
) -> Result<Vec<Edge>, AllocError>
    requires { length nexts.now ≡ length branches.now }
    ensures { IfOk result (λ edges. edges.items
        ≡ layout.edges_of (Receives from.now) (local_branches branches.now) nexts.now) }
{
    let mut edges = Vec::with_capacity(alloc, branches.len())?;
    for i in 0..branches.len() {
        let edge = reception_edge(from, &branches[i].0, nexts[i])?;
        edges.push(edge)?;
    }
    Ok(edges)
}

// A send of the message to the role, that leads to the state.
fn send_edge(to: &Role, message: &SharedMessage, next: State) -> Result<Edge, AllocError>
    ensures { IfOk result (λ edge. edge ≡ layout.edge_of (Sends to.now message.now) next) }
{
    let to = to.copy()?;
    let message = message.copy()?;
    let action = Action::Sends { to, message };
    Ok(Edge { action, next })
}

// A reception of the message from the role, that leads to the state.
fn reception_edge(from: &Role, message: &SharedMessage, next: State) -> Result<Edge, AllocError>
    ensures { IfOk result (λ edge. edge ≡ layout.edge_of (Receives from.now message.now) next) }
{
    let from = from.copy()?;
    let message = message.copy()?;
    let action = Action::Receives { from, message };
    Ok(Edge { action, next })
}
