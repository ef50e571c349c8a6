//! Machines: states, each with its edges.

ghost use Rattle.std.specs.Prelude.{◌≡◌, ◌↔◌, ◌<◌, ℕ, IsTrue, Some, MatchOption, All, AllPairs, length, map, slice_get};
ghost use Rattle.scrib_types.specs.Judgement.{ComesBefore};
ghost use Rattle.scrib_types.specs.declared.event.Action.TheVariants.{Sends, Receives};
ghost use Rattle.scrib_machine.specs.Machines as machines;

use scrib_types::event::Action;
use scrib_types::name::Role;
use scrib_types::one_or_many::OneOrMany;
use scrib_types::shared_message::SharedMessage;
use std::marker::Model;

/// The number of a state, from 0.
pub type State = u32;

/// A transition: an action that a state can make, and the state to which it leads.
#[derive(Drop)]
pub struct Edge {
    pub action: Action,
    pub next: State,
}

/// A labelled transition system (Keller, Communications of the ACM, 1976) that starts in state 0.
/// Contracts see the row of edges of each state, in the order of the states.
#[derive(Drop)]
pub struct Machine {
    rows: Vec<OneOrMany<Edge>>,
}

impl Model for Machine {
    ghost use Rattle.std.specs.Prelude.{List};
    ghost use Rattle.scrib_machine.specs.declared.machine.Edge.{Edge};
    ghost use Rattle.scrib_machine.specs.Machines.{IsMachine};

    ghost Value = { List (List Edge) };

    ghost view = { λ m. m.rows.items };

    ghost invariant = { λ m. IsMachine m.rows.items };
}

impl Machine {
    /// The machine whose states have these rows of edges.
    pub(crate) fn from_rows(rows: Vec<OneOrMany<Edge>>) -> Machine
        requires { machines.IsMachine rows.items }
        ensures { result ≡ rows.items }
    {
        Machine { rows }
    }

    /// The row of edges of each state.
    pub fn rows(&self) -> &[OneOrMany<Edge>]
        ensures { result.now ≡ self.now }
    {
        self.rows.as_slice()
    }

    /// The state in which it starts.
    pub fn start(&self) -> State
        ensures first { result ≡ 0 }
        ensures within { result < length self.now }
        ensures machine { machines.IsMachine self.now }
    {
        // Reading the rows gives the proof the machine's invariant.
        let _rows = &self.rows;
        0
    }

    /// How many states it has.
    pub fn states(&self) -> usize
        ensures { result ≡ length self.now }
    {
        self.rows.len()
    }

    /// The edges of the state, sorted by the printed text of their actions, no action twice.
    pub fn edges(&self, state: State) -> &[Edge]
        requires { state < length self.now }
        ensures here { slice_get self.now state ≡ Some result.now }
        ensures sorted { AllPairs ComesBefore (map (λ e. e.action) result.now) }
        ensures within { All (λ e. e.next < length self.now) result.now }
    {
        self.rows[state as usize].as_slice()
    }

    /// The state to which the action leads, or `None` where the state can't make it. It takes no memory.
    pub fn step(&self, state: State, action: &Action) -> Option<State>
        requires { state < length self.now }
        ensures steps { (n : ℕ) → (result ≡ Some n) ↔ machines.Steps self.now state action.now n }
        ensures within { MatchOption result (Unit {0}) (λ next. next < length self.now) }
    {
        for edge in self.edges(state) {
            if is_same(action, &edge.action) {
                return Some(edge.next);
            }
        }
        None
    }

    /// The state to which a send of the message to the role leads, or `None` where the state can't make
    /// it. It takes no memory.
    pub fn step_send(&self, state: State, to: &Role, message: &SharedMessage) -> Option<State>
        requires { state < length self.now }
        ensures steps { (n : ℕ) → (result ≡ Some n) ↔ machines.Steps self.now state (Sends to.now message.now) n }
        ensures within { MatchOption result (Unit {0}) (λ next. next < length self.now) }
    {
        for edge in self.edges(state) {
            if is_send(&edge.action, to, message) {
                return Some(edge.next);
            }
        }
        None
    }

    /// The state to which a reception of the message from the role leads, or `None` where the state can't
    /// make it. It takes no memory.
    pub fn step_receive(&self, state: State, from: &Role, message: &SharedMessage) -> Option<State>
        requires { state < length self.now }
        ensures steps { (n : ℕ) → (result ≡ Some n) ↔ machines.Steps self.now state (Receives from.now message.now) n }
        ensures within { MatchOption result (Unit {0}) (λ next. next < length self.now) }
    {
        for edge in self.edges(state) {
            if is_reception(&edge.action, from, message) {
                return Some(edge.next);
            }
        }
        None
    }
}

// Whether the two actions are the same. Messages come first, since those of a state's edges differ.
fn is_same(a: &Action, b: &Action) -> bool
    ensures { IsTrue result ↔ (a.now ≡ b.now) }
{
    match (a, b) {
        (Action::Join, Action::Join) => true,
        (Action::Sends { to, message }, edge) => is_send(edge, to, message),
        (Action::Receives { from, message }, edge) => is_reception(edge, from, message),
        _ => false,
    }
}

// Whether the action is a send of the message to the role.
fn is_send(action: &Action, to: &Role, message: &SharedMessage) -> bool
    ensures { IsTrue result ↔ (Sends to.now message.now ≡ action.now) }
{
    match action {
        Action::Sends {
            to: receiver,
            message: sent,
        } => message.equal(sent) && to.equal(receiver),
        _ => false,
    }
}

// Whether the action is a reception of the message from the role.
fn is_reception(action: &Action, from: &Role, message: &SharedMessage) -> bool
    ensures { IsTrue result ↔ (Receives from.now message.now ≡ action.now) }
{
    match action {
        Action::Receives {
            from: sender,
            message: received,
        } => message.equal(received) && from.equal(sender),
        _ => false,
    }
}
