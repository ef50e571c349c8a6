//! Edges of machines, with numbers in place of actions.

ghost use Rattle.std.specs.Prelude.{◌≡◌, None, IfSome, Contains};
ghost use Rattle.scrib_record.specs.declared.numbered_edge.NumberedEdge.TheVariants as edges;

use scrib_machine::machine::State;

/// An edge of a machine: what it does with the exchange of a number, and the state to which it leads.
#[derive(Clone, Copy)]
pub enum NumberedEdge {
    /// A join, which no event of an exchange is.
    Joins,
    /// The send of the exchange's message.
    Sends(usize, State),
    /// The reception of the exchange's message.
    Receives(usize, State),
}

/// Returns the state to which the send of the exchange leads, or `None` if none of the edges is that send.
#[inline(always)]
pub fn after_send(row: &[NumberedEdge], exchange: usize) -> Option<State>
    ensures found { IfSome result (λ next. Contains row.now (edges.Sends exchange next)) }
    ensures absent { result ≡ None → (next : _) → Contains row.now (edges.Sends exchange next) → ⊥ }
{
    for edge in row {
        match edge {
            NumberedEdge::Sends(number, next) if *number == exchange => return Some(*next),
            _ => {}
        }
    }
    None
}

/// Returns the state to which the reception of the exchange leads, or `None` if none of the edges is that reception.
#[inline(always)]
pub fn after_reception(row: &[NumberedEdge], exchange: usize) -> Option<State>
    ensures found { IfSome result (λ next. Contains row.now (edges.Receives exchange next)) }
    ensures absent { result ≡ None → (next : _) → Contains row.now (edges.Receives exchange next) → ⊥ }
{
    for edge in row {
        match edge {
            NumberedEdge::Receives(number, next) if *number == exchange => return Some(*next),
            _ => {}
        }
    }
    None
}
