//! Messages: an operator, or none, and the types of the payload.

ghost use Rattle.std.specs.Prelude.{◌≡◌, ◌↔◌, IsTrue};
ghost use Rattle.scrib_types.specs.Same.{same_operator};

use crate::name::{Dotted, Name};
use std::marker::Model;

/// The names of the types that a message carries, in order. Contracts see the list.
#[derive(Drop)]
pub struct Payload {
    sorts: Vec<Dotted>,
}

impl Model for Payload {
    ghost use Rattle.std.specs.Prelude.{ℕ, List};

    ghost Value = { List (List (List ℕ)) };

    ghost view = { λ p. p.sorts.items };
}

impl Payload {
    /// A payload of these types.
    pub fn from_vec(sorts: Vec<Dotted>) -> Payload
        ensures { result ≡ sorts.items }
    {
        Self { sorts }
    }

    /// The types, in order.
    pub fn as_slice(&self) -> &[Dotted]
        ensures { result.now ≡ self.now }
    {
        self.sorts.as_slice()
    }

    /// Whether the two are the same.
    pub fn equal(&self, other: &Payload) -> bool
        ensures { IsTrue result ↔ (self.now ≡ other.now) }
    {
        sorts_equal(&self.sorts, &other.sorts)
    }
}

/// What is sent and received. Two messages are equal where both the operator and the payload agree
/// (Scribble Language Reference 0.3).
#[derive(Drop)]
pub struct Message {
    pub op: Option<Name>,
    pub payload: Payload,
}

impl Message {
    /// Whether the two are the same.
    pub fn equal(&self, other: &Message) -> bool
        ensures { IsTrue result ↔ (self.now ≡ other.now) }
    {
        operators_equal(&self.op, &other.op) && self.payload.equal(&other.payload)
    }
}

/// Whether both are the same operator, or both none.
pub fn operators_equal(a: &Option<Name>, b: &Option<Name>) -> bool
    ensures same { IsTrue result ↔ (a.now ≡ b.now) }
    ensures test { result ≡ same_operator a.now b.now }
{
    match (a, b) {
        (Some(x), Some(y)) => x.equal(y),
        (None, None) => true,
        _ => false,
    }
}

/// Whether both are the same types of a payload, in the same order.
pub fn sorts_equal(a: &[Dotted], b: &[Dotted]) -> bool
    ensures { IsTrue result ↔ (a.now ≡ b.now) }
{
    if a.len() != b.len() {
        return false;
    }
    for i in 0..a.len() {
        if !a[i].equal(&b[i]) {
            return false;
        }
    }
    true
}
