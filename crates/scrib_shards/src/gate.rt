//! Gates: with them a test observes a call while it holds its locks.

/// A hook that each call of `note`, `note_all`, `turn` and `close` runs once, while it holds its locks and just before it
/// returns. No contract states this.
pub trait Gate {
    /// The call holds the lock of the shard of this number, from 0.
    fn hold(&self, shard: usize);
}

/// A gate that does nothing.
#[derive(Clone, Copy)]
pub struct OpenGate;

impl Gate for OpenGate {
    fn hold(&self, _shard: usize) {}
}
