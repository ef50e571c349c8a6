//! What queues hold.

ghost use Rattle.std.specs.Prelude.{◌≡◌, ◌↔◌, IsTrue, IfOk};

use scrib_types::shared_message::SharedMessage;
use std::alloc::AllocError;

/// An item of a queue. It can be compared and copied.
pub trait Queued: Drop {
    /// Whether the two are the same.
    fn is_same(&self, other: &Self) -> bool
        ensures { IsTrue result ↔ (self.now ≡ other.now) };

    /// A copy of the item.
    ///
    /// # Errors
    /// `AllocError` where memory or a reference count refuses it.
    fn duplicate(&self) -> Result<Self, AllocError>
        ensures { IfOk result (λ copy. copy ≡ self.now) };
}

impl Queued for SharedMessage {
    fn is_same(&self, other: &SharedMessage) -> bool {
        self.equal(other)
    }

    fn duplicate(&self) -> Result<SharedMessage, AllocError> {
        self.copy()
    }
}

impl Queued for usize {
    fn is_same(&self, other: &usize) -> bool {
        *self == *other
    }

    fn duplicate(&self) -> Result<usize, AllocError> {
        Ok(*self)
    }
}
