//! Shared messages, as types, events and actions hold them.

ghost use Rattle.std.specs.Prelude.{◌≡◌, ◌↔◌, IsTrue, IfOk};
ghost use Rattle.scrib_types.specs.Flat.{message_bytes};

use crate::bytes::same_bytes;
use crate::flat::push_message;
use crate::message::Message;
use std::alloc::{AllocError, Global};
use std::marker::Model;
use std::sync::Arc;

// Room for the flat form of a usual message.
const USUAL_FLAT_BYTES: usize = 32;

// A message beside its flat form.
#[derive(Drop)]
struct Flattened {
    message: Message,
    flat: Vec<u8>,
}

/// A message that its copies share by a reference count. It keeps its flat form, so that two messages are compared as
/// contiguous bytes. Contracts see the message.
#[derive(Drop)]
pub struct SharedMessage {
    shared: Arc<Flattened>,
}

impl Model for SharedMessage {
    ghost use Rattle.std.specs.Prelude.{◌≡◌};
    ghost use Rattle.scrib_types.specs.declared.message.Message.{Message};
    ghost use Rattle.scrib_types.specs.Flat.{message_bytes};

    ghost Value = { Message };

    ghost view = { λ m. m.shared.value.message };

    ghost invariant = { λ m. m.shared.value.flat.items ≡ message_bytes m.shared.value.message };
}

impl SharedMessage {
    /// Takes the message into shared memory.
    ///
    /// # Errors
    /// `AllocError` where memory for it is refused.
    pub fn new(alloc: Global, message: Message) -> Result<SharedMessage, AllocError>
        ensures { IfOk result (λ shared. shared ≡ message) }
    {
        let mut flat = Vec::with_capacity(alloc, USUAL_FLAT_BYTES)?;
        push_message(&mut flat, &message)?;
        let shared = Arc::new(alloc, Flattened { message, flat })?;
        Ok(SharedMessage { shared })
    }

    /// The message.
    pub fn get(&self) -> &Message
        ensures { result.now ≡ self.now }
    {
        &self.shared.message
    }

    /// The flat form. No other message's flat form begins with it.
    pub fn flat(&self) -> &[u8]
        ensures { result.now ≡ message_bytes self.now }
    {
        self.shared.flat.as_slice()
    }

    /// Whether the two are the same.
    #[tactic(auto, using(crate::proofs::FlatFormLemmas::same_message))]
    pub fn equal(&self, other: &SharedMessage) -> bool
        ensures { IsTrue result ↔ (self.now ≡ other.now) }
    {
        same_bytes(self.flat(), other.flat())
    }

    /// A copy that shares the message.
    ///
    /// # Errors
    /// `AllocError` where the reference count can't rise.
    pub fn copy(&self) -> Result<SharedMessage, AllocError>
        ensures { IfOk result (λ shared. shared ≡ self.now) }
    {
        let shared = self.shared.clone()?;
        Ok(SharedMessage { shared })
    }
}
