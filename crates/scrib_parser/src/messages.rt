//! The interner of messages: equal messages share their memory.

ghost use Rattle.std.specs.Prelude.{◌≡◌, ◌↔◌, IsTrue, IfOk, []};
ghost use Rattle.scrib_parser.specs.Reading.{message_from};

use scrib_types::hashing::{empty_slots, hash_bytes, hash_names, slot_of};
use scrib_types::message::{Message, Payload, operators_equal, sorts_equal};
use scrib_types::name::{Dotted, Name};
use scrib_types::shared_message::SharedMessage;
use std::alloc::{AllocError, Global};
use std::marker::Model;
use std::mem;

// The initial capacity of a payload. Few messages carry more types.
const FEW: usize = 2;

// The longest flat form of a message that is kept, in bytes. A longer one would hold much memory after its text is
// dropped.
const MAX_KEPT_BYTES: usize = 256;

/// The types of a payload. Contracts see the list.
#[derive(Drop)]
pub(crate) struct Sorts {
    list: Vec<Dotted>,
}

impl Model for Sorts {
    ghost use Rattle.std.specs.Prelude.{ℕ, List};

    ghost Value = { List (List (List ℕ)) };

    ghost view = { λ sorts. sorts.list.items };
}

impl Sorts {
    /// The payload of these types.
    pub(crate) fn from_vec(list: Vec<Dotted>) -> Sorts
        ensures { result ≡ list.items }
    {
        Sorts { list }
    }
}

/// A table of messages. A message that is interned again allocates nothing.
#[derive(Drop)]
pub(crate) struct MessageInterner {
    slots: Vec<Option<SharedMessage>>,
    /// A spare vector for the types of the next message.
    room: Vec<Dotted>,
}

impl MessageInterner {
    /// An empty table with this number of slots.
    ///
    /// # Errors
    /// `AllocError` where memory for the slots is refused.
    pub(crate) fn new(alloc: Global, count: usize) -> Result<MessageInterner, AllocError> {
        let slots = empty_slots(alloc, count)?;
        let room = Vec::new(alloc);
        Ok(MessageInterner { slots, room })
    }

    /// An empty vector of types, with the capacity of the last payload that was found in the table.
    ///
    /// # Errors
    /// `AllocError` where memory for the list is refused.
    pub(crate) fn room(&mut self, alloc: Global) -> Result<Vec<Dotted>, AllocError>
        ensures { IfOk result (λ sorts. sorts.items ≡ []) }
    {
        if self.room.capacity() == 0 {
            return Vec::with_capacity(alloc, FEW);
        }
        let mut sorts = mem::replace(&mut self.room, Vec::new(alloc));
        sorts.clear();
        Ok(sorts)
    }

    /// The message of the operator and the types. It shares the memory of an equal one in the table.
    ///
    /// # Errors
    /// `AllocError` where memory for the message is refused, or its reference count can't rise.
    pub(crate) fn intern(
        &mut self,
        alloc: Global,
        op: Option<Name>,
        sorts: Sorts,
    ) -> Result<SharedMessage, AllocError>
        ensures { IfOk result (λ shared. shared ≡ message_from op sorts) }
    {
        let at = slot_of(hash_of(&op, &sorts.list), self.slots.len());
        if at >= self.slots.len() {
            return SharedMessage::new(alloc, message(op, sorts));
        }
        if let Some(kept) = &self.slots[at] {
            if is_message(kept.get(), &op, &sorts.list) {
                let shared = kept.copy()?;
                self.room = sorts.list;
                return Ok(shared);
            }
        }
        let shared = SharedMessage::new(alloc, message(op, sorts))?;
        if shared.flat().len() <= MAX_KEPT_BYTES {
            self.slots[at] = Some(shared.copy()?);
        }
        Ok(shared)
    }
}

// The message of the operator and the types.
fn message(op: Option<Name>, sorts: Sorts) -> Message
    ensures { result ≡ message_from op sorts }
{
    let payload = Payload::from_vec(sorts.list);
    Message { op, payload }
}

// Whether the message is of this operator and these types.
fn is_message(message: &Message, op: &Option<Name>, sorts: &[Dotted]) -> bool
    ensures { IsTrue result ↔ (message.now ≡ message_from op.now sorts.now) }
{
    operators_equal(&message.op, op) && sorts_equal(message.payload.as_slice(), sorts)
}

// The message's hash.
fn hash_of(op: &Option<Name>, sorts: &[Dotted]) -> u64 {
    let mut hash = match op {
        Some(op) => hash_bytes(1, op.as_bytes()),
        None => 0,
    };
    for sort in sorts {
        hash = hash_names(hash, sort.as_slice());
    }
    hash
}
