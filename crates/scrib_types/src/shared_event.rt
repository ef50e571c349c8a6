//! Shared events, as logs, steps and receipts hold them.

ghost use Rattle.std.specs.Prelude.{◌≡◌, ◌↔◌, ◌++◌, IsTrue, IfOk, OnOk, drop};
ghost use Rattle.scrib_types.specs.Flat.{name_bytes, message_bytes};
ghost use Rattle.scrib_types.specs.FlatEvents.{event_bytes, exchange_bytes};

use crate::bytes::same_bytes;
use crate::event::Event;
use crate::flat::push_name;
use crate::hashing::hash_bytes;
use crate::name::Role;
use crate::shared_message::SharedMessage;
use crate::text::push_bytes;
use std::alloc::{AllocError, Global};
use std::marker::Model;
use std::sync::Arc;

// Room for the flat form of a usual event.
const USUAL_FLAT_BYTES: usize = 48;

// An event beside its flat form, and the hash of that form without the kind of event.
#[derive(Drop)]
struct Flattened {
    event: Event,
    flat: Vec<u8>,
    hash: u64,
}

/// An event that its copies share by a reference count. It keeps its flat form, so that two events are compared as
/// contiguous bytes, and a hash for tables of exchanges. Contracts see the event.
#[derive(Drop)]
pub struct SharedEvent {
    shared: Arc<Flattened>,
}

impl Model for SharedEvent {
    ghost use Rattle.std.specs.Prelude.{◌≡◌};
    ghost use Rattle.scrib_types.specs.declared.event.Event.{Event};
    ghost use Rattle.scrib_types.specs.FlatEvents.{event_bytes};

    ghost Value = { Event };

    ghost view = { λ e. e.shared.value.event };

    ghost invariant = { λ e. e.shared.value.flat.items ≡ event_bytes e.shared.value.event };
}

impl SharedEvent {
    /// Takes the event into shared memory.
    ///
    /// # Errors
    /// `AllocError` where memory for it is refused.
    pub fn new(alloc: Global, event: Event) -> Result<SharedEvent, AllocError>
        ensures { IfOk result (λ shared. shared ≡ event) }
    {
        let mut flat = Vec::with_capacity(alloc, USUAL_FLAT_BYTES)?;
        push_event(&mut flat, &event)?;
        let hash = hash_bytes(0, without_kind(flat.as_slice()));
        let shared = Arc::new(alloc, Flattened { event, flat, hash })?;
        Ok(SharedEvent { shared })
    }

    /// The event.
    pub fn get(&self) -> &Event
        ensures { result.now ≡ self.now }
    {
        &self.shared.event
    }

    /// Whether the two are the same.
    pub fn equal(&self, other: &SharedEvent) -> bool
        ensures { IsTrue result ↔ (self.now ≡ other.now) }
    {
        same_bytes(self.flat(), other.flat())
    }

    /// Whether the two are events of one exchange: of the same message from the same role to the same role. A send and
    /// the reception of its message are. So are two joins of one role.
    #[inline(always)]
    pub fn same_exchange(&self, other: &SharedEvent) -> bool
        ensures { IsTrue result ↔ (exchange_bytes self.now ≡ exchange_bytes other.now) }
    {
        same_bytes(without_kind(self.flat()), without_kind(other.flat()))
    }

    /// A hash of the event without its kind. Events of one exchange have the same.
    #[inline(always)]
    pub fn exchange_hash(&self) -> u64 {
        self.shared.hash
    }

    /// A copy that shares the event.
    ///
    /// # Errors
    /// `AllocError` where the reference count can't rise.
    pub fn copy(&self) -> Result<SharedEvent, AllocError>
        ensures { IfOk result (λ shared. shared ≡ self.now) }
    {
        let shared = self.shared.clone()?;
        Ok(SharedEvent { shared })
    }

    // The flat form. No other event's flat form begins with it.
    fn flat(&self) -> &[u8]
        ensures { result.now ≡ event_bytes self.now }
    {
        self.shared.flat.as_slice()
    }
}

// The flat form without its first byte, which is the kind of event.
#[inline(always)]
fn without_kind(flat: &[u8]) -> &[u8]
    ensures { result.now ≡ drop 1 flat.now }
{
    match flat {
        [_, rest @ ..] => rest,
        [] => flat,
    }
}

// Adds the flat form of the event. It fails where memory for the longer bytes is refused, as does the function below.
fn push_event(out: &mut Vec<u8>, event: &Event) -> Result<(), AllocError>
    ensures { OnOk result (out.new.items ≡ out.old.items ++ event_bytes event.now) }
{
    match event {
        Event::Join { role } => {
            out.push(0)?;
            push_name(out, role)
        }
        Event::Sent { from, to, message } => {
            out.push(1)?;
            push_exchange(out, from, to, message)
        }
        Event::Received { from, to, message } => {
            out.push(2)?;
            push_exchange(out, from, to, message)
        }
    }
}

// Adds the flat forms of both roles, and then that of the message.
fn push_exchange(
    out: &mut Vec<u8>,
    from: &Role,
    to: &Role,
    message: &SharedMessage,
) -> Result<(), AllocError>
    ensures { OnOk result (out.new.items ≡ out.old.items ++ name_bytes from.now ++ name_bytes to.now
        ++ message_bytes message.now) }
{
    push_name(out, from)?;
    push_name(out, to)?;
    push_bytes(out, message.flat())
}
