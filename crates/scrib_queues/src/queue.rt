//! One queue.

ghost use Rattle.std.specs.Prelude.{◌≡◌, [], ◌∷◌, ◌++◌, false, IsTrue, IfOk, OnOk, OnSome, MatchOption, drop, if◌then◌else◌, is_ok};
ghost use Rattle.scrib_queues.specs.Channels.{IsTaken};
ghost use Rattle.scrib_queues.specs.Layout.{fresh};

use crate::queued::Queued;
use std::alloc::{AllocError, Global};
use std::collections::VecDeque;
use std::marker::Model;
use std::mem;

// The capacity of a new ring buffer, in items.
const RING_ROOM: usize = 4;

// The storage of a queue's items.
#[derive(Drop)]
enum Storage<T> {
    /// No item.
    Nowhere,
    /// One item, stored in place.
    Here(T),
    /// Any number of items, the oldest first.
    Ring(Box<VecDeque<T>>),
}

/// A queue that allocates nothing until a second item is in flight. It is 16 bytes large, since a conversation has
/// one for each pair of roles that it used.
#[derive(Drop)]
pub(crate) struct Queue<T> {
    storage: Storage<T>,
}

impl<T> Model for Queue<T> {
    ghost use Rattle.scrib_queues.specs.Channels.{Channel};
    ghost use Rattle.scrib_queues.specs.Codes.{channel_code};
    ghost use Rattle.scrib_queues.specs.Layout.{items_in, room_in};

    ghost Value = { Channel T };

    ghost coded = { channel_code T.code };

    ghost view = { λ queue. record { items = items_in queue.storage; room = room_in queue.storage } };
}

impl<T: Drop> Queue<T> {
    /// A queue with no item.
    pub(crate) fn new() -> Queue<T>
        ensures { result ≡ fresh }
    {
        Queue {
            storage: Storage::Nowhere,
        }
    }

    /// A queue of one item.
    pub(crate) fn of(item: T) -> Queue<T>
        ensures { result.items ≡ item ∷ [] }
    {
        Queue {
            storage: Storage::Here(item),
        }
    }

    /// Makes room for one more item.
    ///
    /// # Errors
    /// `AllocError` where memory is refused.
    pub(crate) fn reserve(&mut self, alloc: Global) -> Result<(), AllocError>
        ensures items { self.new.items ≡ self.old.items }
        ensures room { OnOk result (IsTrue self.new.room) }
        ensures kept { IsTrue self.old.room → IsTrue self.new.room }
    {
        match &mut self.storage {
            Storage::Nowhere => Ok(()),
            Storage::Ring(ring) => ring.reserve(1),
            Storage::Here(_) => {
                let mut ring = Box::new(alloc, VecDeque::with_capacity(alloc, RING_ROOM)?)?;
                if let Storage::Here(first) = mem::replace(&mut self.storage, Storage::Nowhere) {
                    ring.push_back_reserved(first);
                }
                self.storage = Storage::Ring(ring);
                Ok(())
            }
        }
    }

    /// Puts the item behind the others.
    pub(crate) fn push(&mut self, item: T)
        requires { IsTrue self.old.room }
        ensures { self.new.items ≡ self.old.items ++ item ∷ [] }
    {
        match &mut self.storage {
            Storage::Ring(ring) => ring.push_back_reserved(item),
            Storage::Nowhere | Storage::Here(_) => self.storage = Storage::Here(item),
        }
    }

    /// The oldest item.
    pub(crate) fn front(&self) -> Option<&T>
        ensures { MatchOption result (self.now.items ≡ [])
            (λ item. self.now.items ≡ item.now ∷ drop 1 self.now.items) }
    {
        match &self.storage {
            Storage::Nowhere => None,
            Storage::Here(item) => Some(item),
            Storage::Ring(ring) => ring.front(),
        }
    }

    /// Takes the oldest item out.
    pub(crate) fn pop(&mut self) -> Option<T>
        ensures items { MatchOption result ((self.old.items ≡ []) × (self.new.items ≡ []))
            (λ item. self.old.items ≡ item ∷ self.new.items) }
        ensures room { OnSome result (IsTrue self.new.room) }
        ensures kept { IsTrue self.old.room → IsTrue self.new.room }
    {
        if let Storage::Ring(ring) = &mut self.storage {
            return ring.pop_front();
        }
        match mem::replace(&mut self.storage, Storage::Nowhere) {
            Storage::Here(item) => Some(item),
            Storage::Nowhere | Storage::Ring(_) => None,
        }
    }

    /// Makes room and puts the item behind the others.
    ///
    /// # Errors
    /// `AllocError` where memory is refused.
    pub(crate) fn send(&mut self, alloc: Global, item: T) -> Result<(), AllocError>
        ensures { self.new.items ≡ (if is_ok result then self.old.items ++ item ∷ [] else self.old.items) }
    {
        self.reserve(alloc)?;
        self.push(item);
        Ok(())
    }
}

impl<T: Queued> Queue<T> {
    /// Takes the oldest item out where it is this one, and returns whether it was.
    pub(crate) fn receive(&mut self, item: &T) -> bool
        ensures taken { IsTaken item.now result self.old.items self.new.items }
        ensures same { result ≡ false → self.new ≡ self.old }
    {
        match self.front() {
            Some(first) if first.is_same(item) => {}
            _ => return false,
        }
        let _received = self.pop();
        true
    }

    /// A copy with the same items.
    ///
    /// # Errors
    /// `AllocError` where memory is refused.
    pub(crate) fn copy(&self, alloc: Global) -> Result<Queue<T>, AllocError>
        ensures { IfOk result (λ queue. queue.items ≡ self.now.items) }
    {
        let storage = match &self.storage {
            Storage::Nowhere => Storage::Nowhere,
            Storage::Here(item) => Storage::Here(item.duplicate()?),
            Storage::Ring(ring) => Storage::Ring(Box::new(alloc, copy_ring(alloc, ring)?)?),
        };
        Ok(Queue { storage })
    }
}

// A copy of the ring buffer.
fn copy_ring<T: Queued>(alloc: Global, ring: &VecDeque<T>) -> Result<VecDeque<T>, AllocError>
    ensures { IfOk result (λ copies. copies.items ≡ ring.now.items) }
{
    let mut copies = VecDeque::with_capacity(alloc, ring.len())?;
    for i in 0..ring.len() {
        copies.push_back(ring[i].duplicate()?)?;
    }
    Ok(copies)
}
