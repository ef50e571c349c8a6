//! The exchanges of a protocol, by number.

ghost use Rattle.std.specs.Prelude.{◌≡◌, ◌≤◌, IfOk, IfSome, None};
ghost use Rattle.scrib_record.specs.Exchanges as spec;

use scrib_types::event::Event;
use scrib_types::shared_event::SharedEvent;
use scrib_types::shared_message::SharedMessage;
use std::alloc::{AllocError, Global};
use std::hash::{Hash, Hasher};
use std::marker::Model;

// The fewest slots that a table has.
const FEWEST_SLOTS: usize = 16;

/// A message from one role to another: its send, and the places of its sender and its receiver among the roles. Two are
/// equal if their sends are.
#[derive(Drop)]
pub struct Exchange {
    pub send: SharedEvent,
    pub message: SharedMessage,
    pub from: usize,
    pub to: usize,
}

impl PartialEq for Exchange {
    ghost use Rattle.std.specs.Cmp.{partial_equiv_from_equiv};
    ghost use Rattle.std.specs.Str.{bytes_eq};
    ghost use Rattle.std.proofs.lemmas.Cmp.{on_equiv, nat_list_eq_equiv};
    ghost use Rattle.scrib_record.specs.Exchanges.{send_bytes};

    ghost eq = { λ a b. bytes_eq (send_bytes a) (send_bytes b) };

    ghost laws = { partial_equiv_from_equiv (on_equiv send_bytes nat_list_eq_equiv) };

    fn eq(&self, other: &Exchange) -> bool {
        self.send.equal(&other.send)
    }
}

impl Eq for Exchange {
    ghost use Rattle.std.proofs.lemmas.Cmp.{on_equiv, nat_list_eq_equiv};
    ghost use Rattle.scrib_record.specs.Exchanges.{send_bytes};

    ghost laws = { on_equiv send_bytes nat_list_eq_equiv };
}

impl Hash for Exchange {
    ghost use Rattle.scrib_record.specs.Exchanges.{hashed_parts, hashed_alike};

    ghost hash_input = { λ x. hashed_parts x.send };

    ghost respects_eq = { hashed_alike };

    fn hash<H: Hasher>(&self, state: &mut H) {
        match self.send.get() {
            Event::Join { role } => state.write(role.as_bytes()),
            Event::Sent { from, to, message } | Event::Received { from, to, message } => {
                state.write(from.as_bytes());
                state.write(to.as_bytes());
                state.write(message.flat());
            }
        }
    }
}

/// The number of an exchange, and the places of its sender and its receiver among the roles.
#[derive(Clone, Copy)]
pub struct Located {
    pub number: usize,
    pub from: usize,
    pub to: usize,
}

/// Exchanges. The number of each is its index. They are looked up by hash. Contracts see the list.
#[derive(Drop)]
pub struct Exchanges {
    list: Vec<Exchange>,
    // The number of each exchange, in the first free slot from that of its hash on. The other slots hold a number that
    // no exchange has. Correctness does not depend on them.
    slots: Vec<usize>,
    // The last slot. The number of slots is a power of two.
    last_slot: usize,
}

impl Model for Exchanges {
    ghost use Rattle.std.specs.Prelude.{◌<◌, List, length};
    ghost use Rattle.scrib_record.specs.declared.exchanges.Exchange.{Exchange};

    ghost Value = { List Exchange };

    ghost view = { λ e. e.list.items };

    ghost invariant = { λ e. e.last_slot < length e.slots.items };
}

impl Exchanges {
    /// Returns these exchanges, numbered in their order.
    ///
    /// # Errors
    /// `AllocError` if memory was refused.
    pub fn from_vec(alloc: Global, list: Vec<Exchange>) -> Result<Exchanges, AllocError>
        ensures { IfOk result (λ exchanges. exchanges ≡ list.items) }
    {
        let count = list
            .len()
            .saturating_mul(2)
            .max(FEWEST_SLOTS)
            .next_power_of_two();
        let mut slots = vec![in alloc; list.len(); count]?;
        enter_all(&list, slots.as_mut_slice());
        Ok(Exchanges {
            list,
            slots,
            last_slot: count - 1,
        })
    }

    /// Returns the exchanges, in the order of their numbers.
    #[inline(always)]
    pub fn as_slice(&self) -> &[Exchange]
        ensures { result.now ≡ self.now }
    {
        self.list.as_slice()
    }

    /// Returns the exchange of which the event is the send or the reception, if there is one. Most are in the first slot
    /// of their hash.
    #[inline(always)]
    pub fn find(&self, event: &SharedEvent) -> Option<Located>
        ensures found { IfSome result (spec.IsLocated self.now event.now) }
        ensures absent { result ≡ None → spec.IsAbsent self.now event.now }
    {
        let first = slot_of(event.exchange_hash(), self.last_slot);
        if let Some(located) = located_at(&self.list, self.slots[first], event) {
            return Some(located);
        }
        self.find_further(event)
    }

    // Returns the exchange of which the event is the send or the reception, if there is one.
    fn find_further(&self, event: &SharedEvent) -> Option<Located>
        ensures found { IfSome result (spec.IsLocated self.now event.now) }
        ensures absent { result ≡ None → spec.IsAbsent self.now event.now }
    {
        if let Some(number) = self.hinted(event.exchange_hash()) {
            if let Some(located) = located_at(&self.list, number, event) {
                return Some(located);
            }
        }
        search(&self.list, event)
    }

    // Returns the number of an exchange with this hash, if the slots have one. It is only a hint.
    fn hinted(&self, hash: u64) -> Option<usize> {
        let mut slot = slot_of(hash, self.last_slot);
        for _ in 0..self.slots.len() {
            let number = *self.slots.get(slot)?;
            if self.list.get(number)?.send.exchange_hash() == hash {
                return Some(number);
            }
            slot = next_slot(slot, self.last_slot);
        }
        None
    }
}

// Writes the number of each exchange into the slots, whose number is a power of two.
fn enter_all(list: &[Exchange], slots: &mut [usize]) {
    for (number, exchange) in list.iter().enumerate() {
        enter(slots, exchange.send.exchange_hash(), number, list.len());
    }
}

// Writes the number into the first slot from that of the hash on that holds `free`.
fn enter(slots: &mut [usize], hash: u64, number: usize, free: usize) {
    let last_slot = slots.len().saturating_sub(1);
    let mut slot = slot_of(hash, last_slot);
    for _ in 0..slots.len() {
        match slots.get_mut(slot) {
            Some(held) if *held == free => {
                *held = number;
                return;
            }
            _ => slot = next_slot(slot, last_slot),
        }
    }
}

// Returns the slot of an exchange with this hash, in a table of which this is the last one.
#[inline(always)]
fn slot_of(hash: u64, last_slot: usize) -> usize
    ensures { result ≤ last_slot }
{
    (hash >> 32) as usize & last_slot
}

// Returns the slot after this one, in a table of which this is the last one.
#[inline(always)]
fn next_slot(slot: usize, last_slot: usize) -> usize {
    slot.wrapping_add(1) & last_slot
}

// Returns the exchange of this number, if the event is its send or its reception.
#[inline(always)]
fn located_at(list: &[Exchange], number: usize, event: &SharedEvent) -> Option<Located>
    ensures { IfSome result (spec.IsLocated list.now event.now) }
{
    let exchange = list.get(number)?;
    if exchange.send.same_exchange(event) {
        Some(Located {
            number,
            from: exchange.from,
            to: exchange.to,
        })
    } else {
        None
    }
}

// Returns the first exchange of which the event is the send or the reception, if there is one.
fn search(list: &[Exchange], event: &SharedEvent) -> Option<Located>
    ensures found { IfSome result (spec.IsLocated list.now event.now) }
    ensures absent { result ≡ None → spec.IsAbsent list.now event.now }
{
    for (number, exchange) in list.iter().enumerate() {
        if exchange.send.same_exchange(event) {
            return Some(Located {
                number,
                from: exchange.from,
                to: exchange.to,
            });
        }
    }
    None
}
