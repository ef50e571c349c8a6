//! How an index of declared protocols is filled and searched. Its slots have a file of their own, because
//! specifications refer to them.

ghost use Rattle.std.specs.Prelude.{◌≡◌, length, slice_get, IfSome, IsTrue};
ghost use Rattle.scrib_static_checks.specs.ProtocolIndex as spec;
ghost use Rattle.scrib_static_checks.specs.Names.{Declaration as PureDeclaration, is_called};
ghost use Rattle.scrib_static_checks.specs.Table.{shown, IsNamed};

use crate::declared::{Declaration, find};
use crate::names::same_name;
use crate::protocol_index::{ProtocolIndex, next_slot, protocol_slot};
use scrib_tree::tree::ModuleTree;
use scrib_types::hashing::empty_slots;
use scrib_types::name::{Dotted, Name};
use std::alloc::{AllocError, Global};

/// The largest number of protocols that an index has slots for.
const MAX_INDEXED: usize = 0x4000_0000;

/// The least number of slots for each protocol. An index with fewer is crowded.
const SLOTS_EACH: usize = 2;

impl ProtocolIndex {
    ghost use Rattle.std.specs.Prelude.{◌≡◌, ◌++◌, List, None, IfOk, MatchOption};
    ghost use Rattle.scrib_static_checks.specs.ProtocolIndex as spec;
    ghost use Rattle.scrib_static_checks.specs.Names.{Declaration as PureDeclaration, declared_in, is_called, first_where};
    ghost use Rattle.scrib_static_checks.specs.Table.{shown, IsFound};

    /// Returns the index of these protocols.
    ///
    /// # Errors
    /// `AllocError` where memory was refused.
    pub fn new(alloc: Global, declared: &[Declaration]) -> Result<ProtocolIndex, AllocError>
        ensures { IfOk result (λ d. spec.IsIndexed (shown declared.now) d.slots.items d.indexed) }
    {
        let least = declared.len().min(MAX_INDEXED) * SLOTS_EACH + 1;
        let size = least.next_power_of_two();
        let mut slots = empty_slots(alloc, size)?;
        for (place, one) in declared.iter().enumerate() {
            take_slot(&mut slots, place, &one.home.name, &one.protocol.name);
        }
        let indexed = declared.len();
        Ok(ProtocolIndex { slots, indexed })
    }

    /// Adds the protocols of one more module after the others. If the slots would be crowded, the index has none
    /// afterwards.
    pub fn add(&mut self, home: &ModuleTree)
        ensures { (ds : List PureDeclaration) → spec.IsIndexed ds self.old.slots.items self.old.indexed
            → spec.IsIndexed (ds ++ declared_in home.now home.now.protocols) self.new.slots.items self.new.indexed }
    {
        let protocols = home.protocols.as_slice();
        let room = self.slots.len() / SLOTS_EACH;
        if room < self.indexed || room - self.indexed < protocols.len() {
            self.slots.clear();
            return;
        }
        for (i, protocol) in protocols.iter().enumerate() {
            take_slot(
                &mut self.slots,
                self.indexed + i,
                &home.name,
                &protocol.name,
            );
        }
        self.indexed += protocols.len();
    }

    /// Returns the index of the protocol of this name, in the module of this name, among the declared protocols.
    pub fn find(&self, declared: &[Declaration], home: &Dotted, name: &Name) -> Option<usize>
        requires { spec.IsProtocolIndex (shown declared.now) self.now.slots.items }
        ensures { MatchOption result
            (first_where (is_called home.now name.now) (shown declared.now) ≡ None)
            (IsFound (shown declared.now) (is_called home.now name.now)) }
    {
        let size = self.slots.len();
        if size == 0 {
            return find(declared, home, name);
        }
        let mut slot = protocol_slot(size, home, name);
        for _ in 0..size {
            // The search would have reached the protocol before a free slot.
            let place = self.slots[slot]? as usize;
            if is_named(declared, place, home, name) {
                return Some(place);
            }
            slot = next_slot(size, slot);
        }
        find(declared, home, name)
    }
}

// Writes the index of this protocol to the first free slot from its own on. If there is none, or the index doesn't fit,
// there are no slots afterwards.
fn take_slot(slots: &mut Vec<Option<u32>>, place: usize, home: &Dotted, name: &Name)
    ensures { spec.IsSlotTaken slots.old.items place (spec.protocol_slot (length slots.old.items) home.now name.now)
        slots.new.items }
{
    if let Ok(place) = u32::try_from(place) {
        if let Some(slot) = free_slot(slots, home, name) {
            slots[slot] = Some(place);
            return;
        }
    }
    slots.clear();
}

// Returns the first free slot from the one of this protocol on.
fn free_slot(slots: &[Option<u32>], home: &Dotted, name: &Name) -> Option<usize>
    ensures { let size = length slots.now in
        IfSome result (λ s. spec.IsFirstFree slots.now size (spec.protocol_slot size home.now name.now) s) }
{
    let size = slots.len();
    if size == 0 {
        return None;
    }
    let mut slot = protocol_slot(size, home, name);
    for _ in 0..size {
        if slots[slot].is_none() {
            return Some(slot);
        }
        slot = next_slot(size, slot);
    }
    None
}

// Returns whether the declared protocol at this index has this name, in the module of this name.
fn is_named(declared: &[Declaration], place: usize, home: &Dotted, name: &Name) -> bool
    ensures named { IsTrue result → IsNamed (shown declared.now) place home.now name.now }
    ensures others { (d : PureDeclaration) → slice_get (shown declared.now) place ≡ Some d
        → result ≡ is_called home.now name.now d }
{
    match declared.get(place) {
        Some(one) => name.equal(&one.protocol.name) && same_name(home, &one.home.name),
        None => false,
    }
}
