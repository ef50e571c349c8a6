//! An index of branches by operator. It lets a choice of many blocks find a repeated operator quickly.

ghost use Rattle.std.specs.Prelude.{◌≡◌, ◌<◌};
ghost use Rattle.scrib_types.specs.GlobalView.{global_branches};
ghost use Rattle.scrib_types.specs.WellFormed.{has_operator};
ghost use Rattle.scrib_type_builder.specs.Operators as spec;

use scrib_types::global::GlobalType;
use scrib_types::hashing::{empty_slots, hash_bytes, slot_of};
use scrib_types::message::operators_equal;
use scrib_types::name::Name;
use scrib_types::shared_message::SharedMessage;
use std::alloc::{AllocError, Global};

/// Up to this number of branches, a new branch is compared with all.
const FEW: usize = 16;

/// The largest number of slots.
const MAX_SLOTS: usize = 65_536;

/// A chained hash table of branches by operator. `latest` has for each slot the last branch that hashes to it.
/// `earlier` has for each branch the one before it in its slot. Without slots the table is empty.
#[derive(Drop)]
pub struct Operators {
    pub latest: Vec<Option<usize>>,
    pub earlier: Vec<Option<usize>>,
}

impl Operators {
    ghost use Rattle.std.specs.Prelude.{◌≡◌, ◌<◌, ◌≤◌, [], length, IfOk, OnOk};
    ghost use Rattle.scrib_types.specs.GlobalView.{global_branches};
    ghost use Rattle.scrib_types.specs.WellFormed.{has_operator};
    ghost use Rattle.scrib_type_builder.specs.Operators.{AreIndexed, AreChained};

    /// Returns an empty index for about `count` branches. For few branches it has no slots.
    ///
    /// # Errors
    /// `AllocError` where memory was refused.
    pub fn new(alloc: Global, count: usize) -> Result<Operators, AllocError>
        ensures { IfOk result (λ o. AreIndexed [] o.latest.items o.earlier.items) }
    {
        let earlier = Vec::new(alloc);
        if count <= FEW {
            let latest = Vec::new(alloc);
            return Ok(Operators { latest, earlier });
        }
        let size = count.min(MAX_SLOTS).next_power_of_two();
        let latest = empty_slots(alloc, size)?;
        Ok(Operators { latest, earlier })
    }

    /// Adds the branches that come after those in the index.
    ///
    /// # Errors
    /// `AllocError` where memory was refused.
    pub fn add_new(&mut self, branches: &[(SharedMessage, GlobalType)]) -> Result<(), AllocError>
        requires { 0 < length self.old.latest.items
            → AreChained branches.now (length self.old.earlier.items) self.old.latest.items self.old.earlier.items }
        ensures { OnOk result (AreIndexed branches.now self.new.latest.items self.new.earlier.items) }
    {
        let size = self.latest.len();
        if size == 0 {
            return Ok(());
        }
        for place in self.earlier.len()..branches.len() {
            let slot = operator_slot(size, &branches[place].0.get().op);
            let earlier = self.latest[slot];
            self.earlier.push(earlier)?;
            self.latest[slot] = Some(place);
        }
        Ok(())
    }

    /// Returns whether one of these branches, all of which are in the index, has this operator.
    pub fn has(&self, op: &Option<Name>, branches: &[(SharedMessage, GlobalType)]) -> bool
        requires { AreIndexed branches.now self.now.latest.items self.now.earlier.items }
        ensures { result ≡ has_operator op.now (global_branches branches.now) }
    {
        let size = self.latest.len();
        if size == 0 {
            return has_operator(op, branches);
        }
        let slot = operator_slot(size, op);
        let mut next = self.latest[slot];
        while let Some(place) = next {
            if operators_equal(op, &branches[place].0.get().op) {
                return true;
            }
            let earlier = self.earlier[place];
            next = earlier;
        }
        false
    }
}

// Returns the slot, out of `size`, of an operator.
fn operator_slot(size: usize, op: &Option<Name>) -> usize
    requires { 0 < size }
    ensures slot { result ≡ spec.operator_slot size op.now }
    ensures within { result < size }
{
    match op {
        None => 0,
        Some(name) => slot_of(hash_bytes(0, name.as_bytes()), size),
    }
}

fn has_operator(op: &Option<Name>, branches: &[(SharedMessage, GlobalType)]) -> bool
    ensures { result ≡ has_operator op.now (global_branches branches.now) }
{
    for (message, _) in branches {
        if operators_equal(op, &message.get().op) {
            return true;
        }
    }
    false
}
