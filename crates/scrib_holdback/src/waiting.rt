//! What waits: each arrival in order of arrival, and of each role where its own are.

ghost use Rattle.std.specs.Prelude.{◌≡◌, ◌≤◌, ◌<◌, ◌+◌, ◌^◌, ◌++◌, ◌∷◌, ◌↔◌, [], ℕ, List, true, IfOk, IsTrue, OnOk, OnErr, MatchOption, Some, length, slice_get, if◌then◌else◌, is_ok};
ghost use Rattle.scrib_types.specs.Logs.{subject_of};
ghost use Rattle.scrib_holdback.specs.Holdings.{IsOldestWaiting};
ghost use Rattle.scrib_holdback.specs.Lanes.{HasNone, IsFirstItem, IsSlotSkipped, TakesFirst, IsTrimmed, StartsFull, waiting_items};
ghost use Rattle.scrib_holdback.specs.Releases.{own_items};

use crate::arrival::Arrival;
use crate::lanes::{Lane, find_lane, first_position, is_lane_of, pop_position, push_position};
use scrib_types::name::Role;
use std::alloc::{AllocError, Global};
use std::collections::VecDeque;
use std::marker::Model;

/// Arrivals that wait, in order of arrival. The first of each role is found and taken out in constant time, once the
/// place of the role is known.
///
/// Each arrival is counted, and its position is the number of those before it. Slots are of the last positions. A slot
/// is empty where its arrival doesn't wait, and empty slots at the front are removed. So the first slot is that of the
/// oldest arrival that waits, and there are at most as many slots as arrivals since.
///
/// Contracts see the roles that were met, what waits, and how many arrivals were counted.
#[derive(Drop)]
pub(crate) struct Waiting<A: Arrival> {
    lanes: Vec<Lane>,
    slots: VecDeque<Option<A>>,
    pushed: usize,
}

impl<A: Arrival> Model for Waiting<A> {
    ghost use Rattle.scrib_holdback.specs.Lanes.{AreLaid, waiting_items, positions_at, lane_roles};
    ghost use Rattle.scrib_holdback.specs.Waiters.{Waiters, waiters_code};

    ghost Value = { Waiters A };

    ghost coded = { waiters_code A.code };

    ghost view = { λ w.
        record { roles = lane_roles w.lanes.items; items = waiting_items w.slots.items; pushed = w.pushed } };

    ghost invariant = { λ w. AreLaid A.event (lane_roles w.lanes.items) (positions_at w.lanes.items)
        w.slots.items w.pushed };
}

impl<A: Arrival> Waiting<A> {
    /// Nothing waits, and no role was met.
    pub(crate) fn new(alloc: Global) -> Waiting<A>
        ensures items { result.items ≡ [] }
        ensures pushed { result.pushed ≡ 0 }
    {
        Waiting {
            lanes: Vec::new(alloc),
            slots: VecDeque::new(alloc),
            pushed: 0,
        }
    }

    /// At least as many as wait.
    pub(crate) fn bound(&self) -> usize
        ensures enough { length self.now.items ≤ result }
        ensures fits { result < 2 ^ 63 }
    {
        self.slots.len()
    }

    /// The place of the role. A role that has none has nothing that waits. The hint may be any index. It is where the
    /// role is looked for first.
    #[inline(always)]
    pub(crate) fn place_of(&self, hint: usize, role: &Role) -> Option<usize>
        ensures { MatchOption result (own_items A.event role.now self.now.items ≡ [])
            (λ place. slice_get self.now.roles place ≡ Some role.now) }
    {
        find_lane(&self.lanes, hint, role)
    }

    /// The place of the role, which is added where it is missing. The hint is as in [`Waiting::place_of`].
    ///
    /// # Errors
    /// `AllocError` where memory or a reference count refuses it. Nothing changes.
    pub(crate) fn add_role(&mut self, hint: usize, role: &Role) -> Result<usize, AllocError>
        ensures place { IfOk result (λ place. slice_get self.new.roles place ≡ Some role.now) }
        ensures items { self.new.items ≡ self.old.items }
        ensures pushed { self.new.pushed ≡ self.old.pushed }
    {
        if let Some(place) = find_lane(&self.lanes, hint, role) {
            return Ok(place);
        }
        let positions = VecDeque::new(*self.lanes.allocator());
        let role = role.copy()?;
        let place = self.lanes.len();
        self.lanes.push(Lane { role, positions })?;
        Ok(place)
    }

    /// Puts the arrival, of the role at this place, behind the others.
    ///
    /// # Errors
    /// `AllocError` where memory is refused. Nothing changes.
    pub(crate) fn push(&mut self, place: usize, arrival: A) -> Result<(), AllocError>
        requires { slice_get self.old.roles place ≡ Some (subject_of (A.event arrival)) }
        ensures items { self.new.items ≡ (if is_ok result then self.old.items ++ arrival ∷ [] else self.old.items) }
        ensures pushed { self.new.pushed ≡ (if is_ok result then self.old.pushed + 1 else self.old.pushed) }
    {
        if self.pushed == usize::MAX {
            return Err(AllocError);
        }
        self.slots.reserve(1)?;
        push_position(&mut self.lanes, place, self.pushed)?;
        self.slots.push_back_reserved(Some(arrival));
        self.pushed += 1;
        Ok(())
    }

    /// Counts an arrival that doesn't wait.
    ///
    /// # Errors
    /// `AllocError` where memory is refused. Nothing changes. While nothing waits it takes none.
    pub(crate) fn skip(&mut self) -> Result<(), AllocError>
        ensures roles { self.new.roles ≡ self.old.roles }
        ensures items { self.new.items ≡ self.old.items }
        ensures pushed { self.new.pushed ≡ (if is_ok result then self.old.pushed + 1 else self.old.pushed) }
        ensures fits { OnOk result (self.new.pushed < 2 ^ 64) }
    {
        if self.pushed == usize::MAX {
            return Err(AllocError);
        }
        push_empty(&mut self.slots)?;
        self.pushed += 1;
        Ok(())
    }

    /// Whether nothing waits, and another arrival can be counted.
    #[inline(always)]
    pub(crate) fn is_idle(&self) -> bool
        ensures none { IsTrue result → self.now.items ≡ [] }
        ensures fits { IsTrue result → self.now.pushed + 1 < 2 ^ 64 }
    {
        if !self.slots.is_empty() {
            return false;
        }
        self.pushed < usize::MAX
    }

    /// Counts an arrival that doesn't wait, where nothing does.
    #[inline(always)]
    pub(crate) fn count_idle(&mut self)
        requires none { self.old.items ≡ [] }
        requires fits { self.old.pushed + 1 < 2 ^ 64 }
        ensures items { self.new.items ≡ self.old.items }
        ensures pushed { self.new.pushed ≡ self.old.pushed + 1 }
    {
        self.pushed += 1;
    }

    /// Whether nothing of the role waits. The hint is as in [`Waiting::place_of`].
    #[inline(always)]
    pub(crate) fn has_none(&self, hint: usize, role: &Role) -> bool
        ensures { IsTrue result ↔ (own_items A.event role.now self.now.items ≡ []) }
    {
        let Some(place) = self.place_of(hint, role) else {
            return true;
        };
        first_position(&self.lanes, place).is_none()
    }

    /// Whether the place is the role's, and nothing of it waits.
    #[inline(always)]
    pub(crate) fn has_none_at(&self, place: usize, role: &Role) -> bool
        ensures { IsTrue result → own_items A.event role.now self.now.items ≡ [] }
    {
        is_lane_of(&self.lanes, place, role) && self.is_empty_at(place)
    }

    /// Whether nothing of the role at this place waits.
    #[inline(always)]
    pub(crate) fn is_empty_at(&self, place: usize) -> bool
        ensures { IsTrue result ↔ HasNone A.event place self.now }
    {
        first_position(&self.lanes, place).is_none()
    }

    /// The oldest arrival.
    pub(crate) fn oldest(&self) -> Option<&A>
        ensures { MatchOption result (self.now.items ≡ []) (λ x. IsOldestWaiting self.now.items x.now) }
    {
        let slot = self.slots.front()?;
        slot.as_ref()
    }

    /// The first arrival of the role at this place.
    pub(crate) fn first(&self, place: usize) -> Option<&A>
        ensures { MatchOption result (HasNone A.event place self.now)
            (λ x. IsFirstItem A.event place self.now x.now) }
    {
        let position = first_position(&self.lanes, place)?;
        let index = position - (self.pushed - self.slots.len());
        self.slots[index].as_ref()
    }

    // Takes the first arrival of the role at this place out.
    fn pop(&mut self, place: usize) -> Option<A>
        ensures roles { self.new.roles ≡ self.old.roles }
        ensures pushed { self.new.pushed ≡ self.old.pushed }
        ensures fits { self.new.pushed < 2 ^ 64 }
        ensures taken { MatchOption result (HasNone A.event place self.old)
            (λ x. TakesFirst A.event place self.old self.new x) }
    {
        let position = pop_position(&mut self.lanes, place)?;
        let index = position - (self.pushed - self.slots.len());
        let arrival = self.slots[index].take();
        trim(&mut self.slots);
        arrival
    }

    /// Takes the first arrival of the role at this place out, where there is one.
    pub(crate) fn take_first(&mut self, place: usize) -> A
        requires { HasNone A.event place self.old → ⊥ }
        ensures roles { self.new.roles ≡ self.old.roles }
        ensures pushed { self.new.pushed ≡ self.old.pushed }
        ensures fits { self.new.pushed < 2 ^ 64 }
        ensures taken { TakesFirst A.event place self.old self.new result }
    {
        match self.pop(place) {
            Some(arrival) => arrival,
            None => unreachable!(),
        }
    }

    /// What waits, in order of arrival.
    ///
    /// # Errors
    /// `AllocError` where memory is refused.
    pub(crate) fn into_vec(self) -> Result<Vec<A>, AllocError>
        ensures { IfOk result (λ items. items.items ≡ self.items) }
    {
        let mut items = Vec::new(*self.lanes.allocator());
        for slot in self.slots {
            push_item(&mut items, slot)?;
        }
        Ok(items)
    }
}

// Puts an empty slot behind the others. None is needed where there are no others.
fn push_empty<A: Drop>(slots: &mut VecDeque<Option<A>>) -> Result<(), AllocError>
    ensures ok { OnOk result (IsSlotSkipped slots.old.items slots.new.items) }
    ensures err { OnErr result (slots.new.items ≡ slots.old.items) }
{
    if slots.is_empty() {
        return Ok(());
    }
    slots.push_back(None)?;
    Ok(())
}

// Removes the empty slots at the front.
fn trim<A: Drop>(slots: &mut VecDeque<Option<A>>)
    ensures trimmed { IsTrimmed slots.old.items slots.new.items }
    ensures full { StartsFull slots.new.items }
{
    while let Some(None) = slots.front() {
        let _empty = slots.pop_front();
    }
}

// Puts what the slot has behind the items.
fn push_item<A: Drop>(items: &mut Vec<A>, slot: Option<A>) -> Result<(), AllocError>
    ensures { OnOk result (items.new.items ≡ items.old.items ++ waiting_items (slot ∷ [])) }
{
    if let Some(item) = slot {
        items.push(item)?;
    }
    Ok(())
}
