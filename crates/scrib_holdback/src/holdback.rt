//! A holdback: what arrives waits until it may have happened.

ghost use Rattle.std.specs.Prelude.{◌≡◌, ◌+◌, ◌<◌, ◌≤◌, ◌++◌, ◌∷◌, ◌↔◌, ℕ, true, List, [], IfOk, IsFalse, IsTrue, OnOk, OnErr, MatchOption, Some, drop, length, map, slice_get, vec_capacity, vec_len};
ghost use Rattle.scrib_types.specs.Logs.{subject_of};
ghost use Rattle.scrib_holdback.specs.FalseAlarms.{RaisesNoFalseAlarm};
ghost use Rattle.scrib_holdback.specs.HoldBack.{IsHeldBack};
ghost use Rattle.scrib_holdback.specs.Holdings.{IsAfter, IsExpired, IsOldestWaiting, IsPushed, IsSameAfterAny, PassesAlone};
ghost use Rattle.scrib_holdback.specs.Releases.{HasDue, IsAppended, IsApart, IsDrained, IsDueOn, IsFlightOf, IsNextArrival, IsOldestOfRole, PassesAtOnce, IsQuiet, IsQuietAt, IsSameHolding, IsTakenOnto, OnlyReceivers, WaitsAt, is_send_to, own_items};
ghost use Rattle.scrib_holdback.specs.Reorderings.{IsReordering};

use crate::arrival::Arrival;
use crate::flights::{Flight, count, count_at, count_ready, is_ready_at, ready_flight, reserve};
use crate::lane_hints::LaneHints;
use crate::pair_hints::PairHints;
use crate::waiting::Waiting;
use scrib_types::event::Event;
use scrib_types::shared_event::SharedEvent;
use std::alloc::{AllocError, Global};
use std::marker::Model;

// Where the pair of an event is among the flights, and its role among the lanes. Any index is that of a join's pair.
#[derive(Clone, Copy)]
struct Places {
    pair: usize,
    lane: usize,
}

/// Holds arrivals of one conversation back. An arrival is released once it is the first of its role that waits, and
/// is a join, a send, or the reception of a message that a released send sent. What was released, and then what still
/// waits, raises no false alarm: it is permitted exactly where some order of the arrivals is that the roles may have
/// lived through.
///
/// Who can't wait for ever releases the oldest arrival as it is, though it may not have happened yet: it expires. What
/// is said of false alarms then holds no more. But of each role the arrivals are still in their order.
///
/// Contracts see the roles that were met, what waits, and how many messages were sent and received on each pair.
#[derive(Drop)]
pub struct Holdback<A: Arrival> {
    waiting: Waiting<A>,
    flights: Vec<Flight>,
    // Where the flights are, and the lanes of their roles. Correctness does not depend on them.
    hints: PairHints,
    lane_hints: LaneHints,
}

impl<A: Arrival> Model for Holdback<A> {
    ghost use Rattle.scrib_holdback.specs.Holdings.{Holding};
    ghost use Rattle.scrib_holdback.specs.Codes.{holding_code};
    ghost use Rattle.scrib_holdback.specs.Releases.{IsSound};

    ghost Value = { Holding A };

    ghost coded = { holding_code A.code };

    ghost view = { λ h. record { roles = h.waiting.roles; waiting = h.waiting.items; flights = h.flights.items } };

    ghost invariant = { λ h. IsSound A.event h.waiting.items h.flights.items h.waiting.pushed };
}

impl<A: Arrival> Holdback<A> {
    /// A holdback before the first arrival.
    pub fn new(alloc: Global) -> Holdback<A>
        ensures { IsAfter A.event [] [] [] result }
    {
        Holdback {
            waiting: Waiting::new(alloc),
            flights: Vec::new(alloc),
            hints: PairHints::new(),
            lane_hints: LaneHints::new(),
        }
    }

    /// Takes the next arrival by its event alone, if it is released at once and nothing waits of its role, nor of the role
    /// that it is sent to. The arrival isn't moved. Returns whether it is so. If not, nothing changes, and
    /// [`Holdback::push`] has to take the arrival. It returns `false` also where memory is refused. So it does while
    /// something waits, where the arrival is the first on its pair, or no hint leads to the lane of a role of the pair.
    #[inline(always)]
    pub fn try_pass(&mut self, event: &SharedEvent) -> bool
        ensures passed { IsTrue result → PassesAlone A.event event.now self.old self.new }
        ensures same { IsFalse result → self.new ≡ self.old }
    {
        if !self.waiting.is_idle() {
            return self.try_pass_among(event);
        }
        let hint = self.hints.hint(event);
        let Some(place) = count_ready(&mut self.flights, hint, event.get()) else {
            return false;
        };
        self.waiting.count_idle();
        self.hints.renew(event, hint, place);
        true
    }

    /// Takes the next arrival, and puts what is released then behind what `released` has.
    ///
    /// # Errors
    /// `AllocError` where memory or a reference count refuses it. Nothing is released, and the arrival is dropped.
    pub fn push(&mut self, arrival: A, released: &mut Vec<A>) -> Result<(), AllocError>
        ensures ok { OnOk result (IsPushed A.event arrival self.old self.new released.old.items released.new.items) }
        ensures err { OnErr result (IsSameAfterAny A.event self.old self.new) }
        ensures err_released { OnErr result (released.new.items ≡ released.old.items) }
    {
        if self.waiting.is_idle() {
            return self.push_idle(arrival, released);
        }
        self.push_among(arrival, released)
    }

    /// The arrival that has waited longest.
    pub fn oldest(&self) -> Option<&A>
        ensures { MatchOption result (self.now.waiting ≡ []) (λ x. IsOldestWaiting self.now.waiting x.now) }
    {
        self.waiting.oldest()
    }

    /// Releases the arrival that has waited longest as it is, and then what this makes possible. All are put behind
    /// what `released` has. Returns `false` where nothing waits.
    ///
    /// # Errors
    /// `AllocError` where `released` has no room and memory is refused. Nothing is released.
    pub fn release_oldest(&mut self, released: &mut Vec<A>) -> Result<bool, AllocError>
        ensures expired { IfOk result (λ some. IsTrue some
            → IsExpired A.event self.old self.new released.old.items released.new.items) }
        ensures none { IfOk result (λ some. IsFalse some → self.old.waiting ≡ []) }
        ensures unchanged { IfOk result (λ some. IsFalse some → IsSameAfterAny A.event self.old self.new) }
        ensures unreleased { IfOk result (λ some. IsFalse some → released.new.items ≡ released.old.items) }
        ensures err { OnErr result (IsSameAfterAny A.event self.old self.new) }
        ensures err_released { OnErr result (released.new.items ≡ released.old.items) }
    {
        let Some(place) = self.place_of_oldest() else {
            return Ok(false);
        };
        released.reserve(self.waiting.bound())?;
        let start = released.len();
        self.take_oldest(place, released);
        self.drain(place, released);
        self.drain_receivers(start, released);
        Ok(true)
    }

    /// What still waits, in order of arrival. It is released as it is, since nothing more arrives.
    ///
    /// A law, where nothing expired: what was released, and then what waits, raises no false alarm. It is permitted
    /// exactly where some reordering of the arrivals is, and then nothing waits. It is a reordering of the arrivals
    /// whatever expired.
    ///
    /// # Errors
    /// `AllocError` where memory is refused.
    pub fn finish(self) -> Result<Vec<A>, AllocError>
        ensures waiting { IfOk result (λ waiting. waiting.items ≡ self.waiting) }
        ensures held { IfOk result (λ waiting. (arrivals released : List A) → IsAfter A.event arrivals released [] self
            → IsHeldBack A.event arrivals released waiting.items) }
        ensures law { IfOk result (λ waiting. (arrivals released : List A) → IsAfter A.event arrivals released [] self
            → RaisesNoFalseAlarm A.event arrivals released waiting.items) }
        ensures reordering { IfOk result (λ waiting. (arrivals released expired : List A)
            → IsAfter A.event arrivals released expired self
            → IsReordering (map A.event arrivals) (map A.event (released ++ waiting.items))) }
    {
        let waiting = self.waiting.into_vec()?;
        Ok(waiting)
    }

    // The same where something waits.
    #[inline(never)]
    fn try_pass_among(&mut self, event: &SharedEvent) -> bool
        ensures passed { IsTrue result → PassesAlone A.event event.now self.old self.new }
        ensures same { IsFalse result → self.new ≡ self.old }
    {
        let unshared = event.get();
        let hint = self.hints.hint(event);
        if !self.is_apart(hint, unshared) {
            return false;
        }
        let Some(place) = ready_flight(&self.flights, hint, unshared) else {
            return false;
        };
        let Ok(()) = self.waiting.skip() else {
            return false;
        };
        count_at(&mut self.flights, place, unshared);
        self.hints.renew(event, hint, place);
        true
    }

    // Whether nothing waits of the event's role, nor of the role that it is sent to. The flight may be any index. Where
    // it is that of the event's pair, the roles are found at once. So it is in the functions below. They look no
    // further, since an arrival that is pushed renews the hints.
    #[inline(always)]
    fn is_apart(&self, flight: usize, event: &Event) -> bool
        ensures { IsTrue result → IsApart A.event event.now self.now }
    {
        self.has_idle_receiver(flight, event) && self.has_idle_subject(flight, event)
    }

    // Whether nothing waits of the role that the event is sent to. Only a send is sent.
    #[inline(always)]
    fn has_idle_receiver(&self, flight: usize, event: &Event) -> bool
        ensures { IsTrue result → (r : List ℕ) → is_send_to r event.now ≡ true
            → own_items A.event r self.now.waiting ≡ [] }
    {
        match event {
            Event::Sent { to, .. } => self
                .waiting
                .has_none_at(self.lane_hints.receiver(flight), to),
            Event::Join { .. } | Event::Received { .. } => true,
        }
    }

    // Whether nothing waits of the event's role. There is no hint for a join.
    #[inline(always)]
    fn has_idle_subject(&self, flight: usize, event: &Event) -> bool
        ensures { IsTrue result → own_items A.event (subject_of event.now) self.now.waiting ≡ [] }
    {
        let hint = self.lane_hints.subject(flight, event);
        match event {
            Event::Join { .. } => self.waiting.has_none(hint, event.subject()),
            Event::Sent { .. } | Event::Received { .. } => {
                self.waiting.has_none_at(hint, event.subject())
            }
        }
    }

    // The place of the oldest arrival's role.
    fn place_of_oldest(&self) -> Option<usize>
        ensures { MatchOption result (self.now.waiting ≡ []) (λ place. IsOldestOfRole A.event self.now place) }
    {
        let arrival = self.waiting.oldest()?;
        let shared = arrival.event();
        self.waiting
            .place_of(self.subject_hint(shared), shared.get().subject())
    }

    // The index at which the lane of the event's role may be.
    fn subject_hint(&self, event: &SharedEvent) -> usize {
        self.lane_hints.subject(self.hints.hint(event), event.get())
    }

    // Takes the next arrival, where nothing waits. No lane is added for one that is released at once. It is a function
    // of its own, so that it stays out of the code of the other pushes.
    #[inline(never)]
    fn push_idle(&mut self, arrival: A, released: &mut Vec<A>) -> Result<(), AllocError>
        ensures ok { OnOk result (IsPushed A.event arrival self.old self.new released.old.items released.new.items) }
        ensures err { OnErr result (IsSameAfterAny A.event self.old self.new) }
        ensures err_released { OnErr result (released.new.items ≡ released.old.items) }
    {
        released.reserve(1)?;
        if self.try_pass(arrival.event()) {
            released.push_reserved(arrival);
            return Ok(());
        }
        self.push_among(arrival, released)
    }

    // Takes the next arrival, whether something waits or not. Its role gets a lane.
    fn push_among(&mut self, arrival: A, released: &mut Vec<A>) -> Result<(), AllocError>
        ensures ok { OnOk result (IsPushed A.event arrival self.old self.new released.old.items released.new.items) }
        ensures err { OnErr result (IsSameAfterAny A.event self.old self.new) }
        ensures err_released { OnErr result (released.new.items ≡ released.old.items) }
    {
        let places = self.meet(arrival.event())?;
        self.push_at(places, arrival, released)
    }

    // Makes room for the counts of the event's pair, and for a lane of its role. Returns where both are.
    fn meet(&mut self, shared: &SharedEvent) -> Result<Places, AllocError>
        ensures same { IsSameHolding self.old self.new }
        ensures pair { IfOk result (λ places. IsFlightOf shared.now self.new.flights places.pair) }
        ensures lane { IfOk result (λ places. slice_get self.new.roles places.lane ≡ Some (subject_of shared.now)) }
    {
        let hint = self.hints.hint(shared);
        let event = shared.get();
        let pair = reserve(&mut self.flights, hint, event)?;
        self.hints.renew(shared, hint, pair);
        let hint = self.lane_hints.subject(pair, event);
        let lane = self.waiting.add_role(hint, event.subject())?;
        self.lane_hints.renew(pair, event, hint, lane);
        Ok(Places { pair, lane })
    }

    // Takes the next arrival, whose pair and role are at these places.
    fn push_at(
        &mut self,
        places: Places,
        arrival: A,
        released: &mut Vec<A>,
    ) -> Result<(), AllocError>
        requires pair { IsFlightOf (A.event arrival) self.old.flights places.pair }
        requires lane { slice_get self.old.roles places.lane ≡ Some (subject_of (A.event arrival)) }
        ensures ok { OnOk result (IsPushed A.event arrival self.old self.new released.old.items released.new.items) }
        ensures err { OnErr result (IsSameAfterAny A.event self.old self.new) }
        ensures err_released { OnErr result (released.new.items ≡ released.old.items) }
    {
        if !self.is_next(places, arrival.event()) {
            self.hold(places, arrival)?;
            return Ok(());
        }
        let start = released.len();
        self.pass(places.pair, arrival, released)?;
        self.drain_receivers(start, released);
        Ok(())
    }

    // Whether an arrival with this event is released at once.
    fn is_next(&self, places: Places, shared: &SharedEvent) -> bool
        requires pair { IsFlightOf shared.now self.now.flights places.pair }
        requires lane { slice_get self.now.roles places.lane ≡ Some (subject_of shared.now) }
        ensures { IsTrue result ↔ IsNextArrival A.event shared.now self.now }
    {
        self.waiting.is_empty_at(places.lane)
            && is_ready_at(&self.flights, places.pair, shared.get())
    }

    // Puts the arrival behind what waits.
    fn hold(&mut self, places: Places, arrival: A) -> Result<(), AllocError>
        requires pair { IsFlightOf (A.event arrival) self.old.flights places.pair }
        requires lane { slice_get self.old.roles places.lane ≡ Some (subject_of (A.event arrival)) }
        ensures ok { OnOk result (IsAppended A.event arrival self.old self.new) }
        ensures err { OnErr result (IsSameHolding self.old self.new) }
    {
        self.waiting.push(places.lane, arrival)?;
        Ok(())
    }

    // Releases the arrival, whose pair is at this place, at once. It makes room for all that may be released then.
    fn pass(&mut self, pair: usize, arrival: A, released: &mut Vec<A>) -> Result<(), AllocError>
        requires next { IsNextArrival A.event (A.event arrival) self.old }
        requires pair { IsFlightOf (A.event arrival) self.old.flights pair }
        ensures ok { OnOk result (PassesAtOnce A.event arrival self.old self.new) }
        ensures appended { OnOk result (released.new.items ≡ released.old.items ++ arrival ∷ []) }
        ensures room { OnOk result (vec_len released.new + length self.new.waiting ≤ vec_capacity released.new) }
        ensures err { OnErr result (IsSameHolding self.old self.new) }
        ensures err_released { OnErr result (released.new.items ≡ released.old.items) }
    {
        released.reserve(self.waiting.bound() + 1)?;
        self.waiting.skip()?;
        count_at(&mut self.flights, pair, arrival.event().get());
        released.push_reserved(arrival);
        Ok(())
    }

    // Releases the arrivals of the role at this place, as far as they may be.
    fn drain(&mut self, place: usize, released: &mut Vec<A>)
        requires { vec_len released.old + length self.old.waiting ≤ vec_capacity released.old }
        ensures drained { IsDrained A.event self.old self.new released.old.items released.new.items }
        ensures quiet { IsQuietAt A.event place self.new }
        ensures capacity { vec_capacity released.new ≡ vec_capacity released.old }
    {
        while let Some(pair) = self.due_pair(place) {
            self.take_due(place, pair, released);
        }
    }

    // Releases what the sends from this index on make possible.
    fn drain_receivers(&mut self, start: usize, released: &mut Vec<A>)
        requires { vec_len released.old + length self.old.waiting ≤ vec_capacity released.old }
        ensures drained { IsDrained A.event self.old self.new released.old.items released.new.items }
        ensures quiet { OnlyReceivers A.event (drop start released.old.items) self.old → IsQuiet A.event self.new }
    {
        let mut next = start;
        while next < released.len() {
            self.drain_receiver(next, released);
            next += 1;
        }
    }

    // Releases what the arrival at this index makes possible, where it is a send.
    fn drain_receiver(&mut self, index: usize, released: &mut Vec<A>)
        requires index { index < vec_len released.old }
        requires room { vec_len released.old + length self.old.waiting ≤ vec_capacity released.old }
        ensures drained { IsDrained A.event self.old self.new released.old.items released.new.items }
        ensures only { OnlyReceivers A.event (drop index released.old.items) self.old
            → OnlyReceivers A.event (drop (index + 1) released.new.items) self.new }
        ensures capacity { vec_capacity released.new ≡ vec_capacity released.old }
    {
        let shared = released[index].event();
        let flight = self.hints.hint(shared);
        if let Some(place) = self.receiver_of(flight, shared.get()) {
            self.drain(place, released);
        }
    }

    // The index of the flight of the first waiting arrival of the role at this place, if that may be released.
    fn due_pair(&self, place: usize) -> Option<usize>
        ensures { MatchOption result (IsQuietAt A.event place self.now) (IsDueOn A.event self.now place) }
    {
        let arrival = self.waiting.first(place)?;
        let shared = arrival.event();
        ready_flight(&self.flights, self.hints.hint(shared), shared.get())
    }

    // Takes the first waiting arrival of the role at this place out, whose flight is at this index. It counts it, and
    // puts it behind the others.
    fn take_due(&mut self, place: usize, pair: usize, released: &mut Vec<A>)
        requires due { IsDueOn A.event self.old place pair }
        requires room { vec_len released.old < vec_capacity released.old }
        ensures taken { IsTakenOnto A.event place self.old self.new released.old.items released.new.items }
        ensures roles { self.new.roles ≡ self.old.roles }
        ensures len { vec_len released.new ≡ vec_len released.old + 1 }
        ensures capacity { vec_capacity released.new ≡ vec_capacity released.old }
    {
        let arrival = self.waiting.take_first(place);
        count_at(&mut self.flights, pair, arrival.event().get());
        released.push_reserved(arrival);
    }

    // The same for the first arrival of the role at this place, which may not have happened yet.
    fn take_oldest(&mut self, place: usize, released: &mut Vec<A>)
        requires waits { WaitsAt A.event self.old place }
        requires room { vec_len released.old < vec_capacity released.old }
        ensures taken { IsTakenOnto A.event place self.old self.new released.old.items released.new.items }
        ensures roles { self.new.roles ≡ self.old.roles }
        ensures len { vec_len released.new ≡ vec_len released.old + 1 }
        ensures capacity { vec_capacity released.new ≡ vec_capacity released.old }
    {
        let arrival = self.waiting.take_first(place);
        let shared = arrival.event();
        let hint = self.hints.hint(shared);
        let pair = count(&mut self.flights, hint, shared.get());
        self.hints.renew(shared, hint, pair);
        released.push_reserved(arrival);
    }

    // The place of the role that a send is to. A role that has none has nothing that waits.
    fn receiver_of(&self, flight: usize, event: &Event) -> Option<usize>
        ensures { MatchOption result ((r : List ℕ) → is_send_to r event.now ≡ true → HasDue A.event r self.now → ⊥)
            (λ place. (r : List ℕ) → is_send_to r event.now ≡ true → slice_get self.now.roles place ≡ Some r) }
    {
        match event {
            Event::Sent { to, .. } => self.waiting.place_of(self.lane_hints.receiver(flight), to),
            Event::Join { .. } | Event::Received { .. } => None,
        }
    }
}

/// All arrivals of a conversation, held back: what was released, and what still waited at the end.
#[derive(Drop)]
pub struct HeldBack<A> {
    pub released: Vec<A>,
    pub waiting: Vec<A>,
}

/// Holds the arrivals of a whole conversation back.
///
/// A law: what was released, and then what waits, raises no false alarm. It is permitted exactly where some reordering
/// of the arrivals is, and then nothing waits.
///
/// # Errors
/// `AllocError` where memory or a reference count refuses it.
pub fn hold_back<A: Arrival>(alloc: Global, arrivals: Vec<A>) -> Result<HeldBack<A>, AllocError>
    ensures held { IfOk result (λ h. IsHeldBack A.event arrivals.items h.released.items h.waiting.items) }
    ensures law { IfOk result (λ h. RaisesNoFalseAlarm A.event arrivals.items h.released.items h.waiting.items) }
{
    let mut holdback = Holdback::new(alloc);
    let mut released = Vec::new(alloc);
    for arrival in arrivals {
        holdback.push(arrival, &mut released)?;
    }
    let waiting = holdback.finish()?;
    Ok(HeldBack { released, waiting })
}
