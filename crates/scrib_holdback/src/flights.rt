//! How many messages were sent and received on each pair of roles.

ghost use Rattle.std.specs.Prelude.{◌≡◌, ◌<◌, ◌+◌, ◌^◌, ◌↔◌, ℕ, List, IsTrue, IsSome, IsNone, IfOk, IfSome, MatchOption, OnErr, None, Some, position};
ghost use Rattle.scrib_holdback.specs.Holdings.{is_between, received_on, sent_on};
ghost use Rattle.scrib_holdback.specs.Releases.{AreDistinctFlights, CountsEvent, HasFlight, IsFlightOf, IsPairAt, IsReceivable, KeepsFlights, SameCounts};

use scrib_types::event::Event;
use scrib_types::name::Role;
use std::alloc::AllocError;

/// A pair of roles, and how many messages from the one to the other were sent, and how many were received. A reception
/// that expired may be counted before its send. So there may be more receptions than sends.
#[derive(Drop)]
pub(crate) struct Flight {
    pub(crate) from: Role,
    pub(crate) to: Role,
    pub(crate) sent: usize,
    pub(crate) received: usize,
}

impl Flight {
    // Whether the flight is on the pair.
    #[inline(always)]
    fn is_between(&self, from: &Role, to: &Role) -> bool
        ensures { result ≡ is_between from.now to.now self.now }
    {
        self.from.equal(from) && self.to.equal(to)
    }
}

/// Makes room for the counts of the event's pair. Returns the index of its flight.
///
/// Of any pair there is one flight at most. The hint may be any index. It is where the flight of the pair is looked for
/// first.
///
/// # Errors
/// `AllocError` where memory or a reference count refuses it. The counts stay.
pub(crate) fn reserve(
    flights: &mut Vec<Flight>,
    hint: usize,
    event: &Event,
) -> Result<usize, AllocError>
    requires { AreDistinctFlights flights.old.items }
    ensures same { SameCounts flights.old.items flights.new.items }
    ensures kept { KeepsFlights flights.old.items flights.new.items }
    ensures made { IfOk result (IsFlightOf event.now flights.new.items) }
{
    match event {
        Event::Sent { from, to, .. } | Event::Received { from, to, .. } => {
            reserve_pair(flights, hint, from, to)
        }
        Event::Join { .. } => Ok(hint),
    }
}

/// Counts the event, whether it may happen next or not. Returns the index of its flight. The hint is as in
/// [`reserve`].
pub(crate) fn count(flights: &mut [Flight], hint: usize, event: &Event) -> usize
    requires distinct { AreDistinctFlights flights.old }
    requires paired { HasFlight flights.old event.now }
    requires sends { (p q : List ℕ) → sent_on p q flights.old + 1 < 2 ^ 64 }
    requires receptions { (p q : List ℕ) → received_on p q flights.old + 1 < 2 ^ 64 }
    ensures counted { CountsEvent event.now flights.old flights.new }
    ensures kept { KeepsFlights flights.old flights.new }
{
    let Some(place) = flight_of(flights, hint, event) else {
        unreachable!()
    };
    count_at(flights, place, event);
    place
}

/// Counts the event, if it may happen next. Returns the index of its flight then. Returns `None` also where the event
/// is the first send on its pair, and there is no memory for a flight. The hint is as in [`reserve`].
#[inline(always)]
pub(crate) fn count_ready(flights: &mut Vec<Flight>, hint: usize, event: &Event) -> Option<usize>
    requires distinct { AreDistinctFlights flights.old.items }
    requires sends { (p q : List ℕ) → sent_on p q flights.old.items + 1 < 2 ^ 64 }
    requires receptions { (p q : List ℕ) → received_on p q flights.old.items + 1 < 2 ^ 64 }
    ensures ready { IsSome result → IsReceivable flights.old.items event.now }
    ensures counted { IsSome result → CountsEvent event.now flights.old.items flights.new.items }
    ensures kept { KeepsFlights flights.old.items flights.new.items }
    ensures same { IsNone result → flights.new.items ≡ flights.old.items }
{
    let Some(place) = flight_of(flights, hint, event) else {
        return count_first(flights, event);
    };
    if !is_ready_at(flights, place, event) {
        return None;
    }
    count_at(flights, place, event);
    Some(place)
}

/// The index of the event's flight, if the event may happen next. Returns `None` also where the flight is missing. The
/// hint is as in [`reserve`].
#[inline(always)]
pub(crate) fn ready_flight(flights: &[Flight], hint: usize, event: &Event) -> Option<usize>
    requires { AreDistinctFlights flights.now }
    ensures at { IfSome result (IsFlightOf event.now flights.now) }
    ensures ready { IsSome result → IsReceivable flights.now event.now }
    ensures unready { IsNone result → HasFlight flights.now event.now → IsReceivable flights.now event.now → ⊥ }
{
    let Some(place) = flight_of(flights, hint, event) else {
        return None;
    };
    if !is_ready_at(flights, place, event) {
        return None;
    }
    Some(place)
}

// Counts the event, if it is a send, the first on its pair. Returns the index of the flight that it adds. Returns
// `None` also where there is no memory for the flight.
#[inline(never)]
fn count_first(flights: &mut Vec<Flight>, event: &Event) -> Option<usize>
    requires missing { HasFlight flights.old.items event.now → ⊥ }
    requires distinct { AreDistinctFlights flights.old.items }
    requires sends { (p q : List ℕ) → sent_on p q flights.old.items + 1 < 2 ^ 64 }
    requires receptions { (p q : List ℕ) → received_on p q flights.old.items + 1 < 2 ^ 64 }
    ensures ready { IsSome result → IsReceivable flights.old.items event.now }
    ensures counted { IsSome result → CountsEvent event.now flights.old.items flights.new.items }
    ensures kept { KeepsFlights flights.old.items flights.new.items }
    ensures same { IsNone result → flights.new.items ≡ flights.old.items }
{
    let Event::Sent { from, to, .. } = event else {
        return None;
    };
    let Ok(place) = add_pair(flights, from, to) else {
        return None;
    };
    count_at(flights, place, event);
    Some(place)
}

// The index of the flight of the event's pair. It is the hint for a join, which has none.
#[inline(always)]
fn flight_of(flights: &[Flight], hint: usize, event: &Event) -> Option<usize>
    requires { AreDistinctFlights flights.now }
    ensures { MatchOption result (HasFlight flights.now event.now → ⊥) (IsFlightOf event.now flights.now) }
{
    match event {
        Event::Sent { from, to, .. } | Event::Received { from, to, .. } => {
            place_of(flights, hint, from, to)
        }
        Event::Join { .. } => Some(hint),
    }
}

/// Whether the event, whose flight is at this index, may happen next.
#[inline(always)]
pub(crate) fn is_ready_at(flights: &[Flight], place: usize, event: &Event) -> bool
    requires { IsFlightOf event.now flights.now place }
    ensures { IsTrue result ↔ IsReceivable flights.now event.now }
{
    match event {
        Event::Received { .. } => flights[place].received < flights[place].sent,
        Event::Join { .. } | Event::Sent { .. } => true,
    }
}

/// Counts the event, whose flight is at this index.
#[inline(always)]
pub(crate) fn count_at(flights: &mut [Flight], place: usize, event: &Event)
    requires at { IsFlightOf event.now flights.old place }
    requires sends { (p q : List ℕ) → sent_on p q flights.old + 1 < 2 ^ 64 }
    requires receptions { (p q : List ℕ) → received_on p q flights.old + 1 < 2 ^ 64 }
    ensures counted { CountsEvent event.now flights.old flights.new }
    ensures kept { KeepsFlights flights.old flights.new }
{
    match event {
        Event::Sent { .. } => flights[place].sent += 1,
        Event::Received { .. } => flights[place].received += 1,
        Event::Join { .. } => {}
    }
}

// The index of the pair's flight. The hint is tried first.
#[inline(always)]
fn place_of(flights: &[Flight], hint: usize, from: &Role, to: &Role) -> Option<usize>
    requires { AreDistinctFlights flights.now }
    ensures { result ≡ position (is_between from.now to.now) flights.now }
{
    if is_at(flights, hint, from, to) {
        return Some(hint);
    }
    search(flights, from, to)
}

// Whether the pair's flight is at this index.
#[inline(always)]
fn is_at(flights: &[Flight], index: usize, from: &Role, to: &Role) -> bool
    ensures { IsTrue result → IsPairAt from.now to.now flights.now index }
{
    match flights.get(index) {
        Some(flight) => flight.is_between(from, to),
        None => false,
    }
}

// The index of the pair's first flight.
#[inline(never)]
fn search(flights: &[Flight], from: &Role, to: &Role) -> Option<usize>
    ensures { result ≡ position (is_between from.now to.now) flights.now }
{
    flights
        .iter()
        .position(|flight| flight.is_between(from, to))
}

// Adds the pair where it is missing. Returns the index of its flight.
fn reserve_pair(
    flights: &mut Vec<Flight>,
    hint: usize,
    from: &Role,
    to: &Role,
) -> Result<usize, AllocError>
    requires { AreDistinctFlights flights.old.items }
    ensures same { SameCounts flights.old.items flights.new.items }
    ensures kept { KeepsFlights flights.old.items flights.new.items }
    ensures made { IfOk result (λ place. position (is_between from.now to.now) flights.new.items ≡ Some place) }
{
    if let Some(place) = place_of(flights, hint, from, to) {
        return Ok(place);
    }
    let place = add_pair(flights, from, to)?;
    Ok(place)
}

// Adds the pair, which is missing. Returns the index of its flight.
fn add_pair(flights: &mut Vec<Flight>, from: &Role, to: &Role) -> Result<usize, AllocError>
    requires missing { position (is_between from.now to.now) flights.old.items ≡ None }
    requires distinct { AreDistinctFlights flights.old.items }
    ensures same { SameCounts flights.old.items flights.new.items }
    ensures kept { KeepsFlights flights.old.items flights.new.items }
    ensures made { IfOk result (λ place. position (is_between from.now to.now) flights.new.items ≡ Some place) }
    ensures err { OnErr result (flights.new.items ≡ flights.old.items) }
{
    let from = from.copy()?;
    let to = to.copy()?;
    let place = flights.len();
    flights.push(Flight {
        from,
        to,
        sent: 0,
        received: 0,
    })?;
    Ok(place)
}
