//! Hints for where the lanes of the roles of a flight are.

use scrib_types::event::Event;

/// The number of flights with hints. Most protocols have fewer pairs of roles that exchange messages.
const FLIGHTS: usize = 32;

/// For each of the first flights the index of its sender's lane, and of its receiver's. They are only hints: each caller
/// compares the role at that index.
#[derive(Clone, Copy)]
pub(crate) struct LaneHints {
    senders: [u8; FLIGHTS],
    receivers: [u8; FLIGHTS],
}

impl LaneHints {
    /// Returns hints that all lead to the first lane.
    pub(crate) fn new() -> LaneHints {
        LaneHints {
            senders: [0; FLIGHTS],
            receivers: [0; FLIGHTS],
        }
    }

    /// Returns the index at which the lane of the event's subject may be, where this may be the index of its flight.
    #[inline(always)]
    pub(crate) fn subject(&self, flight: usize, event: &Event) -> usize {
        match event {
            Event::Sent { .. } => place_in(&self.senders, flight),
            Event::Received { .. } => place_in(&self.receivers, flight),
            Event::Join { .. } => 0,
        }
    }

    /// Returns the index at which the lane of the receiver of a message may be, where this may be the index of its
    /// flight.
    #[inline(always)]
    pub(crate) fn receiver(&self, flight: usize) -> usize {
        place_in(&self.receivers, flight)
    }

    /// Keeps the index of the lane of the event's subject, where the hint was another. An index past 255 is not kept,
    /// and none of a join.
    #[inline(always)]
    pub(crate) fn renew(&mut self, flight: usize, event: &Event, hint: usize, lane: usize) {
        if lane != hint {
            self.keep(flight, event, lane);
        }
    }

    // Keeps the index of the lane of the event's subject.
    fn keep(&mut self, flight: usize, event: &Event, lane: usize) {
        match event {
            Event::Sent { .. } => keep_place(&mut self.senders, flight, lane),
            Event::Received { .. } => keep_place(&mut self.receivers, flight, lane),
            Event::Join { .. } => {}
        }
    }
}

// The index that is kept for the flight, or 0.
#[inline(always)]
fn place_in(places: &[u8; FLIGHTS], flight: usize) -> usize {
    match places.get(flight) {
        Some(place) => usize::from(*place),
        None => 0,
    }
}

// Keeps the index for the flight, if it is one of the first.
fn keep_place(places: &mut [u8; FLIGHTS], flight: usize, lane: usize) {
    let Ok(lane) = u8::try_from(lane) else {
        return;
    };
    if let Some(kept) = places.get_mut(flight) {
        *kept = lane;
    }
}
