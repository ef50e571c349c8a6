//! What is noted in long logs: that two roles join, and then that one sends and the other receives, over and over.

use crate::fault::RowsFault;
use scrib_core::step::Step;
use scrib_types::shared_event::SharedEvent;

/// How many events each log is given at most.
pub(crate) const PER_LOG: usize = 65_536;

/// A script of the events of a log: the two that join, and the two that follow one another then.
pub(crate) const EVENTS: &str = "join 0 A\njoin 0 B\nsend 0 A B a()\nrecv 0 A B a()\n";

/// The event of this place of a log, from 0, where the steps of the script are given.
pub(crate) fn event_at(steps: &[Step], place: usize) -> Result<SharedEvent, RowsFault> {
    let at = if place < 2 { place } else { 2 + place % 2 };
    match steps.get(at) {
        Some(Step::Note { event, .. }) => Ok(event.copy()?),
        _ => Err(RowsFault::Wrong),
    }
}
