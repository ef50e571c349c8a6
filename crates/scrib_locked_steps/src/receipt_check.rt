//! The comparison of receipts with a log.

ghost use Rattle.std.specs.Prelude.{◌≡◌, ◌↔◌, ◌∷◌, [], IsTrue};
ghost use Rattle.scrib_locked_steps.specs.Receipts.{entry_at, AgreesWith, IsFirstMismatch, min_place};

use crate::pass::Receipt;
use scrib_types::shared_event::SharedEvent;

/// Returns the least place of a receipt that differs from the log.
pub fn first_mismatch(log: &[SharedEvent], receipts: &[Receipt]) -> Option<usize>
    ensures { IsFirstMismatch log.now receipts.now result }
{
    let mut least = None;
    for receipt in receipts {
        if !is_entry(log, receipt.place, &receipt.event) {
            least = Some(min_place(receipt.place, least));
        }
    }
    least
}

/// Whether the event is the log's entry at the place, from 1.
pub fn is_entry(log: &[SharedEvent], place: usize, event: &SharedEvent) -> bool
    ensures { IsTrue result ↔ (entry_at place log.now ≡ event.now ∷ []) }
{
    if place == 0 {
        return false;
    }
    match log.get(place - 1) {
        Some(entry) => entry.equal(event),
        None => false,
    }
}

/// Returns the lesser of the two places, or the first if the second is missing.
pub fn min_place(place: usize, other: Option<usize>) -> usize
    ensures { result ≡ min_place place other }
{
    match other {
        None => place,
        Some(other) => other.min(place),
    }
}
