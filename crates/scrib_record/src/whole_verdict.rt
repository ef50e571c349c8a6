//! The verdict on a whole log.

use scrib_types::event::Verdict;

/// The verdict on all events of a log. `complete` is whether it is `Permitted`, no role has a further action, and no
/// message is in flight.
#[derive(Drop)]
pub struct WholeVerdict {
    pub verdict: Verdict,
    pub complete: bool,
}
