//! What a step came to.

use scrib_labelled::labelled_monitor::Change;

/// What a step came to.
#[derive(Clone, Copy)]
pub(crate) struct Outcome {
    /// What changed in which conversations are open.
    pub(crate) change: Change,
    /// Whether the step was accepted.
    pub(crate) accepted: bool,
}
