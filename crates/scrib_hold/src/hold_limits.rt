//! The limits of a script whose events are held back.

use scrib_script_reader::limits::Limits;

/// The limits of a script whose events are held back.
#[derive(Clone, Copy, Debug, PartialEq, Eq)]
pub struct HoldLimits {
    /// Those of the script.
    pub script: Limits,
    /// The number of further entries that are read while an event waits, at most.
    pub bound: u64,
}
