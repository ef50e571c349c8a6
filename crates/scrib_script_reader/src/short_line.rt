//! Lines that are read without an `Item`.

use scrib_types::name::Dotted;
use scrib_types::shared_event::SharedEvent;

/// A line that is read without an `Item`. The reply to it is asked for as a line of text.
#[derive(Drop)]
pub enum ShortLine {
    /// The step `Note`: an exchange or a join.
    Note { id: u32, event: SharedEvent },
    /// The step `Ask`.
    Ask { id: u32 },
    /// The step `Open`.
    Open { id: u32, name: Dotted },
    /// A line that is no step, no comment and not empty: its number, from 1.
    Bad(u64),
    /// A comment.
    Skipped,
}
