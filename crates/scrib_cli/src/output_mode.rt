//! Whether a run writes its replies.

use scrib_core::format::Format;

/// What a run does with replies, bad lines, and an end inside a module text.
#[derive(Clone, Copy)]
pub enum OutputMode {
    /// Writes a line for each, in this format where the script's line asks for none.
    Printed(Format),
    /// Writes nothing, and ends at a step that is refused memory.
    Silent,
}
