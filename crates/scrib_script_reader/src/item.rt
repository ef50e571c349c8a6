//! The items that a script spells.

use scrib_core::format::Format;
use scrib_core::step::Step;

/// An item of a script.
#[derive(Drop)]
pub enum Item {
    /// A step, and the format of its reply.
    Step(Format, Step),
    /// A sweep: turns of every stale conversation. Its reply is printed in this format.
    Sweep(Format),
    /// A line that is no step, no comment and not empty: its number, from 1.
    BadLine(u64),
    /// The script ends inside a module text.
    EndOfText,
}
