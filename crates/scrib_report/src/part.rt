//! The parts of an output.

use scrib_core::ended::Ended;
use scrib_core::reply::Reply;
use scrib_types::event::Told;

/// A part of an output: what is printed at once.
#[derive(Clone, Copy)]
pub enum OutputPart<'a> {
    /// The reply to a step.
    Reply(&'a Reply),
    /// The verdict on a conversation that a service returns for a turn or a question.
    Judged { id: u32, verdict: &'a Told },
    /// The refusal of a pass whose receipt differs from the log of this conversation at this place.
    Mismatch { conversation: u32, place: usize },
    /// The reply to a sweep: how many conversations it judged.
    Swept(u64),
    /// A line of this number, from 1, that is no step.
    BadLine(u64),
    /// The end of a script inside a module text.
    EndOfText,
    /// The heading before the lines of the connection of this number.
    Connection(u64),
    /// The failure of a connection's reader.
    ReadFault,
    /// The table of settled conversations.
    Table(&'a [Ended]),
}
