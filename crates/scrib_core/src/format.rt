//! The format of a reply.

/// The format of a reply.
#[derive(Clone, Copy)]
pub enum Format {
    /// A line of text.
    Line,
    /// A line that is one compact JSON object.
    Json,
}
