//! What was listed of a text.

/// What was listed of a text.
#[derive(Clone, Copy, Debug, PartialEq, Eq)]
pub enum Listed {
    /// The text is a module: a line for each of its protocols.
    Protocols,
    /// The text is no module: one line with the refusal.
    Refusal,
}
