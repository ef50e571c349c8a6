//! The form in which a conversation is shown.

/// The form in which a conversation is shown.
#[derive(Clone, Copy, Debug, PartialEq, Eq)]
pub enum ShowForm {
    /// Lines of text.
    Text,
    /// The text of a sequence diagram, which Mermaid draws.
    Chart,
}
