//! The forms in which a projection is printed.

/// The form in which a projection is printed.
#[derive(Clone, Copy)]
pub enum Form {
    /// The local type, in one line.
    Text,
    /// The machine, as a graph in the DOT language.
    Graph,
}
