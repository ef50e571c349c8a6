//! Places in a module's text.

/// A place in a module's text: the line from 1, and the column in bytes from 1.
#[derive(Clone, Copy, Debug, PartialEq, Eq)]
pub struct Spot {
    pub line: u32,
    pub column: u32,
}
