//! A line of a script, with its number.

/// A line of a script, with its number.
#[derive(Clone, Copy)]
pub(crate) struct ScriptLine<'a> {
    /// The number, from 1.
    pub(crate) number: u64,
    /// The line, without its end.
    pub(crate) bytes: &'a [u8],
}
