//! The label of a line.

/// The name of a conversation, and the number that stands for it.
#[derive(Clone, Copy)]
pub struct Session<'a> {
    /// The name.
    pub name: &'a str,
    /// The number.
    pub number: u32,
}

/// The label of a line.
#[derive(Clone, Copy)]
pub struct LineParts<'a> {
    /// The number of the line, from 1.
    pub line: u64,
    /// The line, without its end. Of a line past the limit as much as is kept.
    pub text: &'a [u8],
    /// The tag, if the line has one.
    pub tag: Option<&'a [u8]>,
    /// The conversation, if the line names one.
    pub session: Option<Session<'a>>,
}
