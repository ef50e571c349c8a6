//! What is put back into the replies to a line.

/// What is put back into the replies to a line: its tag, and the name of its conversation. Objects may have its number
/// too, and that of its conversation where they report a refusal.
#[derive(Clone, Copy)]
pub struct Label<'a> {
    pub tag: Option<&'a [u8]>,
    pub name: Option<&'a [u8]>,
    /// The number of the line, if objects have it.
    pub line: Option<u64>,
    /// The number of the conversation of its step, if the object of a refusal has it.
    pub conversation: Option<u32>,
}
