//! What is put in front of the line of a reply.

/// What the line of a reply begins with: the text of a tag, and a name in the place of the conversation's number.
#[derive(Clone, Copy)]
pub struct ReplyHead<'a> {
    /// `@`, the tag and a blank, or nothing.
    pub tag_text: &'a [u8],
    /// The name, if the conversation has one.
    pub name: Option<&'a [u8]>,
}
