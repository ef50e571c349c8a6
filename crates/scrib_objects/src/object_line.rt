//! What an object stands for.

use scrib_core::format::Format;

/// What an object stands for, without its tag.
#[derive(Drop)]
pub enum ObjectBody {
    /// The bytes of a line, without its end.
    Line(Vec<u8>),
    /// A put of a module text, and the format of its reply.
    Put { format: Format, text: Vec<u8> },
    /// No line and no put: a member is missing or wrong.
    Bad,
}

/// What an object stands for.
#[derive(Drop)]
pub struct ObjectLine {
    pub tag: Option<Vec<u8>>,
    pub body: ObjectBody,
}
