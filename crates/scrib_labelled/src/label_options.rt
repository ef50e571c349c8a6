//! How a script with labels is run.

use scrib_core::format::Format;

/// How the lines of a script are spelled, and which labels they have.
#[derive(Clone, Copy)]
pub struct LabelOptions {
    /// Whether a line may begin with `@` and a tag.
    pub tags: bool,
    /// Whether conversations have names in place of numbers.
    pub names: bool,
    /// Whether each line is a JSON object. A tag and a name are then members of it.
    pub objects: bool,
}

/// How a script with labels is run.
#[derive(Clone, Copy)]
pub struct LabelledStyle {
    /// The labels of its lines.
    pub labels: LabelOptions,
    /// Whether each conversation is closed once it is complete.
    pub closes: bool,
    /// The format of a reply whose line asks for no other.
    pub format: Format,
    /// Whether objects have the number of the line that they answer, and refusals the conversation of their step.
    pub lines: bool,
}
