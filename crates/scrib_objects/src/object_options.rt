//! Which members objects may have.

/// Which members objects may have.
#[derive(Clone, Copy)]
pub struct ObjectOptions {
    /// Whether a member `tag` is the line's tag. Else such a member is ignored.
    pub tags: bool,
    /// Whether a conversation may be a name, a string under the key `id`. Else it is a number.
    pub names: bool,
}
