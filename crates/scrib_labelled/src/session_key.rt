//! Which conversation of a script is meant.

/// Which conversation of a script is meant.
#[derive(Clone, Copy)]
pub enum SessionKey<'a> {
    /// The conversation with this number.
    Number(u32),
    /// The conversation with this name.
    Name(&'a str),
}
