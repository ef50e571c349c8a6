//! What an edit changes.

use scrib_types::containers::Items;
use scrib_types::name::Dotted;

/// What an edit did to a protocol.
#[derive(Clone, Copy, Debug, PartialEq, Eq)]
pub enum ChangeKind {
    Added,
    Replaced,
    Withdrawn,
}

/// A protocol that an edit changed, by its full name.
#[derive(Drop)]
pub struct Change {
    pub kind: ChangeKind,
    pub name: Dotted,
}

/// What an edit of a module changed, in the order of names.
#[derive(Drop)]
pub struct Changes {
    pub module: Dotted,
    pub list: Items<Change>,
}
