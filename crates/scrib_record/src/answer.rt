//! The reply of a record to a query.

use scrib_types::allowed::Allowed;
use scrib_types::name::Role;

/// The verdict of a record, borrowed from it, or that it is stale.
#[derive(Clone, Copy)]
pub enum Answer<'a> {
    /// The verdict is stale.
    Stale,
    /// The protocol permits the log.
    Permitted,
    /// The first event that broke the protocol: its place in the log from 1, its role, and the actions that the role
    /// was allowed there. They are sorted by their printed texts, without duplicates.
    Offence {
        place: usize,
        role: &'a Role,
        allowed: &'a Allowed,
    },
    /// The library has no such protocol.
    Withdrawn,
}
