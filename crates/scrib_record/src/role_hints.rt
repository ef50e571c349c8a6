//! Hints for the places of roles among the roles of a protocol.

use scrib_types::hashing::{mix, slot_of};
use scrib_types::name::Role;

/// The number of slots: 2^6, which is the largest number of roles of a protocol.
const SLOTS: usize = 64;

/// For each slot the place of a role whose name hashes to it. It is only a hint: each caller compares the role at that
/// place.
#[derive(Clone, Copy)]
pub struct RoleHints {
    places: [u8; SLOTS],
}

impl RoleHints {
    /// Returns the hints for these roles. Of two roles with one slot it contains the last.
    pub fn new(roles: &[Role]) -> RoleHints {
        let mut places = [0; SLOTS];
        for (place, role) in (0..=u8::MAX).zip(roles) {
            if let Some(noted) = places.get_mut(role_slot(role)) {
                *noted = place;
            }
        }
        RoleHints { places }
    }

    /// Returns the place where the role may be.
    pub fn hint(&self, role: &Role) -> usize {
        match self.places.get(role_slot(role)) {
            Some(place) => usize::from(*place),
            None => 0,
        }
    }
}

// Returns the slot of a name by its last four bytes. Related roles often have names that begin alike.
fn role_slot(role: &Role) -> usize {
    let word = match role.as_bytes() {
        [.., a, b, c, d] => u32::from_le_bytes([*a, *b, *c, *d]),
        [a, b, c] => u32::from_le_bytes([*a, *b, *c, 0]),
        [a, b] => u32::from_le_bytes([*a, *b, 0, 0]),
        [a] => u32::from(*a),
        [] => 0,
    };
    slot_of(mix(0, u64::from(word)), SLOTS)
}
