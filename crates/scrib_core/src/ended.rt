//! A conversation at the end of its service.

use scrib_types::event::Told;
use scrib_types::name::Dotted;

/// A settled conversation: its id, the full name of its protocol, the number of events in its log, and the verdict.
#[derive(Drop)]
pub struct Ended {
    pub id: u32,
    pub name: Dotted,
    pub events: usize,
    pub told: Told,
}
