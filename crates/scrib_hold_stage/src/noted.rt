//! Events of conversations, as a stage keeps them.

ghost use Rattle.std.specs.Prelude.{◌≡◌};

use scrib_holdback::arrival::Arrival;
use scrib_types::shared_event::SharedEvent;

/// An event of a conversation, with what arrived beside it. The time is the number of its entry in the script, from 1.
#[derive(Drop)]
pub struct Noted<A> {
    pub conversation: u32,
    pub time: u64,
    pub arrival: A,
}

impl<A: Arrival> Arrival for Noted<A> {
    ghost event = { λ noted. A.event noted.arrival };

    fn event(&self) -> &SharedEvent {
        self.arrival.event()
    }
}
