//! What arrives.

ghost use Rattle.std.specs.Prelude.{◌≡◌};

use scrib_types::shared_event::SharedEvent;

/// What arrives: an event, and what is held with it, such as the number of its line.
pub trait Arrival: Drop {
    ghost use Rattle.scrib_types.specs.declared.event.Event.{Event};

    ghost event: { Self → Event };

    /// The event.
    fn event(&self) -> &SharedEvent
        ensures { result.now ≡ event self.now };
}

impl Arrival for SharedEvent {
    ghost event = { λ arrival. arrival };

    fn event(&self) -> &SharedEvent {
        self
    }
}

impl<T: Drop> Arrival for (SharedEvent, T) {
    ghost event = { λ arrival. arrival.0 };

    fn event(&self) -> &SharedEvent {
        &self.0
    }
}
