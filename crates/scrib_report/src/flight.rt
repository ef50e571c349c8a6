//! The text of messages in flight.

ghost use Rattle.std.specs.Prelude.{◌≡◌, ◌++◌, OnOk};
ghost use Rattle.scrib_report.specs.Lines as lines;

use scrib_global::explain::Flight;
use scrib_types::text::{push_bytes, push_message};
use std::alloc::AllocError;

/// Appends the message in flight, as `A B hello()`: its sender, its receiver and the message.
///
/// # Errors
/// `AllocError` where memory for the longer text is refused.
#[tactic(auto, unfolding(crate::specs::Lines::flight_text))]
pub fn push_flight(out: &mut Vec<u8>, flight: &Flight) -> Result<(), AllocError>
    ensures { OnOk result (out.new.items ≡ out.old.items ++ lines.flight_text flight.now) }
{
    push_bytes(out, flight.from.as_bytes())?;
    push_bytes(out, b" ")?;
    push_bytes(out, flight.to.as_bytes())?;
    push_bytes(out, b" ")?;
    push_message(out, flight.message.get())
}
