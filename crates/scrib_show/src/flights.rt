//! The line of the messages in flight.

ghost use Rattle.std.specs.Prelude.{◌≡◌, ◌++◌, OnOk};
ghost use Rattle.scrib_show.specs.ShownLines as lines;

use scrib_global::explain::Flight;
use scrib_report::flight::push_flight;
use scrib_types::text::push_bytes;
use std::alloc::AllocError;

// Adds the line of the messages in flight, or nothing where there is none. It fails where memory for the longer text is
// refused, as do the functions below.
pub(crate) fn push_flights(
    out: &mut Vec<u8>,
    offends: bool,
    flights: &[Flight],
) -> Result<(), AllocError>
    ensures { OnOk result (out.new.items ≡ out.old.items ++ lines.flights_line offends flights.now) }
{
    match flights {
        [] => Ok(()),
        [first, others @ ..] => {
            push_bytes(out, heading(offends).as_bytes())?;
            push_flight(out, first)?;
            push_further(out, others)?;
            push_bytes(out, b"\n")
        }
    }
}

// Adds each message in flight after a comma and a blank.
fn push_further(out: &mut Vec<u8>, flights: &[Flight]) -> Result<(), AllocError>
    ensures { OnOk result (out.new.items ≡ out.old.items ++ lines.further_flights flights.now) }
{
    for flight in flights {
        push_bytes(out, b", ")?;
        push_flight(out, flight)?;
    }
    Ok(())
}

// What is in front of the messages in flight.
fn heading(offends: bool) -> &'static str
    ensures { result.now ≡ lines.flights_heading offends }
{
    if offends {
        "in flight before it: "
    } else {
        "in flight: "
    }
}
