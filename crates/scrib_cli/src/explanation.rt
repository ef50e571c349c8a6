//! The text that explains a conversation: its messages in flight, or a refusal.

ghost use Rattle.std.specs.Prelude.{◌≡◌, ◌++◌, IfOk, IfErr, codes};
ghost use Rattle.std.specs.Fmt.{decimal};
ghost use Rattle.scrib_core.specs.Held.{state_of};
ghost use Rattle.scrib_cli.specs.Explanations.{Explanation, flight_lines, refusal_line};
ghost use Rattle.scrib_script_io.specs.declared.fault.ScriptFault.TheVariants as fault;

use scrib_core::monitor::Core;
use scrib_global::explain::{Flight, explain};
use scrib_global::fault::ExplainFault;
use scrib_report::flight::push_flight;
use scrib_script_io::fault::ScriptFault;
use scrib_types::text::{push_bytes, push_number};
use std::alloc::{AllocError, Global};

/// The kind of an explanation.
#[derive(Clone, Copy, Debug, PartialEq, Eq)]
pub enum Explained {
    /// A line for each message in flight, none where nothing is in flight.
    Flights,
    /// One refusal line.
    Refused,
}

/// Returns the kind and the text of the explanation of the conversation.
///
/// # Errors
/// `OutOfMemory` where there is no memory for the text.
pub fn explanation(alloc: Global, core: &Core, id: u32) -> Result<(Explained, Vec<u8>), ScriptFault>
    ensures explained { IfOk result (λ r. Explanation (state_of core.now).world id r.0 r.1.items) }
    ensures fault { IfErr result (λ e. e ≡ fault.OutOfMemory) }
{
    let Some((protocol, log)) = core.view(id) else {
        let text = refusal(alloc, b"NoConversation")?;
        return Ok((Explained::Refused, text));
    };
    let Some(protocol) = protocol else {
        let text = refusal(alloc, b"UnknownProtocol")?;
        return Ok((Explained::Refused, text));
    };
    match explain(alloc, protocol, log) {
        Ok(flights) => Ok((Explained::Flights, flights_text(alloc, flights.as_slice())?)),
        Err(ExplainFault::NotPermitted { place }) => {
            Ok((Explained::Refused, not_permitted(alloc, place)?))
        }
        Err(ExplainFault::OutOfMemory) => Err(ScriptFault::OutOfMemory),
    }
}

/// Returns the refusal line of this word.
///
/// # Errors
/// `AllocError` where there is no memory for it.
pub fn refusal(alloc: Global, word: &[u8]) -> Result<Vec<u8>, AllocError>
    ensures { IfOk result (λ text. text.items ≡ refusal_line word.now) }
{
    let mut text = Vec::new(alloc);
    push_bytes(&mut text, b"refused ")?;
    push_bytes(&mut text, word)?;
    push_bytes(&mut text, b"\n")?;
    Ok(text)
}

// The refusal line of a log whose first offence is at this place.
pub(crate) fn not_permitted(alloc: Global, place: usize) -> Result<Vec<u8>, AllocError>
    ensures { IfOk result (λ text. text.items ≡ refusal_line (codes "NotPermitted " ++ decimal place)) }
{
    let mut word = Vec::new(alloc);
    push_bytes(&mut word, b"NotPermitted ")?;
    push_number(&mut word, place as u64)?;
    refusal(alloc, word.as_slice())
}

// A line for each message in flight.
fn flights_text(alloc: Global, flights: &[Flight]) -> Result<Vec<u8>, AllocError>
    ensures { IfOk result (λ text. text.items ≡ flight_lines flights.now) }
{
    let mut text = Vec::new(alloc);
    for flight in flights {
        push_flight(&mut text, flight)?;
        push_bytes(&mut text, b"\n")?;
    }
    Ok(text)
}
