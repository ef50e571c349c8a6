//! The diagram of an open conversation.

ghost use Rattle.std.specs.Prelude.{◌≡◌, Some, true, IfOk, IfErr};
ghost use Rattle.std.specs.Option.{option_map};
ghost use Rattle.scrib_types.specs.Meaning.{agreement_of};
ghost use Rattle.scrib_global.specs.Offences.{Offends};
ghost use Rattle.scrib_script_io.specs.declared.fault.ScriptFault.TheVariants as fault;
ghost use Rattle.scrib_show.specs.ChartLines.{chart_text};
ghost use Rattle.scrib_show.specs.Charts.{IsChart};

use crate::chart::push_chart;
use crate::notes::push_offence_note;
use crate::offence::{before_offence, offence_reason};
use scrib_cli::explanation::refusal;
use scrib_global::explain::{Flight, explain};
use scrib_global::fault::ExplainFault;
use scrib_script_io::fault::ScriptFault;
use scrib_types::protocol::Protocol;
use scrib_types::shared_event::SharedEvent;
use std::alloc::{AllocError, Global};

// The diagram of a log whose protocol has this meaning, if it has one, and whether there is a diagram. It fails where
// memory is refused, as do the functions below.
pub(crate) fn chart_page(
    alloc: Global,
    log: &[SharedEvent],
    protocol: Option<&Protocol>,
) -> Result<(bool, Vec<u8>), ScriptFault>
    ensures chart { IfOk result (λ r.
        IsChart log.now (option_map (λ p. agreement_of p.now) protocol.entry) r.0 r.1.items) }
    ensures fault { IfErr result (λ e. e ≡ fault.OutOfMemory) }
{
    let Some(protocol) = protocol else {
        return Ok((false, refusal(alloc, b"UnknownProtocol")?));
    };
    match explain(alloc, protocol, log) {
        Ok(flights) => Ok((
            true,
            permitted_chart(alloc, protocol, log, flights.as_slice())?,
        )),
        Err(ExplainFault::NotPermitted { place }) => {
            Ok((true, offence_chart(alloc, protocol, log, place - 1)?))
        }
        Err(ExplainFault::OutOfMemory) => Err(ScriptFault::OutOfMemory),
    }
}

// The diagram of a permitted log, after which these messages are in flight.
fn permitted_chart(
    alloc: Global,
    protocol: &Protocol,
    log: &[SharedEvent],
    flights: &[Flight],
) -> Result<Vec<u8>, AllocError>
    ensures { IfOk result (λ text.
        text.items ≡ chart_text (agreement_of protocol.now).roles log.now flights.now) }
{
    let mut out = Vec::new(alloc);
    push_chart(&mut out, protocol.roles(), log, flights)?;
    Ok(out)
}

// The diagram where the event at this index is the first offence.
fn offence_chart(
    alloc: Global,
    protocol: &Protocol,
    log: &[SharedEvent],
    at: usize,
) -> Result<Vec<u8>, AllocError>
    requires { Offends (agreement_of protocol.now) log.now at }
    ensures { IfOk result (λ text. IsChart log.now (Some (agreement_of protocol.now)) true text.items) }
{
    let before = before_offence(alloc, protocol, log, at)?;
    let reason = offence_reason(alloc, protocol, log, at)?;
    let mut out = Vec::new(alloc);
    push_chart(
        &mut out,
        protocol.roles(),
        &log[..at],
        before.flights.as_slice(),
    )?;
    push_offence_note(
        &mut out,
        protocol.roles().len(),
        at + 1,
        log[at].get(),
        reason,
    )?;
    Ok(out)
}
