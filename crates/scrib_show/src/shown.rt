//! What is shown of the conversation of a monitor.

ghost use Rattle.std.specs.Prelude.{◌≡◌, length, Some, IfOk, IfErr};
ghost use Rattle.std.specs.Option.{option_map};
ghost use Rattle.scrib_types.specs.Meaning.{agreement_of};
ghost use Rattle.scrib_core.specs.Held.{state_of};
ghost use Rattle.scrib_global.specs.Offences.{Offends};
ghost use Rattle.scrib_script_io.specs.declared.fault.ScriptFault.TheVariants as fault;
ghost use Rattle.scrib_show.specs.Progress.{IsPaired, conversation_of, is_stale};
ghost use Rattle.scrib_show.specs.Shown.{Shown, IsPage};

use crate::after::after_log;
use crate::chart_page::chart_page;
use crate::line_monitor::LineMonitor;
use crate::offence::{before_offence, offence_reason};
use crate::page::{Page, offence_page, permitted_page, withdrawn_page};
use crate::show_form::ShowForm;
use scrib_cli::explanation::refusal;
use scrib_global::fault::ExplainFault;
use scrib_script_io::fault::ScriptFault;
use scrib_types::event::Told;
use scrib_types::protocol::Protocol;
use std::alloc::{AllocError, Global};

// What is shown of the monitor's conversation in this form, and whether that is no refusal. It fails where memory is
// refused, as do the functions below.
pub(crate) fn shown(
    alloc: Global,
    form: ShowForm,
    monitor: &LineMonitor,
) -> Result<(bool, Vec<u8>), ScriptFault>
    requires { IsPaired monitor.now }
    ensures shown { IfOk result (λ r.
        Shown form (state_of monitor.now.core) monitor.now.id monitor.now.numbers.items r.0 r.1.items) }
    ensures fault { IfErr result (λ e. e ≡ fault.OutOfMemory) }
{
    let Some((protocol, log)) = monitor.core.view(monitor.id) else {
        let text = refusal(alloc, b"NoConversation")?;
        return Ok((false, text));
    };
    let Ok(judged) = monitor.core.verdict_on(monitor.id) else {
        return Err(ScriptFault::OutOfMemory);
    };
    let page = Page {
        name: &judged.name,
        stale: is_stale(&judged.told),
        log,
        numbers: monitor.numbers.as_slice(),
    };
    match form {
        ShowForm::Text => Ok((true, page_text(alloc, page, protocol)?)),
        ShowForm::Chart => chart_page(alloc, log, protocol),
    }
}

// Whether this is reported as stale.
fn is_stale(told: &Told) -> bool
    ensures { result ≡ is_stale told.now }
{
    matches!(told, Told::Stale)
}

// The text of an open conversation, whose protocol has this meaning, if it has one.
fn page_text(
    alloc: Global,
    page: Page<'_>,
    protocol: Option<&Protocol>,
) -> Result<Vec<u8>, ScriptFault>
    requires { length page.numbers.now ≡ length page.log.now }
    ensures text { IfOk result (λ text.
        IsPage (conversation_of page.entry) page.entry.stale page.entry.numbers.now
        (option_map (λ p. agreement_of p.now) protocol.entry) text.items) }
    ensures fault { IfErr result (λ e. e ≡ fault.OutOfMemory) }
{
    let Some(protocol) = protocol else {
        return Ok(withdrawn_page(alloc, page)?);
    };
    match after_log(alloc, protocol, page.log) {
        Ok(after) => Ok(permitted_page(alloc, page, &after)?),
        Err(ExplainFault::NotPermitted { place }) => {
            Ok(offence_text(alloc, page, protocol, place - 1)?)
        }
        Err(ExplainFault::OutOfMemory) => Err(ScriptFault::OutOfMemory),
    }
}

// The text where the event at this index is the first offence. It fails where memory is refused.
fn offence_text(
    alloc: Global,
    page: Page<'_>,
    protocol: &Protocol,
    at: usize,
) -> Result<Vec<u8>, AllocError>
    requires paired { length page.numbers.now ≡ length page.log.now }
    requires offends { Offends (agreement_of protocol.now) page.log.now at }
    ensures { IfOk result (λ text.
        IsPage (conversation_of page.entry) page.entry.stale page.entry.numbers.now
        (Some (agreement_of protocol.now)) text.items) }
{
    let before = before_offence(alloc, protocol, page.log, at)?;
    let reason = offence_reason(alloc, protocol, page.log, at)?;
    offence_page(alloc, page, at, reason, &before)
}
