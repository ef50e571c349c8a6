//! Makes steps, and closes the conversations that they complete.

ghost use Rattle.std.specs.Prelude.{◌≡◌, ◌++◌, ◌∷◌, [], true, IfErr, OnOk, OnErr};
ghost use Rattle.scrib_core.specs.Answers.{IsAnswered};
ghost use Rattle.scrib_core.specs.Held.{state_of};
ghost use Rattle.scrib_core.specs.declared.format.Format.TheVariants as formats;
ghost use Rattle.scrib_core.specs.declared.reply.Reply.{Reply};
ghost use Rattle.scrib_core.specs.declared.step.Step.TheVariants.{Close, Note};
ghost use Rattle.scrib_report.specs.ReplyTexts.{reply_text};
ghost use Rattle.scrib_script_io.specs.Faults.{of_output};
ghost use Rattle.scrib_script_reader.specs.declared.item.Item.TheVariants as item;
ghost use Rattle.scrib_closing.specs.Progress.{AreCarriedInPart, AreCarriedOut};

use crate::completion::{completed, is_accepted, is_send, judged_by};
use scrib_cli::gathered::Gathered;
use scrib_core::conversation_steps::Tested;
use scrib_core::format::Format;
use scrib_core::monitor::Core;
use scrib_core::reply::{Reply, close_reply};
use scrib_core::step::Step;
use scrib_report::printing::reply_format;
use scrib_script_io::fault::ScriptFault;
use scrib_types::shared_event::SharedEvent;

// Closes the conversation, and gathers the reply in this format. After an error the gathered texts are unchanged.
#[inline(never)]
fn gather_close(
    gathered: &mut Gathered,
    core: &mut Core,
    id: u32,
    format: Format,
) -> Result<(), ScriptFault>
    ensures ok { OnOk result ((r : Reply) × IsAnswered (state_of core.old) (Close id) r (state_of core.new)
        × (gathered.new.bytes.items ≡ gathered.old.bytes.items ++ reply_text format r)) }
    ensures made { (r : Reply) × IsAnswered (state_of core.old) (Close id) r (state_of core.new) }
    ensures err { OnErr result (gathered.new.bytes.items ≡ gathered.old.bytes.items) }
    ensures fault { IfErr result (λ e. of_output e ≡ true) }
{
    let closed = core.close_conversation(id);
    let reply = close_reply(id, closed);
    gathered.add_reply(&reply, format)?;
    Ok(())
}

/// Notes the event, whose line asks for no format, and gathers the reply. Where it completes the conversation, closes that
/// and gathers this reply too.
///
/// # Errors
/// `OutOfMemory` where there is no memory for a text. The first reply may be gathered then.
#[inline(always)]
pub(crate) fn gather_note(
    gathered: &mut Gathered,
    core: &mut Core,
    id: u32,
    event: SharedEvent,
    format: Format,
) -> Result<(), ScriptFault>
    ensures ok { OnOk result (AreCarriedOut format (item.Step formats.Line (Note id event) ∷ [])
        (state_of core.old) (state_of core.new) gathered.old.bytes.items gathered.new.bytes.items) }
    ensures err { OnErr result (AreCarriedInPart format (item.Step formats.Line (Note id event) ∷ [])
        (state_of core.old) gathered.old.bytes.items gathered.new.bytes.items) }
    ensures fault { IfErr result (λ e. of_output e ≡ true) }
{
    if !is_send(&event) {
        return gather_tested(gathered, core, id, event, format);
    }
    // The message of a send is in flight then, so the conversation is not complete.
    let noted = core.note_event(id, event);
    gathered.add_noted(id, noted, format)?;
    Ok(())
}

// The same, with a test whether the conversation is complete.
#[inline(always)]
fn gather_tested(
    gathered: &mut Gathered,
    core: &mut Core,
    id: u32,
    event: SharedEvent,
    format: Format,
) -> Result<(), ScriptFault>
    ensures ok { OnOk result (AreCarriedOut format (item.Step formats.Line (Note id event) ∷ [])
        (state_of core.old) (state_of core.new) gathered.old.bytes.items gathered.new.bytes.items) }
    ensures err { OnErr result (AreCarriedInPart format (item.Step formats.Line (Note id event) ∷ [])
        (state_of core.old) gathered.old.bytes.items gathered.new.bytes.items) }
    ensures fault { IfErr result (λ e. of_output e ≡ true) }
{
    match core.note_and_test(id, event) {
        Ok(Tested { noted, complete }) => {
            gathered.add_noted(id, Ok(noted), format)?;
            if !complete {
                return Ok(());
            }
            gather_close(gathered, core, id, format)
        }
        Err(refusal) => {
            gathered.add_noted(id, Err(refusal), format)?;
            Ok(())
        }
    }
}

/// Makes the step, whose line asks for the format `asked`, and gathers the reply. Where it completes its conversation,
/// closes that and gathers this reply too.
///
/// # Errors
/// `OutOfMemory` where there is no memory for a text. The first reply may be gathered then.
pub(crate) fn gather_step(
    gathered: &mut Gathered,
    core: &mut Core,
    asked: Format,
    step: Step,
    output: Format,
) -> Result<(), ScriptFault>
    ensures ok { OnOk result (AreCarriedOut output (item.Step asked step ∷ [])
        (state_of core.old) (state_of core.new) gathered.old.bytes.items gathered.new.bytes.items) }
    ensures err { OnErr result (AreCarriedInPart output (item.Step asked step ∷ [])
        (state_of core.old) gathered.old.bytes.items gathered.new.bytes.items) }
    ensures fault { IfErr result (λ e. of_output e ≡ true) }
{
    let format = reply_format(output, asked);
    let judged = judged_by(&step);
    let reply = core.apply(step);
    gathered.add_reply(&reply, format)?;
    match completed(core, judged, is_accepted(&reply)) {
        Some(id) => gather_close(gathered, core, id, format),
        None => Ok(()),
    }
}
