//! Makes the step of an item or of a short line of a script, and gathers the reply.

ghost use Rattle.std.specs.Prelude.{◌≡◌, ◌≢◌, ◌++◌, true, Some, IfErr, IsTrue, OnOk, OnErr};
ghost use Rattle.scrib_core.specs.Held.{state_of};
ghost use Rattle.scrib_core.specs.declared.format.Format.TheVariants as format;
ghost use Rattle.scrib_core.specs.declared.step.Step.TheVariants.{Ask, Note, Open};
ghost use Rattle.scrib_core.specs.declared.reply.Reply.TheVariants.{Refused};
ghost use Rattle.scrib_core.specs.declared.reply.Refusal.TheVariants.{OutOfMemory};
ghost use Rattle.scrib_script_reader.specs.declared.item.Item.TheVariants as item;
ghost use Rattle.scrib_cli.specs.declared.output_mode.OutputMode.TheVariants.{Printed};
ghost use Rattle.scrib_cli.specs.Requests.{OfStep};
ghost use Rattle.scrib_cli.specs.Progress.{IsReplyShown, IsCarriedOut, IsShortCarriedOut, bad_line_shown, end_shown};
ghost use Rattle.scrib_script_io.specs.Faults.{of_output};

use crate::gathered::Gathered;
use crate::output_mode::OutputMode;
use scrib_core::format::Format;
use scrib_core::monitor::Core;
use scrib_core::reply::{Refusal, Reply, note_reply, open_reply};
use scrib_core::step::Step;
use scrib_report::part::OutputPart;
use scrib_report::printing::reply_format;
use scrib_script_io::fault::ScriptFault;
use scrib_script_reader::item::Item;
use scrib_script_reader::short_line::ShortLine;
use scrib_sweep::sweep::sweep;
use scrib_types::name::Dotted;
use scrib_types::shared_event::SharedEvent;

// Gathers the reply to a step whose line asks for this format. In silent mode fails where the step was refused memory.
fn gather_reply(
    gathered: &mut Gathered,
    reply: &Reply,
    asked: Format,
    output_mode: OutputMode,
) -> Result<(), ScriptFault>
    ensures ok { OnOk result (IsReplyShown
        output_mode asked (OfStep reply.now) (Some gathered.old.bytes.items) (Some gathered.new.bytes.items)) }
    ensures err { OnErr result (gathered.new.bytes.items ≡ gathered.old.bytes.items) }
    ensures fault { IfErr result (λ e. of_output e ≡ true) }
{
    match output_mode {
        OutputMode::Printed(output) => {
            let format = reply_format(output, asked);
            gathered.add_reply(reply, format)?;
            Ok(())
        }
        OutputMode::Silent => check_memory(reply),
    }
}

// Fails where the reply is a refusal for want of memory.
fn check_memory(reply: &Reply) -> Result<(), ScriptFault>
    ensures ok { OnOk result (reply.now ≢ Refused OutOfMemory) }
    ensures err { OnErr result (reply.now ≡ Refused OutOfMemory) }
    ensures fault { IfErr result (λ e. of_output e ≡ true) }
{
    match reply {
        Reply::Refused(Refusal::OutOfMemory) => Err(ScriptFault::OutOfMemory),
        _ => Ok(()),
    }
}

// Gathers the report of a bad line of this number; in silent mode gathers nothing.
#[inline(never)]
fn gather_bad_line(
    gathered: &mut Gathered,
    number: u64,
    output_mode: OutputMode,
) -> Result<(), ScriptFault>
    ensures ok { OnOk result
        (gathered.new.bytes.items ≡ gathered.old.bytes.items ++ bad_line_shown output_mode number) }
    ensures err { OnErr result (gathered.new.bytes.items ≡ gathered.old.bytes.items) }
    ensures fault { IfErr result (λ e. of_output e ≡ true) }
{
    match output_mode {
        OutputMode::Printed(format) => {
            gathered.add_bad_line(number, format)?;
            Ok(())
        }
        OutputMode::Silent => Ok(()),
    }
}

// Gathers the report of an end inside a module text; in silent mode gathers nothing.
fn gather_end(gathered: &mut Gathered, output_mode: OutputMode) -> Result<(), ScriptFault>
    ensures ok { OnOk result
        (gathered.new.bytes.items ≡ gathered.old.bytes.items ++ end_shown output_mode) }
    ensures err { OnErr result (gathered.new.bytes.items ≡ gathered.old.bytes.items) }
    ensures fault { IfErr result (λ e. of_output e ≡ true) }
{
    match output_mode {
        OutputMode::Printed(format) => {
            gathered.add_part(&OutputPart::EndOfText, format)?;
            Ok(())
        }
        OutputMode::Silent => Ok(()),
    }
}

// Notes the event and gathers the reply to this step, whose line asks for no format.
//
// Fails where there is no memory for the text, or in silent mode for the step. The gathered texts are then unchanged.
#[inline(always)]
fn gather_note(
    gathered: &mut Gathered,
    core: &mut Core,
    id: u32,
    event: SharedEvent,
    output_mode: OutputMode,
) -> Result<(), ScriptFault>
    ensures ok { OnOk result (IsCarriedOut output_mode (item.Step format.Line (Note id event))
        (state_of core.old) (state_of core.new) (Some gathered.old.bytes.items) (Some gathered.new.bytes.items)) }
    ensures err { OnErr result (gathered.new.bytes.items ≡ gathered.old.bytes.items) }
    ensures fault { IfErr result (λ e. of_output e ≡ true) }
{
    let noted = core.note_event(id, event);
    match output_mode {
        OutputMode::Printed(format) => {
            gathered.add_noted(id, noted, format)?;
            Ok(())
        }
        OutputMode::Silent => check_memory(&note_reply(id, noted)),
    }
}

// Asks for the verdict on the conversation and gathers the reply to this step, whose line asks for no format.
//
// Fails where there is no memory for the text, or in silent mode for the step. The gathered texts are then unchanged.
#[inline(never)]
fn gather_asked(
    gathered: &mut Gathered,
    core: &mut Core,
    id: u32,
    output_mode: OutputMode,
) -> Result<(), ScriptFault>
    ensures ok { OnOk result (IsCarriedOut output_mode (item.Step format.Line (Ask id))
        (state_of core.old) (state_of core.new) (Some gathered.old.bytes.items) (Some gathered.new.bytes.items)) }
    ensures err { OnErr result (gathered.new.bytes.items ≡ gathered.old.bytes.items) }
    ensures fault { IfErr result (λ e. of_output e ≡ true) }
{
    // most questions of a long script
    if prints_lines(output_mode) && core.is_permitted(id) {
        gathered.add_permitted_verdict(id)?;
        return Ok(());
    }
    gather_step(gathered, core, Step::Ask { id }, output_mode)
}

// Returns whether replies are printed as lines of text, where a line asks for no format.
fn prints_lines(output_mode: OutputMode) -> bool
    ensures { IsTrue result → output_mode ≡ Printed format.Line }
{
    matches!(output_mode, OutputMode::Printed(Format::Line))
}

// Opens the conversation and gathers the reply to this step, whose line asks for no format.
//
// Fails where there is no memory for the text, or in silent mode for the step. The gathered texts are then unchanged.
#[inline(never)]
fn gather_opened(
    gathered: &mut Gathered,
    core: &mut Core,
    id: u32,
    name: &Dotted,
    output_mode: OutputMode,
) -> Result<(), ScriptFault>
    ensures ok { OnOk result (IsCarriedOut output_mode (item.Step format.Line (Open id name.now))
        (state_of core.old) (state_of core.new) (Some gathered.old.bytes.items) (Some gathered.new.bytes.items)) }
    ensures err { OnErr result (gathered.new.bytes.items ≡ gathered.old.bytes.items) }
    ensures fault { IfErr result (λ e. of_output e ≡ true) }
{
    let opened = core.open_conversation(id, name);
    match output_mode {
        OutputMode::Printed(format) => {
            gathered.add_opened(id, opened, format)?;
            Ok(())
        }
        OutputMode::Silent => check_memory(&open_reply(id, opened)),
    }
}

// Makes the step, whose line asks for no format, and gathers its reply.
//
// Fails where there is no memory for the text, or in silent mode for the step. The gathered texts are then unchanged.
#[inline(never)]
fn gather_step(
    gathered: &mut Gathered,
    core: &mut Core,
    step: Step,
    output_mode: OutputMode,
) -> Result<(), ScriptFault>
    ensures ok { OnOk result (IsCarriedOut output_mode (item.Step format.Line step)
        (state_of core.old) (state_of core.new) (Some gathered.old.bytes.items) (Some gathered.new.bytes.items)) }
    ensures err { OnErr result (gathered.new.bytes.items ≡ gathered.old.bytes.items) }
    ensures fault { IfErr result (λ e. of_output e ≡ true) }
{
    let reply = core.apply(step);
    gather_reply(gathered, &reply, Format::Line, output_mode)
}

// Sweeps the stale conversations, and gathers the reply to this, whose line asks for this format.
//
// Fails where there is no memory for the text, or in silent mode for a turn. The gathered texts are then unchanged.
#[inline(never)]
fn gather_sweep(
    gathered: &mut Gathered,
    core: &mut Core,
    asked: Format,
    output_mode: OutputMode,
) -> Result<(), ScriptFault>
    ensures ok { OnOk result (IsCarriedOut output_mode (item.Sweep asked)
        (state_of core.old) (state_of core.new) (Some gathered.old.bytes.items) (Some gathered.new.bytes.items)) }
    ensures err { OnErr result (gathered.new.bytes.items ≡ gathered.old.bytes.items) }
    ensures fault { IfErr result (λ e. of_output e ≡ true) }
{
    let swept = sweep(gathered.alloc(), core);
    match output_mode {
        OutputMode::Printed(output) => {
            let format = reply_format(output, asked);
            gathered.add_swept(swept, format)?;
            Ok(())
        }
        OutputMode::Silent => match swept {
            Ok(_judged) => Ok(()),
            Err(_) => Err(ScriptFault::OutOfMemory),
        },
    }
}

/// Does what the line spells, and gathers what is written for it.
///
/// # Errors
/// `OutOfMemory` where there is no memory for a text, or in silent mode for the step. The gathered texts are then
/// unchanged.
#[inline(always)]
pub fn gather_short(
    gathered: &mut Gathered,
    core: &mut Core,
    line: ShortLine,
    output_mode: OutputMode,
) -> Result<(), ScriptFault>
    ensures ok { OnOk result (IsShortCarriedOut output_mode line
        (state_of core.old) (state_of core.new) (Some gathered.old.bytes.items) (Some gathered.new.bytes.items)) }
    ensures err { OnErr result (gathered.new.bytes.items ≡ gathered.old.bytes.items) }
    ensures fault { IfErr result (λ e. of_output e ≡ true) }
{
    match line {
        // most lines of a long script
        ShortLine::Note { id, event } => gather_note(gathered, core, id, event, output_mode),
        ShortLine::Ask { id } => gather_asked(gathered, core, id, output_mode),
        ShortLine::Open { id, name } => gather_opened(gathered, core, id, &name, output_mode),
        ShortLine::Bad(number) => gather_bad_line(gathered, number, output_mode),
        ShortLine::Skipped => Ok(()),
    }
}

/// Makes the item's step or sweep and gathers its reply; or gathers a bad line, or an end inside a module text.
///
/// # Errors
/// `OutOfMemory` where there is no memory for a text, or in silent mode for the step or sweep. The gathered texts are
/// then unchanged.
pub fn gather_item(
    gathered: &mut Gathered,
    core: &mut Core,
    item: Item,
    output_mode: OutputMode,
) -> Result<(), ScriptFault>
    ensures ok { OnOk result (IsCarriedOut output_mode item
        (state_of core.old) (state_of core.new) (Some gathered.old.bytes.items) (Some gathered.new.bytes.items)) }
    ensures err { OnErr result (gathered.new.bytes.items ≡ gathered.old.bytes.items) }
    ensures fault { IfErr result (λ e. of_output e ≡ true) }
{
    match item {
        Item::Step(asked, step) => {
            let reply = core.apply(step);
            gather_reply(gathered, &reply, asked, output_mode)
        }
        Item::Sweep(asked) => gather_sweep(gathered, core, asked, output_mode),
        Item::BadLine(number) => gather_bad_line(gathered, number, output_mode),
        Item::EndOfText => gather_end(gathered, output_mode),
    }
}
