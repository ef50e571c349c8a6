//! The command `explain`: explains a conversation of a script.

ghost use Rattle.std.specs.Prelude.{◌≡◌, true, IfOk, IfErr, IfSome, OnOk, OnErr};
ghost use Rattle.std.specs.Option.{option_copied};
ghost use Rattle.scrib_cli.specs.Commands.{source, IsScriptExplained, IsScriptPartExplained};
ghost use Rattle.scrib_script_io.specs.Faults.{of_script};
ghost use Rattle.scrib_cli.specs.Faults.{script_fault};
ghost use Rattle.scrib_script_reader.specs.Limits.{of_scripts, IsWithinLimits};

use crate::commands::fault::CommandFault;
use crate::commands::folder::Folder;
use crate::commands::opened::Opened;
use crate::commands::script_input::ScriptInput;
use crate::commands::source::Source;
use crate::explain_script::{Explained, explain_script};
use std::alloc::Global;
use std::io::{Read, Write};

/// Explains a conversation of the input's script as `explain_script` does. Returns whether it wrote the messages in
/// flight, and not a refusal line.
///
/// # Errors
/// After an error, nothing or a prefix of the output is written.
/// - `Unopened` where the file can't be opened.
/// - `Unread` and `TooLong` where `explain_script` returns `Read`.
/// - `Unwritten` and `OutOfMemory` where `explain_script` returns `Write` and `OutOfMemory`.
pub fn explain<'a, F: Folder, R: Read + Drop, W: Write>(
    alloc: Global,
    id: u32,
    input: ScriptInput<'a, '_, F, R>,
    writer: &mut W,
) -> Result<bool, CommandFault<'a>>
    ensures ok { IfOk result (λ flights.
        IsScriptExplained id
        (source (F.text input.entry.folder.now) (option_copied input.entry.path) (R.remaining input.entry.reader))
        flights (W.contents writer.old) (W.contents writer.new)) }
    ensures err { OnErr result
        (IsScriptPartExplained id
        (source (F.text input.entry.folder.now) (option_copied input.entry.path) (R.remaining input.entry.reader))
        (W.contents writer.old) (W.contents writer.new)) }
    ensures fault { IfErr result (λ e. of_script (script_fault e) ≡ true) }
    ensures within { OnOk result
        (IfSome
        (source (F.text input.entry.folder.now) (option_copied input.entry.path) (R.remaining input.entry.reader))
        (λ input. IsWithinLimits of_scripts input)) }
{
    let ScriptInput {
        folder,
        path,
        reader,
    } = input;
    match path {
        None => {
            let script = Opened::new(Source::StandardInput, reader);
            explain_source(alloc, id, script, writer)
        }
        Some(path) => {
            let file = folder.open(path)?;
            let script = Opened::new(Source::named(path), file);
            explain_source(alloc, id, script, writer)
        }
    }
}

// The same with the script of this source.
fn explain_source<'a, R: Read + Drop, W: Write>(
    alloc: Global,
    id: u32,
    mut script: Opened<'a, R>,
    writer: &mut W,
) -> Result<bool, CommandFault<'a>>
    ensures ok { IfOk result (λ flights. IsScriptExplained id (R.remaining script.entry.reader.reader)
        flights (W.contents writer.old) (W.contents writer.new)) }
    ensures err { OnErr result (IsScriptPartExplained id (R.remaining script.entry.reader.reader)
        (W.contents writer.old) (W.contents writer.new)) }
    ensures fault { IfErr result (λ e. of_script (script_fault e) ≡ true) }
    ensures within { OnOk result
        (IfSome (R.remaining script.entry.reader.reader) (λ input. IsWithinLimits of_scripts input)) }
{
    match explain_script(alloc, &mut script.reader, id, writer) {
        Ok(explained) => Ok(explained == Explained::Flights),
        Err(fault) => Err(script.fault(&fault)),
    }
}
