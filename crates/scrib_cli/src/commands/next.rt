//! The command `next`: lists what each role of a conversation of a script may do next.

ghost use Rattle.std.specs.Prelude.{◌≡◌, true, IfOk, IfErr, IfSome, OnOk, OnErr};
ghost use Rattle.std.specs.Option.{option_copied};
ghost use Rattle.scrib_cli.specs.Commands.{source, IsScriptNext, IsScriptPartNext};
ghost use Rattle.scrib_script_io.specs.Faults.{of_script};
ghost use Rattle.scrib_cli.specs.Faults.{script_fault};
ghost use Rattle.scrib_script_reader.specs.Limits.{of_scripts, IsWithinLimits};

use crate::commands::fault::CommandFault;
use crate::commands::folder::Folder;
use crate::commands::opened::Opened;
use crate::commands::script_input::ScriptInput;
use crate::commands::source::Source;
use crate::next_script::next_script;
use std::alloc::Global;
use std::io::{Read, Write};

/// Lists what each role of a conversation of the input's script may do next, as `next_script` does. Returns whether it
/// listed the roles, and did not write a refusal line.
///
/// # Errors
/// After an error, nothing or a prefix of the output is written.
/// - `Unopened` where the file can't be opened.
/// - `Unread` and `TooLong` where `next_script` returns `Read`.
/// - `Unwritten` and `OutOfMemory` where `next_script` returns `Write` and `OutOfMemory`.
pub fn next<'a, F: Folder, R: Read + Drop, W: Write>(
    alloc: Global,
    id: u32,
    input: ScriptInput<'a, '_, F, R>,
    writer: &mut W,
) -> Result<bool, CommandFault<'a>>
    ensures ok { IfOk result (λ listed.
        IsScriptNext id
        (source (F.text input.entry.folder.now) (option_copied input.entry.path) (R.remaining input.entry.reader))
        listed (W.contents writer.old) (W.contents writer.new)) }
    ensures err { OnErr result
        (IsScriptPartNext id
        (source (F.text input.entry.folder.now) (option_copied input.entry.path) (R.remaining input.entry.reader))
        (W.contents writer.old) (W.contents writer.new)) }
    ensures fault { IfErr result (λ e. of_script (script_fault e) ≡ true) }
    ensures within { OnOk result
        (IfSome
        (source (F.text input.entry.folder.now) (option_copied input.entry.path) (R.remaining input.entry.reader))
        (λ input. IsWithinLimits of_scripts input)) }
{
    let ScriptInput {
        folder,
        path,
        reader,
    } = input;
    match path {
        None => {
            let script = Opened::new(Source::StandardInput, reader);
            next_of_source(alloc, id, script, writer)
        }
        Some(path) => {
            let file = folder.open(path)?;
            let script = Opened::new(Source::named(path), file);
            next_of_source(alloc, id, script, writer)
        }
    }
}

// The same with the script of this source.
fn next_of_source<'a, R: Read + Drop, W: Write>(
    alloc: Global,
    id: u32,
    mut script: Opened<'a, R>,
    writer: &mut W,
) -> Result<bool, CommandFault<'a>>
    ensures ok { IfOk result (λ listed. IsScriptNext id (R.remaining script.entry.reader.reader)
        listed (W.contents writer.old) (W.contents writer.new)) }
    ensures err { OnErr result (IsScriptPartNext id (R.remaining script.entry.reader.reader)
        (W.contents writer.old) (W.contents writer.new)) }
    ensures fault { IfErr result (λ e. of_script (script_fault e) ≡ true) }
    ensures within { OnOk result
        (IfSome (R.remaining script.entry.reader.reader) (λ input. IsWithinLimits of_scripts input)) }
{
    match next_script(alloc, &mut script.reader, id, writer) {
        Ok(listed) => Ok(listed),
        Err(fault) => Err(script.fault(&fault)),
    }
}
