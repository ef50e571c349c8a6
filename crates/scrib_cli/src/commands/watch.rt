//! The command `watch`: runs a script over one monitor.

ghost use Rattle.std.specs.Prelude.{◌≡◌, ◌<◌, ◌+◌, ◌^◌, true, IfOk, IfErr, IfSome, OnOk, OnErr};
ghost use Rattle.std.specs.Option.{option_copied};
ghost use Rattle.scrib_cli.specs.Commands.{source, IsWatched, IsPartWatched};
ghost use Rattle.scrib_script_io.specs.Faults.{of_script};
ghost use Rattle.scrib_cli.specs.Faults.{script_fault};
ghost use Rattle.scrib_script_reader.specs.Limits.{IsWithinLimits};

use crate::commands::fault::CommandFault;
use crate::commands::folder::Folder;
use crate::commands::opened::Opened;
use crate::commands::script_input::ScriptInput;
use crate::commands::source::Source;
use crate::run_script::run_script_within;
use scrib_core::format::Format;
use scrib_script_reader::limits::Limits;
use std::alloc::Global;
use std::io::{Read, Write};

/// Runs the input's script as `run_script_within` does. Returns true: its refusals are replies to steps.
///
/// # Errors
/// After an error, a prefix of the script's output is written.
/// - `Unopened` where the file can't be opened.
/// - `Unread` and `TooLong` where `run_script_within` returns `Read`.
/// - `Unwritten` and `OutOfMemory` where `run_script_within` returns `Write` and `OutOfMemory`.
pub fn watch<'a, F: Folder, R: Read + Drop, W: Write>(
    alloc: Global,
    format: Format,
    limits: Limits,
    input: ScriptInput<'a, '_, F, R>,
    writer: &mut W,
) -> Result<bool, CommandFault<'a>>
    requires { limits.lines + 1 < 2 ^ 64 }
    ensures done { IfOk result (λ done. done ≡ true) }
    ensures ok { OnOk result
        (IsWatched format
        (source (F.text input.entry.folder.now) (option_copied input.entry.path) (R.remaining input.entry.reader))
        (W.contents writer.old) (W.contents writer.new)) }
    ensures err { OnErr result
        (IsPartWatched format
        (source (F.text input.entry.folder.now) (option_copied input.entry.path) (R.remaining input.entry.reader))
        (W.contents writer.old) (W.contents writer.new)) }
    ensures fault { IfErr result (λ e. of_script (script_fault e) ≡ true) }
    ensures within { OnOk result
        (IfSome
        (source (F.text input.entry.folder.now) (option_copied input.entry.path) (R.remaining input.entry.reader))
        (λ input. IsWithinLimits limits input)) }
{
    let ScriptInput {
        folder,
        path,
        reader,
    } = input;
    match path {
        None => {
            let script = Opened::new(Source::StandardInput, reader);
            watch_source(alloc, format, limits, script, writer)
        }
        Some(path) => {
            let file = folder.open(path)?;
            let script = Opened::new(Source::named(path), file);
            watch_source(alloc, format, limits, script, writer)
        }
    }
}

// The same with the script of this source.
fn watch_source<'a, R: Read + Drop, W: Write>(
    alloc: Global,
    format: Format,
    limits: Limits,
    mut script: Opened<'a, R>,
    writer: &mut W,
) -> Result<bool, CommandFault<'a>>
    requires { limits.lines + 1 < 2 ^ 64 }
    ensures done { IfOk result (λ done. done ≡ true) }
    ensures ok { OnOk result
        (IsWatched format (R.remaining script.entry.reader.reader) (W.contents writer.old) (W.contents writer.new)) }
    ensures err { OnErr result
        (IsPartWatched format
        (R.remaining script.entry.reader.reader) (W.contents writer.old) (W.contents writer.new)) }
    ensures fault { IfErr result (λ e. of_script (script_fault e) ≡ true) }
    ensures within { OnOk result
        (IfSome (R.remaining script.entry.reader.reader) (λ input. IsWithinLimits limits input)) }
{
    match run_script_within(alloc, format, limits, &mut script.reader, writer) {
        Ok(()) => Ok(true),
        Err(fault) => Err(script.fault(&fault)),
    }
}
