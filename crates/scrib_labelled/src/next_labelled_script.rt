//! Lists what each role of a conversation of a script with labels may do next.

ghost use Rattle.std.specs.Prelude.{◌≡◌, ◌⊎◌, [], ℕ, List, Bool, true, IfOk, IfErr, OnOk, OnErr, IfSome};
ghost use Rattle.std.specs.Io.KnownBytes.{Appends};
ghost use Rattle.scrib_script_io.specs.Writes.{AppendsPart};
ghost use Rattle.scrib_script_io.specs.Faults.{of_script};
ghost use Rattle.scrib_script_io.specs.declared.fault.ScriptFault.TheVariants as fault;
ghost use Rattle.scrib_script_reader.specs.Limits.{of_scripts, IsWithinLimits};
ghost use Rattle.scrib_labelled.specs.LabelledQueries.{NextStepsOf, IsLabelledNext, number_meant};
ghost use Rattle.scrib_labelled.specs.SilentRuns.{names_behind, state_behind};

use crate::label_options::LabelOptions;
use crate::named_monitor::NamedMonitor;
pub use crate::session_key::SessionKey;
use crate::silent_run::{number_meant, run_silently};
use scrib_cli::explanation::refusal;
use scrib_cli::next_lines::next_steps;
pub use scrib_script_io::fault::ScriptFault;
use scrib_script_io::writing::{flush_out, write_out};
use std::alloc::Global;
use std::io::{Read, Write};

/// Reads a script with these labels, makes its steps over a new monitor without output, and lists what each role of the
/// conversation that is meant may do next.
///
/// A name means the conversation whose number it has behind the script. Where it has none, the output is
/// `refused NoConversation`. The output is otherwise as that of `next_script`. Returns whether the roles are listed.
/// Flushes the writer.
///
/// # Errors
/// After an error, nothing or a prefix of the output is written.
/// - `Read` where the reader fails, and in the line of the first byte past 16,777,216 lines or 1,099,511,627,776 bytes.
/// - `Write` where the writer fails.
/// - `OutOfMemory` where there is no memory for a line, a name, a step or a text.
pub fn next_labelled_script<R: Read, W: Write>(
    alloc: Global,
    labels: LabelOptions,
    reader: &mut R,
    key: SessionKey<'_>,
    writer: &mut W,
) -> Result<bool, ScriptFault>
    ensures ok { IfOk result (λ listed. IfSome (R.remaining reader.old) (λ input. (output : List ℕ)
        × IsLabelledNext labels input key.entry listed output
        × Appends (W.contents writer.old) (W.contents writer.new) output)) }
    ensures err { OnErr result (IfSome (R.remaining reader.old) (λ input.
        Appends (W.contents writer.old) (W.contents writer.new) []
        ⊎ ((listed : Bool) × (output : List ℕ) × IsLabelledNext labels input key.entry listed output
        × AppendsPart (W.contents writer.old) (W.contents writer.new) output))) }
    ensures fault { IfErr result (λ e. of_script e ≡ true) }
    ensures within { OnOk result (IfSome (R.remaining reader.old) (λ input. IsWithinLimits of_scripts input)) }
{
    let (listed, text) = steps_in(alloc, labels, reader, key)?;
    write_out(writer, text.as_slice())?;
    flush_out(writer)?;
    Ok(listed)
}

// Makes the steps of the script without output. Returns whether the roles of the conversation are listed, and the text.
fn steps_in<R: Read>(
    alloc: Global,
    labels: LabelOptions,
    reader: &mut R,
    key: SessionKey<'_>,
) -> Result<(bool, Vec<u8>), ScriptFault>
    ensures ok { IfOk result (λ r. IfSome (R.remaining reader.old) (λ input.
        IsLabelledNext labels input key.entry r.0 r.1.items × IsWithinLimits of_scripts input)) }
    ensures fault { IfErr result (λ e. of_script e ≡ true) }
{
    let monitor = run_silently(alloc, labels, reader)?;
    steps_behind(alloc, &monitor, key)
}

// Returns whether the roles of the conversation that is meant behind the script are listed, and the text.
fn steps_behind(
    alloc: Global,
    monitor: &NamedMonitor,
    key: SessionKey<'_>,
) -> Result<(bool, Vec<u8>), ScriptFault>
    ensures steps { IfOk result (λ r. NextStepsOf (state_behind monitor.now).world
        (number_meant (names_behind monitor.now) key.entry) r.0 r.1.items) }
    ensures fault { IfErr result (λ e. e ≡ fault.OutOfMemory) }
{
    match number_meant(monitor, key) {
        Some(id) => next_steps(alloc, &monitor.monitor.core.core, id),
        None => Ok((false, refusal(alloc, b"NoConversation")?)),
    }
}
