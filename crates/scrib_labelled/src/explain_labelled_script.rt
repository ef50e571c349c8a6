//! Explains a conversation of a script with labels.

ghost use Rattle.std.specs.Prelude.{◌≡◌, ◌⊎◌, [], ℕ, List, true, IfOk, IfErr, OnOk, OnErr, IfSome};
ghost use Rattle.std.specs.Io.KnownBytes.{Appends};
ghost use Rattle.scrib_script_io.specs.Writes.{AppendsPart};
ghost use Rattle.scrib_script_io.specs.Faults.{of_script};
ghost use Rattle.scrib_script_io.specs.declared.fault.ScriptFault.TheVariants as fault;
ghost use Rattle.scrib_script_reader.specs.Limits.{of_scripts, IsWithinLimits};
ghost use Rattle.scrib_cli.specs.declared.explanation.Explained as declared;
ghost use Rattle.scrib_labelled.specs.LabelledQueries.{ExplanationOf, IsLabelledExplanation, number_meant};
ghost use Rattle.scrib_labelled.specs.SilentRuns.{names_behind, state_behind};

use crate::label_options::LabelOptions;
use crate::named_monitor::NamedMonitor;
pub use crate::session_key::SessionKey;
use crate::silent_run::{number_meant, run_silently};
pub use scrib_cli::explanation::Explained;
use scrib_cli::explanation::{explanation, refusal};
pub use scrib_script_io::fault::ScriptFault;
use scrib_script_io::writing::{flush_out, write_out};
use std::alloc::Global;
use std::io::{Read, Write};

/// Reads a script with these labels, makes its steps over a new monitor without output, and explains the conversation
/// that is meant.
///
/// A name means the conversation whose number it has behind the script. Where it has none, the output is
/// `refused NoConversation`. The output is otherwise as that of `explain_script`. Returns whether messages in flight or
/// a refusal was written. Flushes the writer.
///
/// # Errors
/// After an error, nothing or a prefix of the output is written.
/// - `Read` where the reader fails, and in the line of the first byte past 16,777,216 lines or 1,099,511,627,776 bytes.
/// - `Write` where the writer fails.
/// - `OutOfMemory` where there is no memory for a line, a name, a step or a text.
pub fn explain_labelled_script<R: Read, W: Write>(
    alloc: Global,
    labels: LabelOptions,
    reader: &mut R,
    key: SessionKey<'_>,
    writer: &mut W,
) -> Result<Explained, ScriptFault>
    ensures ok { IfOk result (λ explained. IfSome (R.remaining reader.old) (λ input. (output : List ℕ)
        × IsLabelledExplanation labels input key.entry explained output
        × Appends (W.contents writer.old) (W.contents writer.new) output)) }
    ensures err { OnErr result (IfSome (R.remaining reader.old) (λ input.
        Appends (W.contents writer.old) (W.contents writer.new) []
        ⊎ ((explained : declared.Explained) × (output : List ℕ)
        × IsLabelledExplanation labels input key.entry explained output
        × AppendsPart (W.contents writer.old) (W.contents writer.new) output))) }
    ensures fault { IfErr result (λ e. of_script e ≡ true) }
    ensures within { OnOk result (IfSome (R.remaining reader.old) (λ input. IsWithinLimits of_scripts input)) }
{
    let (explained, text) = explanation_in(alloc, labels, reader, key)?;
    write_out(writer, text.as_slice())?;
    flush_out(writer)?;
    Ok(explained)
}

// Makes the steps of the script without output. Returns the kind and the text of the explanation of the conversation.
fn explanation_in<R: Read>(
    alloc: Global,
    labels: LabelOptions,
    reader: &mut R,
    key: SessionKey<'_>,
) -> Result<(Explained, Vec<u8>), ScriptFault>
    ensures ok { IfOk result (λ r. IfSome (R.remaining reader.old) (λ input.
        IsLabelledExplanation labels input key.entry r.0 r.1.items × IsWithinLimits of_scripts input)) }
    ensures fault { IfErr result (λ e. of_script e ≡ true) }
{
    let monitor = run_silently(alloc, labels, reader)?;
    explanation_behind(alloc, &monitor, key)
}

// Returns the kind and the text of the explanation of the conversation that is meant behind the script.
fn explanation_behind(
    alloc: Global,
    monitor: &NamedMonitor,
    key: SessionKey<'_>,
) -> Result<(Explained, Vec<u8>), ScriptFault>
    ensures explained { IfOk result (λ r. ExplanationOf (state_behind monitor.now).world
        (number_meant (names_behind monitor.now) key.entry) r.0 r.1.items) }
    ensures fault { IfErr result (λ e. e ≡ fault.OutOfMemory) }
{
    match number_meant(monitor, key) {
        Some(id) => explanation(alloc, &monitor.monitor.core.core, id),
        None => Ok((Explained::Refused, refusal(alloc, b"NoConversation")?)),
    }
}
