//! Explains a conversation of a script.

ghost use Rattle.std.specs.Prelude.{◌≡◌, ◌⊎◌, [], ℕ, List, true, IfOk, IfErr, OnOk, OnErr, IfSome};
ghost use Rattle.std.specs.Io.KnownBytes.{Appends};
ghost use Rattle.scrib_core.specs.Answers.{State};
ghost use Rattle.scrib_script_io.specs.Writes.{AppendsPart};
ghost use Rattle.scrib_script_io.specs.Faults.{of_script};
ghost use Rattle.scrib_cli.specs.Explanations.{Explanation, IsExplanation};
ghost use Rattle.scrib_cli.specs.Progress.{RunSucceeds};
ghost use Rattle.scrib_cli.specs.declared.output_mode.OutputMode.TheVariants.{Silent};
ghost use Rattle.scrib_script_reader.specs.Limits.{of_scripts, IsWithinLimits};
ghost use Rattle.scrib_cli.specs.declared.explanation.Explained as declared;

pub use crate::explanation::Explained;
use crate::explanation::explanation;
use crate::output_mode::OutputMode;
use crate::run_script::run_whole;
pub use scrib_script_io::fault::ScriptFault;
use scrib_script_io::writing::{flush_out, write_out};
use scrib_script_reader::limits::Limits;
use std::alloc::Global;
use std::io::{Read, Write};

/// Reads a script, makes its steps over a new monitor without output, and explains the conversation `id`.
///
/// The explanation is a line for each message in flight, as `A B hello()`, or one refusal line. The lines are sorted by
/// sender and then receiver, in the order in which the protocol declares them, the oldest message first.
/// The refusal is `refused NoConversation`, `refused UnknownProtocol` where the library has no such protocol, or
/// `refused NotPermitted 3` with the place of the first offence. Returns which of the two was written. Flushes the
/// writer.
///
/// # Errors
/// After an error, nothing or a prefix of the output is written.
/// - `Read` where the reader fails, and in the line of the first byte past 16,777,216 lines or 1,099,511,627,776 bytes.
/// - `Write` where the writer fails.
/// - `OutOfMemory` where there is no memory for a line, a step or the text.
pub fn explain_script<R: Read, W: Write>(
    alloc: Global,
    reader: &mut R,
    id: u32,
    writer: &mut W,
) -> Result<Explained, ScriptFault>
    ensures ok { IfOk result (λ explained. IfSome (R.remaining reader.old) (λ input. (output : List ℕ)
        × IsExplanation input id explained output
        × Appends (W.contents writer.old) (W.contents writer.new) output)) }
    ensures err { OnErr result (IfSome (R.remaining reader.old) (λ input.
        Appends (W.contents writer.old) (W.contents writer.new) []
        ⊎ ((explained : declared.Explained) × (output : List ℕ) × IsExplanation input id explained output
        × AppendsPart (W.contents writer.old) (W.contents writer.new) output))) }
    ensures fault { IfErr result (λ e. of_script e ≡ true) }
    ensures within { OnOk result (IfSome (R.remaining reader.old) (λ input. IsWithinLimits of_scripts input)) }
{
    let (explained, text) = run_silently(alloc, reader, id, writer)?;
    write_out(writer, text.as_slice())?;
    flush_out(writer)?;
    Ok(explained)
}

// Makes the steps of the script without output. Returns the explanation of the conversation.
fn run_silently<R: Read, W: Write>(
    alloc: Global,
    reader: &mut R,
    id: u32,
    writer: &mut W,
) -> Result<(Explained, Vec<u8>), ScriptFault>
    ensures ok { IfOk result (λ r. (s : State)
        × RunSucceeds of_scripts Silent (R.remaining reader.old) s (W.contents writer.old) (W.contents writer.new)
        × Explanation s.world id r.0 r.1.items) }
    ensures err { OnErr result (IfSome (R.remaining reader.old)
        (λ input. Appends (W.contents writer.old) (W.contents writer.new) [])) }
    ensures fault { IfErr result (λ e. of_script e ≡ true) }
{
    let core = run_whole(
        alloc,
        Limits::of_scripts(),
        OutputMode::Silent,
        reader,
        writer,
    )?;
    let printed = explanation(alloc, &core, id)?;
    Ok(printed)
}
