//! Lists what each role of a conversation of a script may do next.

ghost use Rattle.std.specs.Prelude.{◌≡◌, ◌⊎◌, [], ℕ, List, Bool, true, IfOk, IfErr, OnOk, OnErr, IfSome};
ghost use Rattle.std.specs.Io.KnownBytes.{Appends};
ghost use Rattle.scrib_core.specs.Answers.{State};
ghost use Rattle.scrib_script_io.specs.Writes.{AppendsPart};
ghost use Rattle.scrib_script_io.specs.Faults.{of_script};
ghost use Rattle.scrib_cli.specs.NextLines.{NextSteps, IsNextOutput};
ghost use Rattle.scrib_cli.specs.Progress.{RunSucceeds};
ghost use Rattle.scrib_cli.specs.declared.output_mode.OutputMode.TheVariants.{Silent};
ghost use Rattle.scrib_script_reader.specs.Limits.{of_scripts, IsWithinLimits};

use crate::next_lines::next_steps;
use crate::output_mode::OutputMode;
use crate::run_script::run_whole;
pub use scrib_script_io::fault::ScriptFault;
use scrib_script_io::writing::{flush_out, write_out};
use scrib_script_reader::limits::Limits;
use std::alloc::Global;
use std::io::{Read, Write};

/// Reads a script, makes its steps over a new monitor without output, and lists what each role of the conversation `id`
/// may do next.
///
/// Each declared role has a line, in declared order:
/// - `D: may join`, or `D: may join, done` of a role that never acts;
/// - `C: done`;
/// - `A: may B!hello(), B!x()`, with each of its sends, or `B: may A?ok()`, with the oldest message from the role that
///   it awaits;
/// - `B: waits for A?ok(), A?quit()`, where no message from that role is in flight to it.
///
/// The line `complete` follows exactly where the log is complete: each role is at its end, and nothing is in flight.
/// Where `explain_script` has a refusal line, that is the output instead. Returns whether the roles are listed. Flushes
/// the writer.
///
/// # Errors
/// After an error, nothing or a prefix of the output is written.
/// - `Read` where the reader fails, and in the line of the first byte past 16,777,216 lines or 1,099,511,627,776 bytes.
/// - `Write` where the writer fails.
/// - `OutOfMemory` where there is no memory for a line, a step or the text.
pub fn next_script<R: Read, W: Write>(
    alloc: Global,
    reader: &mut R,
    id: u32,
    writer: &mut W,
) -> Result<bool, ScriptFault>
    ensures ok { IfOk result (λ listed. IfSome (R.remaining reader.old) (λ input. (output : List ℕ)
        × IsNextOutput input id listed output
        × Appends (W.contents writer.old) (W.contents writer.new) output)) }
    ensures err { OnErr result (IfSome (R.remaining reader.old) (λ input.
        Appends (W.contents writer.old) (W.contents writer.new) []
        ⊎ ((listed : Bool) × (output : List ℕ) × IsNextOutput input id listed output
        × AppendsPart (W.contents writer.old) (W.contents writer.new) output))) }
    ensures fault { IfErr result (λ e. of_script e ≡ true) }
    ensures within { OnOk result (IfSome (R.remaining reader.old) (λ input. IsWithinLimits of_scripts input)) }
{
    let (listed, text) = run_silently(alloc, reader, id, writer)?;
    write_out(writer, text.as_slice())?;
    flush_out(writer)?;
    Ok(listed)
}

// Makes the steps of the script without output. Returns what there is to write of the conversation, and whether the
// roles are listed.
fn run_silently<R: Read, W: Write>(
    alloc: Global,
    reader: &mut R,
    id: u32,
    writer: &mut W,
) -> Result<(bool, Vec<u8>), ScriptFault>
    ensures ok { IfOk result (λ r. (s : State)
        × RunSucceeds of_scripts Silent (R.remaining reader.old) s (W.contents writer.old) (W.contents writer.new)
        × NextSteps s.world id r.0 r.1.items) }
    ensures err { OnErr result (IfSome (R.remaining reader.old)
        (λ input. Appends (W.contents writer.old) (W.contents writer.new) [])) }
    ensures fault { IfErr result (λ e. of_script e ≡ true) }
{
    let core = run_whole(
        alloc,
        Limits::of_scripts(),
        OutputMode::Silent,
        reader,
        writer,
    )?;
    let printed = next_steps(alloc, &core, id)?;
    Ok(printed)
}
