//! Writes a whole script with labels from a reader anew, with its events held back.

ghost use Rattle.std.specs.Prelude.{◌≡◌, ◌<◌, ◌+◌, ◌^◌, ℕ, List, true, IfOk, IfErr, OnOk, OnErr, IfSome};
ghost use Rattle.std.specs.Io.KnownBytes.{Appends};
ghost use Rattle.scrib_script_io.specs.Faults.{of_script};
ghost use Rattle.scrib_script_reader.specs.Limits.{IsWithinLimits};
ghost use Rattle.scrib_hold_labelled.specs.HeldLabelledScripts.{IsHeldLabelledScript, IsHeldLabelledScriptPart};

use crate::line_stage::LineStage;
pub use scrib_hold::hold_limits::HoldLimits;
pub use scrib_hold_stage::stage::Counts;
pub use scrib_labelled::label_options::LabelOptions;
use scrib_labelled::labelled_run::LabelledRun;
use scrib_labelled::run_labelled_script::{SCRIPT_PIECE_BYTES, run_by_pieces};
pub use scrib_script_io::fault::ScriptFault;
use scrib_script_io::writing::flush_out;
use std::alloc::Global;
use std::io::{Read, Write};
use std::mem::forget;

/// Reads a script with these labels, and writes a script with the same labels: the lines that are let out with its
/// events held back, in the order in which they are let out. Returns the counts of the events.
///
/// Events and closes wait as in `run_held_labelled_script`. Each line is written as it came, with its tag and its name;
/// one that is an object stays an object. The text of a put by lines is written behind its line. Comments and blank
/// lines are dropped. Where the script ends inside a module text, the line of that put is written last, without the
/// text.
///
/// # Errors
/// After an error, a beginning of such a script is written. Its last line may be cut.
/// - `Read` where the reader fails, and in the line of the first byte past the script's limits.
/// - `Write` where the writer fails.
/// - `OutOfMemory` where there is no memory for a line or for events that wait.
pub fn hold_labelled_script<R: Read, W: Write>(
    alloc: Global,
    options: LabelOptions,
    limits: HoldLimits,
    reader: &mut R,
    writer: &mut W,
) -> Result<Counts, ScriptFault>
    requires { limits.script.lines + 1 < 2 ^ 64 }
    ensures ok { IfOk result (λ counts. IfSome (R.remaining reader.old) (λ input. (output : List ℕ)
        × IsHeldLabelledScript options limits.bound input counts output
        × Appends (W.contents writer.old) (W.contents writer.new) output)) }
    ensures err { OnErr result (IfSome (R.remaining reader.old) (λ input. (part : List ℕ)
        × IsHeldLabelledScriptPart options limits.bound input part
        × Appends (W.contents writer.old) (W.contents writer.new) part)) }
    ensures fault { IfErr result (λ e. of_script e ≡ true) }
    ensures within { OnOk result (IfSome (R.remaining reader.old) (λ input. IsWithinLimits limits.script input)) }
{
    let mut piece = vec![in alloc; 0u8; SCRIPT_PIECE_BYTES]?;
    let stage = LineStage::new(alloc, options.objects, limits.bound);
    let mut run = LabelledRun::new(alloc, options, limits.script, stage);
    run_by_pieces(&mut run, reader, writer, piece.as_mut_slice())?;
    let counts = run.stage.counts;
    // the process ends here
    forget(run);
    flush_out(writer)?;
    match counts {
        Some(counts) => Ok(counts),
        // a script that was read to its end has counts
        None => Err(ScriptFault::OutOfMemory),
    }
}
