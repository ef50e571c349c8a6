//! Runs a whole script with labels from a reader, with its events held back.

ghost use Rattle.std.specs.Prelude.{◌≡◌, ◌<◌, ◌+◌, ◌^◌, ℕ, List, true, IfOk, IfErr, OnOk, OnErr, IfSome};
ghost use Rattle.std.specs.Io.KnownBytes.{Appends};
ghost use Rattle.scrib_script_io.specs.Faults.{of_script};
ghost use Rattle.scrib_script_reader.specs.Limits.{IsWithinLimits};
ghost use Rattle.scrib_held_labels.specs.HeldLabels.{IsHeldLabelledOutput, IsHeldLabelledPart};

use crate::held_stage::HeldStage;
pub use scrib_hold::hold_limits::HoldLimits;
pub use scrib_hold_stage::stage::Counts;
pub use scrib_labelled::label_options::LabelledStyle;
use scrib_labelled::labelled_run::LabelledRun;
use scrib_labelled::run_labelled_script::{SCRIPT_PIECE_BYTES, run_by_pieces};
pub use scrib_script_io::fault::ScriptFault;
use scrib_script_io::writing::flush_out;
use std::alloc::Global;
use std::io::{Read, Write};
use std::mem::forget;

/// Reads a script with labels, makes its steps over a new monitor with the events held back, and writes each reply in
/// the format of `style`.
///
/// Events and closes wait as in `run_held_script`, and have labels as in `run_labelled_script`. A reply has the tag and
/// the name of the line whose step it answers, whenever that is made. A name has its number as long as its conversation
/// is open, or a line of it waits. Returns the counts of the events.
///
/// # Errors
/// After an error, a beginning of the output is written.
/// - `Read` where the reader fails, and in the line of the first byte past the script's limits.
/// - `Write` where the writer fails.
/// - `OutOfMemory` where there is no memory for a line, a label, events that wait, or a reply's text. A step that lacks
///   memory is refused in its reply, and the script continues.
pub fn run_held_labelled_script<R: Read, W: Write>(
    alloc: Global,
    style: LabelledStyle,
    limits: HoldLimits,
    reader: &mut R,
    writer: &mut W,
) -> Result<Counts, ScriptFault>
    requires { limits.script.lines + 1 < 2 ^ 64 }
    ensures ok { IfOk result (λ counts. IfSome (R.remaining reader.old) (λ input. (output : List ℕ)
        × IsHeldLabelledOutput style limits.bound input counts output
        × Appends (W.contents writer.old) (W.contents writer.new) output)) }
    ensures err { OnErr result (IfSome (R.remaining reader.old) (λ input. (part : List ℕ)
        × IsHeldLabelledPart style limits.bound input part
        × Appends (W.contents writer.old) (W.contents writer.new) part)) }
    ensures fault { IfErr result (λ e. of_script e ≡ true) }
    ensures within { OnOk result (IfSome (R.remaining reader.old) (λ input. IsWithinLimits limits.script input)) }
{
    let mut piece = vec![in alloc; 0u8; SCRIPT_PIECE_BYTES]?;
    let stage = HeldStage::new(alloc, style, limits.bound);
    let mut run = LabelledRun::new(alloc, style.labels, limits.script, stage);
    run_by_pieces(&mut run, reader, writer, piece.as_mut_slice())?;
    let counts = run.stage.counts;
    // Freeing long logs takes up to a tenth of a run, and the process ends here.
    forget(run);
    flush_out(writer)?;
    match counts {
        Some(counts) => Ok(counts),
        // a script that was read to its end has counts
        None => Err(ScriptFault::OutOfMemory),
    }
}
