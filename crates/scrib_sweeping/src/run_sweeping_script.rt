//! Runs a whole script with labels from a reader, over a monitor that sweeps before each of its entries.

ghost use Rattle.std.specs.Prelude.{◌≡◌, ◌<◌, ◌+◌, ◌^◌, ℕ, List, true, IfOk, IfErr, OnOk, OnErr, IfSome};
ghost use Rattle.std.specs.Io.KnownBytes.{Appends};
ghost use Rattle.scrib_script_io.specs.Faults.{of_script};
ghost use Rattle.scrib_script_reader.specs.Limits.{IsWithinLimits};
ghost use Rattle.scrib_sweeping.specs.SweptScripts.{IsSweptOutput, IsSweptPart};

pub use crate::sweep_counts::SweepCounts;
use crate::sweeping_monitor::SweepingMonitor;
pub use scrib_labelled::label_options::LabelledStyle;
use scrib_labelled::labelled_run::LabelledRun;
use scrib_labelled::run_labelled_script::{SCRIPT_PIECE_BYTES, run_by_pieces};
pub use scrib_script_io::fault::ScriptFault;
use scrib_script_io::writing::flush_out;
pub use scrib_script_reader::limits::Limits;
use std::alloc::Global;
use std::io::{Read, Write};
use std::mem::forget;

/// Reads a script with labels, makes its steps over a new monitor, and writes each reply in the format of `style`.
///
/// Before each line outside module texts at most 64 turns of the stale conversations are made. They go by rising ids,
/// each conversation until its verdict is not stale. So it is before each put, and before the end inside a module text.
/// Behind the last line all that are left have their turns. Nothing is written for these turns, and they close no
/// conversation. A turn that is refused memory leaves its conversation stale, and is made again before the next line.
///
/// All else is as in `run_labelled_script`. Returns what the sweeps came to.
///
/// # Errors
/// After an error, a beginning of the output is written.
/// - `Read` where the reader fails, and in the line of the first byte past the script's limits.
/// - `Write` where the writer fails.
/// - `OutOfMemory` where there is no memory for a line, a name or a reply's text. A step that lacks memory is refused
///   in its reply, and the script continues.
pub fn run_sweeping_script<R: Read, W: Write>(
    alloc: Global,
    style: LabelledStyle,
    limits: Limits,
    reader: &mut R,
    writer: &mut W,
) -> Result<SweepCounts, ScriptFault>
    requires { limits.lines + 1 < 2 ^ 64 }
    ensures ok { IfOk result (λ counts. IfSome (R.remaining reader.old) (λ input. (output : List ℕ)
        × IsSweptOutput style input output counts
        × Appends (W.contents writer.old) (W.contents writer.new) output)) }
    ensures err { OnErr result (IfSome (R.remaining reader.old) (λ input. (part : List ℕ)
        × IsSweptPart style input part
        × Appends (W.contents writer.old) (W.contents writer.new) part)) }
    ensures fault { IfErr result (λ e. of_script e ≡ true) }
    ensures within { OnOk result (IfSome (R.remaining reader.old) (λ input. IsWithinLimits limits input)) }
{
    let mut piece = vec![in alloc; 0u8; SCRIPT_PIECE_BYTES]?;
    let monitor = SweepingMonitor::new(alloc, style);
    let mut run = LabelledRun::new(alloc, style.labels, limits, monitor);
    run_by_pieces(&mut run, reader, writer, piece.as_mut_slice())?;
    let counts = run.stage.counts;
    // Freeing long logs takes up to a tenth of a run, and the process ends here.
    forget(run);
    flush_out(writer)?;
    Ok(counts)
}
