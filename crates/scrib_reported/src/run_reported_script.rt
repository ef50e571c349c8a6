//! Runs a whole script from a reader, and writes findings in place of replies.

ghost use Rattle.std.specs.Prelude.{◌≡◌, ◌<◌, ◌+◌, ◌^◌, ℕ, List, true, IfErr, IfOk, OnOk, OnErr, IfSome};
ghost use Rattle.std.specs.Io.KnownBytes.{Appends};
ghost use Rattle.scrib_script_io.specs.Faults.{of_script};
ghost use Rattle.scrib_script_reader.specs.Limits.{IsWithinLimits};
ghost use Rattle.scrib_reported.specs.ReportedRuns.{IsReportedOutput, IsReportedPart};

use crate::reporting_monitor::ReportingMonitor;
pub use scrib_labelled::label_options::LabelledStyle;
use scrib_labelled::labelled_run::LabelledRun;
use scrib_labelled::run_labelled_script::{SCRIPT_PIECE_BYTES, run_by_pieces};
pub use scrib_script_io::fault::ScriptFault;
use scrib_script_io::writing::flush_out;
pub use scrib_script_reader::limits::Limits;
pub use scrib_summary::summary::Summary;
use std::alloc::Global;
use std::io::{Read, Write};
use std::mem::forget;

/// Reads a script with labels, or with none of them, makes its steps over a new monitor, and writes findings in place
/// of replies, in the format of `style`.
///
/// - An offence is written once, when an event makes it or a turn finds it, with its reason and the line of its event.
///   It is written again where a turn finds another one.
/// - That a conversation has no offence any more is written when a turn finds it.
/// - Each refused step is written, with its line and its conversation.
/// - For a sweep this is written of each of its turns, with the conversation's name or number, and then how many
///   conversations were stale. A turn that is refused ends the sweep, and this number is not written then.
/// - Nothing is written for other events, turns and openings.
/// - Replies to edits, questions and closes, and bad lines, are written as `run_labelled_script` writes them.
///
/// Returns what the script comes to: its replies, counted, with the bad lines among the refusals, and the verdicts on
/// the conversations, on each closed one as the close reported it and on each that is still open as at the end.
///
/// Tags, names and closes of complete conversations are as in `run_labelled_script`.
///
/// # Errors
/// After an error, a beginning of the script's output is written.
/// - `Read` where the reader fails, and in the line of the first byte past the script's limits.
/// - `Write` where the writer fails.
/// - `OutOfMemory` where there is no memory for a line, a name, what is kept of an event, a finding, the list of the
///   stale conversations, or a verdict at the end. A step or a turn that lacks memory is reported as refused, and the
///   script continues.
pub fn run_reported_script<R: Read, W: Write>(
    alloc: Global,
    style: LabelledStyle,
    limits: Limits,
    reader: &mut R,
    writer: &mut W,
) -> Result<Summary, ScriptFault>
    requires { limits.lines + 1 < 2 ^ 64 }
    ensures ok { IfOk result (λ total. IfSome (R.remaining reader.old) (λ input. (output : List ℕ)
        × IsReportedOutput style input output total
        × Appends (W.contents writer.old) (W.contents writer.new) output)) }
    ensures err { OnErr result (IfSome (R.remaining reader.old) (λ input. (part : List ℕ)
        × IsReportedPart style input part
        × Appends (W.contents writer.old) (W.contents writer.new) part)) }
    ensures fault { IfErr result (λ e. of_script e ≡ true) }
    ensures within { OnOk result (IfSome (R.remaining reader.old) (λ input. IsWithinLimits limits input)) }
{
    let mut piece = vec![in alloc; 0u8; SCRIPT_PIECE_BYTES]?;
    let monitor = ReportingMonitor::new(alloc, style);
    let mut run = LabelledRun::new(alloc, style.labels, limits, monitor);
    run_by_pieces(&mut run, reader, writer, piece.as_mut_slice())?;
    flush_out(writer)?;
    let total = run.stage.total()?;
    // Freeing long logs takes up to a tenth of a run, and the process ends here.
    forget(run);
    Ok(total)
}
