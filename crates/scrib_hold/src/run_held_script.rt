//! Runs a whole script from a reader, with its events held back.

ghost use Rattle.std.specs.Prelude.{◌≡◌, ◌<◌, ◌+◌, ◌^◌, ℕ, List, true, IfOk, IfErr, OnOk, OnErr, IfSome, length};
ghost use Rattle.std.specs.Io.KnownBytes.{Appends};
ghost use Rattle.scrib_script_io.specs.Faults.{of_script};
ghost use Rattle.scrib_script_reader.specs.Limits.{IsWithinLimits};
ghost use Rattle.scrib_hold.specs.HeldScripts.{IsHeldOutput, IsHeldPart};
ghost use Rattle.scrib_hold.specs.Progress.{IsNewHeld, HeldRunSucceeds, HeldRunFails};

use crate::held_run::HeldRun;
pub use crate::hold_limits::HoldLimits;
pub use scrib_core::format::Format;
pub use scrib_hold_stage::stage::Counts;
pub use scrib_script_io::fault::ScriptFault;
use scrib_script_io::reading::read_piece;
use scrib_script_io::writing::flush_out;
use std::alloc::Global;
use std::io::{Read, Write};
use std::mem::forget;

// The number of bytes that one read asks for.
const SCRIPT_PIECE_BYTES: usize = 65_536;

/// Reads a script, makes its steps over a new monitor with the events held back, and writes each reply in this format.
///
/// The events of a conversation wait for its opening, and from then on each waits until it may have happened. An event
/// that has waited while as many lines outside module texts were read as `bound` says expires: its step is then made
/// as it is. So are those of all events that wait at the end of the script, before an end inside a module text is
/// reported. All other steps are made at once. Returns the counts of the events.
///
/// The law of no false alarms holds of each conversation: its events are taken in an order in which its roles could
/// have made them. Where it is opened and none of its events expires before the end, the log is permitted exactly
/// where some such order is.
///
/// Replies, bad lines, flushes and memory are as in `run_script`, but a reply to an event comes once it is released.
///
/// # Errors
/// After an error, a beginning of the output is written.
/// - `Read` where the reader fails, and in the line of the first byte past the script's limits.
/// - `Write` where the writer fails.
/// - `OutOfMemory` where there is no memory for a line, for events that wait, or for a reply's text. A step that lacks
///   memory is refused in its reply, and the script continues.
pub fn run_held_script<R: Read, W: Write>(
    alloc: Global,
    format: Format,
    limits: HoldLimits,
    reader: &mut R,
    writer: &mut W,
) -> Result<Counts, ScriptFault>
    requires { limits.script.lines + 1 < 2 ^ 64 }
    ensures ok { IfOk result (λ counts. IfSome (R.remaining reader.old) (λ input. (output : List ℕ)
        × IsHeldOutput format limits.bound input counts output
        × Appends (W.contents writer.old) (W.contents writer.new) output)) }
    ensures err { OnErr result (IfSome (R.remaining reader.old) (λ input. (part : List ℕ)
        × IsHeldPart format limits.bound input part
        × Appends (W.contents writer.old) (W.contents writer.new) part)) }
    ensures fault { IfErr result (λ e. of_script e ≡ true) }
    ensures within { OnOk result (IfSome (R.remaining reader.old) (λ input. IsWithinLimits limits.script input)) }
{
    let mut piece = vec![in alloc; 0u8; SCRIPT_PIECE_BYTES]?;
    let mut run = HeldRun::new(alloc, format, limits.bound, limits.script);
    let counts = run_by_pieces(&mut run, reader, writer, piece.as_mut_slice())?;
    // Freeing long logs takes up to a tenth of a run, and the process ends here.
    forget(run);
    flush_out(writer)?;
    Ok(counts)
}

// Reads a whole script into a run that has read nothing yet, with `piece` as the buffer of the reads. The replies of a
// piece are flushed before the next is read.
fn run_by_pieces<R: Read, W: Write>(
    run: &mut HeldRun,
    reader: &mut R,
    writer: &mut W,
    piece: &mut [u8],
) -> Result<Counts, ScriptFault>
    requires new { IsNewHeld run.old.monitor.sink.format run.old.monitor.stage.bound run.old.script.limits run.old }
    requires some { 0 < length piece.old }
    ensures ok { IfOk result (λ counts. HeldRunSucceeds run.old.monitor.sink.format run.old.monitor.stage.bound
        run.old.script.limits (R.remaining reader.old) counts (W.contents writer.old) (W.contents writer.new)) }
    ensures err { OnErr result (HeldRunFails run.old.monitor.sink.format run.old.monitor.stage.bound
        (R.remaining reader.old) (W.contents writer.old) (W.contents writer.new)) }
    ensures fault { IfErr result (λ e. of_script e ≡ true) }
{
    for _ in 0..u64::MAX {
        let n = read_piece(reader, piece)?;
        if n == 0 {
            return run.finish(writer);
        }
        run.take_piece(writer, &piece[..n])?;
        flush_out(writer)?;
    }
    Err(ScriptFault::Read)
}
