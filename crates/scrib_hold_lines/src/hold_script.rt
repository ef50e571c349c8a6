//! Writes a whole script from a reader anew, with its events held back.

ghost use Rattle.std.specs.Prelude.{◌≡◌, ◌<◌, ◌+◌, ◌^◌, ℕ, List, true, IfOk, IfErr, OnOk, OnErr, IfSome, length};
ghost use Rattle.std.specs.Io.KnownBytes.{Appends};
ghost use Rattle.scrib_script_io.specs.Faults.{of_script};
ghost use Rattle.scrib_script_reader.specs.Limits.{IsWithinLimits};
ghost use Rattle.scrib_hold_lines.specs.HeldLines.{IsHeldScript, IsHeldScriptPart};
ghost use Rattle.scrib_hold_lines.specs.Progress.{IsNewLineRun, LinesRunSucceeds, LinesRunFails};

use crate::line_run::LineRun;
pub use scrib_hold::hold_limits::HoldLimits;
pub use scrib_hold_stage::stage::Counts;
pub use scrib_script_io::fault::ScriptFault;
use scrib_script_io::reading::read_piece;
use scrib_script_io::writing::flush_out;
use std::alloc::Global;
use std::io::{Read, Write};

// The number of bytes that one read asks for.
const SCRIPT_PIECE_BYTES: usize = 65_536;

/// Reads a script of these limits, and writes the script of what `run_held_script` carries out of it: the same items in
/// the order in which they are let out.
///
/// The line of an event is written once it is released. The line of another item is written at once, as it is. Of a bad
/// line only the first 131,074 bytes are. Comments and blank lines are dropped. A module text is written once its `%%`
/// was read; of a longer text only the first 1,048,577 bytes are, and a further byte. Where the script ends inside a
/// module text, so does the output: that text is written last. A last line that lacks its LF is written with one.
///
/// The lines of a piece are flushed before the next is read. Returns the counts of the events.
///
/// # Errors
/// After an error, a beginning of such a script is written, the last line perhaps in part.
/// - `Read` where the reader fails, and in the line of the first byte past the limits.
/// - `Write` where the writer fails.
/// - `OutOfMemory` where there is no memory for a line, or for events that wait.
pub fn hold_script<R: Read, W: Write>(
    alloc: Global,
    limits: HoldLimits,
    reader: &mut R,
    writer: &mut W,
) -> Result<Counts, ScriptFault>
    requires { limits.script.lines + 1 < 2 ^ 64 }
    ensures ok { IfOk result (λ counts. IfSome (R.remaining reader.old) (λ input. (output : List ℕ)
        × IsHeldScript limits.bound input counts output
        × Appends (W.contents writer.old) (W.contents writer.new) output)) }
    ensures err { OnErr result (IfSome (R.remaining reader.old) (λ input. (part : List ℕ)
        × IsHeldScriptPart limits.bound input part
        × Appends (W.contents writer.old) (W.contents writer.new) part)) }
    ensures fault { IfErr result (λ e. of_script e ≡ true) }
    ensures within { OnOk result (IfSome (R.remaining reader.old) (λ input. IsWithinLimits limits.script input)) }
{
    let mut piece = vec![in alloc; 0u8; SCRIPT_PIECE_BYTES]?;
    let mut run = LineRun::new(alloc, limits.script, limits.bound);
    let counts = run_by_pieces(&mut run, reader, writer, piece.as_mut_slice())?;
    flush_out(writer)?;
    Ok(counts)
}

// Reads a whole script into a run that has read nothing yet, with `piece` as the buffer of the reads. The lines of a
// piece are flushed before the next is read.
fn run_by_pieces<R: Read, W: Write>(
    run: &mut LineRun,
    reader: &mut R,
    writer: &mut W,
    piece: &mut [u8],
) -> Result<Counts, ScriptFault>
    requires new { IsNewLineRun run.old.reader.script.limits run.old.lines.stage.bound run.old }
    requires some { 0 < length piece.old }
    ensures ok { IfOk result (λ counts. LinesRunSucceeds run.old.reader.script.limits run.old.lines.stage.bound
        (R.remaining reader.old) counts (W.contents writer.old) (W.contents writer.new)) }
    ensures err { OnErr result (LinesRunFails run.old.lines.stage.bound
        (R.remaining reader.old) (W.contents writer.old) (W.contents writer.new)) }
    ensures fault { IfErr result (λ e. of_script e ≡ true) }
{
    for _ in 0..u64::MAX {
        let n = read_piece(reader, piece)?;
        if n == 0 {
            return run.finish(writer);
        }
        run.take_piece(writer, &piece[..n])?;
        flush_out(writer)?;
    }
    Err(ScriptFault::Read)
}
