//! Runs a whole script with labels from a reader.

ghost use Rattle.std.specs.Prelude.{◌≡◌, ◌<◌, ◌+◌, ◌^◌, [], ℕ, List, true, IfOk, IfErr, OnOk, OnErr, IfSome, length};
ghost use Rattle.std.specs.Io.KnownBytes.{Appends};
ghost use Rattle.scrib_script_io.specs.Faults.{of_script};
ghost use Rattle.scrib_script_reader.specs.Limits.{IsWithinLimits};
ghost use Rattle.scrib_labelled.specs.LabelledRuns.{IsLabelledOutput, IsLabelledPart};
ghost use Rattle.scrib_labelled.specs.Readings.{IsAt, ReadingFails, ReadingSucceeds, beginning};

use crate::entry_stage::EntryStage;
pub use crate::label_options::LabelledStyle;
use crate::labelled_run::LabelledRun;
use crate::named_monitor::NamedMonitor;
pub use scrib_script_io::fault::ScriptFault;
use scrib_script_io::reading::read_piece;
use scrib_script_io::writing::flush_out;
pub use scrib_script_reader::limits::Limits;
use std::alloc::Global;
use std::io::{Read, Write};
use std::mem::forget;

/// The number of bytes that one read asks for.
pub const SCRIPT_PIECE_BYTES: usize = 65_536;

/// Reads a script with labels, makes its steps over a new monitor, and writes each reply in the format of `style`.
///
/// With tags, a line may begin with `@`, a tag and a blank; the reply to the line begins with the same tag. With names,
/// a session name is written where a script has the number of a conversation, and the reply has that name in place of
/// the number. A name has its number from the reply that opens its conversation to the one that closes it.
///
/// Where `style` closes conversations, each is closed once it is complete, as in `run_closing_script`. The reply to such
/// a close has the tag and the name of the line that completed the conversation.
///
/// Replies, bad lines, flushes and memory are as in `run_script`.
///
/// # Errors
/// After an error, a beginning of the script's output is written.
/// - `Read` where the reader fails, and in the line of the first byte past the script's limits.
/// - `Write` where the writer fails.
/// - `OutOfMemory` where there is no memory for a line, a name or a reply's text. A step that lacks memory is refused in
///   its reply, and the script continues.
pub fn run_labelled_script<R: Read, W: Write>(
    alloc: Global,
    style: LabelledStyle,
    limits: Limits,
    reader: &mut R,
    writer: &mut W,
) -> Result<(), ScriptFault>
    requires { limits.lines + 1 < 2 ^ 64 }
    ensures ok { OnOk result (IfSome (R.remaining reader.old) (λ input. (output : List ℕ)
        × IsLabelledOutput style input output
        × Appends (W.contents writer.old) (W.contents writer.new) output)) }
    ensures err { OnErr result (IfSome (R.remaining reader.old) (λ input. (part : List ℕ)
        × IsLabelledPart style input part
        × Appends (W.contents writer.old) (W.contents writer.new) part)) }
    ensures fault { IfErr result (λ e. of_script e ≡ true) }
    ensures within { OnOk result (IfSome (R.remaining reader.old) (λ input. IsWithinLimits limits input)) }
{
    let mut piece = vec![in alloc; 0u8; SCRIPT_PIECE_BYTES]?;
    let monitor = NamedMonitor::new(alloc, style);
    let mut run = LabelledRun::new(alloc, style.labels, limits, monitor);
    run_by_pieces(&mut run, reader, writer, piece.as_mut_slice())?;
    // Freeing long logs takes up to a tenth of a run, and the process ends here.
    forget(run);
    flush_out(writer)
}

/// Reads a whole script into a run that has read nothing yet, with `piece` as the buffer of the reads. What the stage
/// gathers for a piece is written and flushed before the next is read.
///
/// # Errors
/// After an error, a part of the output is written.
/// - `Read` where the reader fails, and in the line of the first byte past the script's limits.
/// - `Write` where the writer fails.
/// - `OutOfMemory` where there is no memory for a line, a name or a text, or the stage lacks memory.
pub fn run_by_pieces<S: EntryStage, R: Read, W: Write>(
    run: &mut LabelledRun<S>,
    reader: &mut R,
    writer: &mut W,
    piece: &mut [u8],
) -> Result<(), ScriptFault>
    requires new { IsAt S.Took (beginning run.old) run.old [] [] }
    requires some { 0 < length piece.old }
    ensures ok { OnOk result (ReadingSucceeds S.TookAll (beginning run.old) run.new.stage
        (R.remaining reader.old) (W.contents writer.old) (W.contents writer.new)) }
    ensures err { OnErr result (ReadingFails S.TookPart (beginning run.old)
        (R.remaining reader.old) (W.contents writer.old) (W.contents writer.new)) }
    ensures fault { IfErr result (λ e. of_script e ≡ true) }
{
    for _ in 0..u64::MAX {
        let n = read_piece(reader, piece)?;
        if n == 0 {
            return run.finish(writer);
        }
        run.take_piece(writer, &piece[..n])?;
        flush_out(writer)?;
    }
    Err(ScriptFault::Read)
}
