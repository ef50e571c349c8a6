//! Shows a conversation of a script.

ghost use Rattle.std.specs.Prelude.{◌≡◌, ◌<◌, ◌⊎◌, [], ℕ, List, Bool, true, IfOk, IfErr, OnOk, OnErr, IfSome, length};
ghost use Rattle.std.specs.Io.KnownBytes.{Appends};
ghost use Rattle.scrib_script_io.specs.Writes.{AppendsPart};
ghost use Rattle.scrib_script_io.specs.Faults.{of_script};
ghost use Rattle.scrib_script_reader.specs.Limits.{of_scripts, IsWithinLimits};
ghost use Rattle.scrib_show.specs.Shown.{IsShowOutput};
ghost use Rattle.scrib_show.specs.Progress.{HasReadScript, IsNewRun};

use crate::line_monitor::LineMonitor;
pub use crate::show_form::ShowForm;
use crate::show_run::ShowRun;
use crate::shown::shown;
pub use scrib_script_io::fault::ScriptFault;
use scrib_script_io::reading::read_piece;
use scrib_script_io::writing::{flush_out, write_out};
use scrib_script_reader::limits::Limits;
use std::alloc::Global;
use std::io::{Read, Write};

// The number of bytes that one read asks for.
const SCRIPT_PIECE_BYTES: usize = 65_536;

/// Reads a script, makes its steps over a new monitor without output, and shows the conversation `id` in this form.
///
/// What is shown as text, after a permitted log:
/// - a line as `orders.Order, 35 events: permitted`, with `permitted, complete` where the log is complete;
/// - the last ten events, each with the number of the line that noted it, behind a line as `events 26 to 35:`;
/// - the messages in flight, as `in flight: A B hello(), B C bye()`;
/// - a line for each declared role, with what it may do next, as `next_script` prints it.
///
/// After an offence the first line ends as `offence at event 11 by Payment: NotSent`, with the reason. The last ten
/// events up to the offence are shown, and the messages in flight and the roles are those before it. Where the library
/// has no such protocol, the first line ends with `withdrawn`, and only the events are shown. Where the reported verdict
/// is stale, the number of events has `, stale` behind it, and the log is judged by the protocol's present meaning.
///
/// A chart is the text of a sequence diagram. It has a participant for each role, an arrow for each message that was
/// received, in that order, and an open arrow for each in flight: the last 500 arrows. After an offence it has those
/// before it, and a note of the offence. Where the library has no such protocol, the output is the line
/// `refused UnknownProtocol`.
///
/// Where the conversation is not open, the output is the line `refused NoConversation`. Returns whether it is no
/// refusal. Flushes the writer. The time of the judgement is that of `explain_script` and `next_script`.
///
/// # Errors
/// After an error, nothing or a prefix of the output is written.
/// - `Read` where the reader fails, and in the line of the first byte past 16,777,216 lines or 1,099,511,627,776 bytes.
/// - `Write` where the writer fails.
/// - `OutOfMemory` where there is no memory for a line, a step or the text.
pub fn show_script<R: Read, W: Write>(
    alloc: Global,
    form: ShowForm,
    reader: &mut R,
    id: u32,
    writer: &mut W,
) -> Result<bool, ScriptFault>
    ensures ok { IfOk result (λ shown. IfSome (R.remaining reader.old) (λ input. (output : List ℕ)
        × IsShowOutput form input id shown output
        × Appends (W.contents writer.old) (W.contents writer.new) output)) }
    ensures err { OnErr result (IfSome (R.remaining reader.old) (λ input.
        Appends (W.contents writer.old) (W.contents writer.new) []
        ⊎ ((shown : Bool) × (output : List ℕ) × IsShowOutput form input id shown output
        × AppendsPart (W.contents writer.old) (W.contents writer.new) output))) }
    ensures fault { IfErr result (λ e. of_script e ≡ true) }
    ensures within { OnOk result (IfSome (R.remaining reader.old) (λ input. IsWithinLimits of_scripts input)) }
{
    let monitor = run_script(alloc, id, reader)?;
    let (shown, text) = shown(alloc, form, &monitor)?;
    write_out(writer, text.as_slice())?;
    flush_out(writer)?;
    Ok(shown)
}

// Reads a whole script, and makes its steps over a new monitor.
fn run_script<R: Read>(alloc: Global, id: u32, reader: &mut R) -> Result<LineMonitor, ScriptFault>
    ensures ok { IfOk result (λ monitor. HasReadScript of_scripts id (R.remaining reader.old) monitor) }
    ensures fault { IfErr result (λ e. of_script e ≡ true) }
{
    let mut piece = vec![in alloc; 0u8; SCRIPT_PIECE_BYTES]?;
    let mut run = ShowRun::new(alloc, Limits::of_scripts(), id);
    run_by_pieces(&mut run, reader, piece.as_mut_slice())?;
    Ok(run.into_monitor())
}

// Reads a whole script into a run that has read nothing yet, with `piece` as the buffer of the reads.
fn run_by_pieces<R: Read>(
    run: &mut ShowRun,
    reader: &mut R,
    piece: &mut [u8],
) -> Result<(), ScriptFault>
    requires new { IsNewRun run.old.script.limits run.old.monitor.id run.old }
    requires some { 0 < length piece.old }
    ensures ok { OnOk result (HasReadScript run.old.script.limits run.old.monitor.id (R.remaining reader.old)
        run.new.monitor) }
    ensures fault { IfErr result (λ e. of_script e ≡ true) }
{
    for _ in 0..u64::MAX {
        let n = read_piece(reader, piece)?;
        if n == 0 {
            return run.finish();
        }
        run.take_piece(&piece[..n])?;
    }
    Err(ScriptFault::Read)
}
