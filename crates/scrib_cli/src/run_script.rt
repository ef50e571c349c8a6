//! Runs a whole script from a reader.

ghost use Rattle.std.specs.Prelude.{◌≡◌, ◌<◌, ◌+◌, ◌^◌, ℕ, List, true, IfOk, IfErr, OnOk, OnErr, IfSome, length};
ghost use Rattle.std.specs.Io.KnownBytes.{Appends};
ghost use Rattle.scrib_core.specs.Held.{state_of};
ghost use Rattle.scrib_script_io.specs.Writes.{AppendsPart};
ghost use Rattle.scrib_cli.specs.Scripts.{IsOutput};
ghost use Rattle.scrib_script_io.specs.Faults.{of_script};
ghost use Rattle.scrib_cli.specs.Progress.{IsNew, RunSucceeds, RunFails};
ghost use Rattle.scrib_script_reader.specs.Limits.{of_scripts, IsWithinLimits};

use crate::output_mode::OutputMode;
use crate::run::ScriptRun;
pub use scrib_core::format::Format;
use scrib_core::monitor::Core;
pub use scrib_script_io::fault::ScriptFault;
use scrib_script_io::reading::read_piece;
use scrib_script_io::writing::flush_out;
pub use scrib_script_reader::limits::Limits;
use std::alloc::Global;
use std::io::{Read, Write};
use std::mem::forget;

// The number of bytes that one read asks for.
const SCRIPT_PIECE_BYTES: usize = 65_536;

/// Reads a script, makes its steps over a new monitor, and writes each reply in this format.
///
/// A reply is a line of text, or a line that is one JSON object. A step whose line begins with `json` has its reply in
/// JSON in both formats. A bad line is written as `refused BadLine 3` or `{"line":3,"refused":"BadLine"}`. An end
/// inside a module text is written as `refused EndOfText` or `{"refused":"EndOfText"}`.
///
/// The output does not depend on how reads and writes are cut. The writer is flushed before each read and at the end,
/// so no reply waits for further input. The memory of the monitor is not freed: a process runs one script.
///
/// # Errors
/// After an error, a prefix of the script's output is written.
/// - `Read` where the reader fails, and in the line of the first byte past 16,777,216 lines or 1,099,511,627,776 bytes.
/// - `Write` where the writer fails.
/// - `OutOfMemory` where there is no memory for a line or a reply's text. A step that lacks memory is refused in its
///   reply, and the script continues.
pub fn run_script<R: Read, W: Write>(
    alloc: Global,
    format: Format,
    reader: &mut R,
    writer: &mut W,
) -> Result<(), ScriptFault>
    ensures ok { OnOk result (IfSome (R.remaining reader.old) (λ input. (output : List ℕ)
        × IsOutput format input output
        × Appends (W.contents writer.old) (W.contents writer.new) output)) }
    ensures err { OnErr result (IfSome (R.remaining reader.old) (λ input. (output : List ℕ)
        × IsOutput format input output
        × AppendsPart (W.contents writer.old) (W.contents writer.new) output)) }
    ensures fault { IfErr result (λ e. of_script e ≡ true) }
    ensures within { OnOk result (IfSome (R.remaining reader.old) (λ input. IsWithinLimits of_scripts input)) }
{
    run_script_within(alloc, format, Limits::of_scripts(), reader, writer)
}

/// Runs a script as [`run_script`] does, within these limits instead of its own.
///
/// # Errors
/// As those of [`run_script`], where `Read` comes in the line of the first byte past these limits.
pub fn run_script_within<R: Read, W: Write>(
    alloc: Global,
    format: Format,
    limits: Limits,
    reader: &mut R,
    writer: &mut W,
) -> Result<(), ScriptFault>
    requires { limits.lines + 1 < 2 ^ 64 }
    ensures ok { OnOk result (IfSome (R.remaining reader.old) (λ input. (output : List ℕ)
        × IsOutput format input output
        × Appends (W.contents writer.old) (W.contents writer.new) output)) }
    ensures err { OnErr result (IfSome (R.remaining reader.old) (λ input. (output : List ℕ)
        × IsOutput format input output
        × AppendsPart (W.contents writer.old) (W.contents writer.new) output)) }
    ensures fault { IfErr result (λ e. of_script e ≡ true) }
    ensures within { OnOk result (IfSome (R.remaining reader.old) (λ input. IsWithinLimits limits input)) }
{
    let core = run_whole(alloc, limits, OutputMode::Printed(format), reader, writer)?;
    // Freeing long logs, event by event, takes up to a tenth of a run, and the process ends here.
    forget(core);
    flush_out(writer)
}

// Reads a script of these limits and makes its steps over a new monitor, which it returns.
pub(crate) fn run_whole<R: Read, W: Write>(
    alloc: Global,
    limits: Limits,
    output_mode: OutputMode,
    reader: &mut R,
    writer: &mut W,
) -> Result<Core, ScriptFault>
    requires { limits.lines + 1 < 2 ^ 64 }
    ensures ok { IfOk result (λ core. RunSucceeds limits output_mode (R.remaining reader.old)
        (state_of core) (W.contents writer.old) (W.contents writer.new)) }
    ensures err { OnErr result
        (RunFails output_mode (R.remaining reader.old) (W.contents writer.old) (W.contents writer.new)) }
    ensures fault { IfErr result (λ e. of_script e ≡ true) }
{
    let mut piece = vec![in alloc; 0u8; SCRIPT_PIECE_BYTES]?;
    let mut run = ScriptRun::new(alloc, limits, output_mode);
    run_by_pieces(&mut run, reader, writer, piece.as_mut_slice())?;
    Ok(run.into_core())
}

// Reads a whole script into a run that has read nothing yet, with `piece` as the buffer of the reads. The replies of a
// piece are flushed before the next is read.
fn run_by_pieces<R: Read, W: Write>(
    run: &mut ScriptRun,
    reader: &mut R,
    writer: &mut W,
    piece: &mut [u8],
) -> Result<(), ScriptFault>
    requires new { IsNew run.old.script.limits run.old.output_mode run.old }
    requires some { 0 < length piece.old }
    ensures ok { OnOk result (RunSucceeds run.old.script.limits run.old.output_mode (R.remaining reader.old)
        (state_of run.new.core) (W.contents writer.old) (W.contents writer.new)) }
    ensures err { OnErr result
        (RunFails run.old.output_mode (R.remaining reader.old) (W.contents writer.old) (W.contents writer.new)) }
    ensures fault { IfErr result (λ e. of_script e ≡ true) }
{
    for _ in 0..u64::MAX {
        let n = read_piece(reader, piece)?;
        if n == 0 {
            run.finish(writer)?;
            return Ok(());
        }
        run.take_piece(writer, &piece[..n])?;
        flush_out(writer)?;
    }
    Err(ScriptFault::Read)
}
