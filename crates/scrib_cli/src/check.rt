//! Checks a module text by putting it.

ghost use Rattle.std.specs.Prelude.{◌≡◌, true, IfOk, IfErr, OnErr, IfSome};
ghost use Rattle.std.specs.Io.KnownBytes.{Appends};
ghost use Rattle.scrib_core.specs.Held.{state_of};
ghost use Rattle.scrib_cli.specs.Checks.{IsChecked, IsPartChecked, is_accepted};
ghost use Rattle.scrib_script_io.specs.Faults.{of_output, of_script};
ghost use Rattle.scrib_report.specs.LineOutput.{reply_line};
ghost use Rattle.scrib_script_io.specs.Writes.{AppendsPart};

use crate::printing::write_part;
use crate::reading::read_text;
use scrib_core::format::Format;
pub use scrib_core::monitor::Core;
use scrib_core::reply::Reply;
use scrib_core::step::Step;
use scrib_report::part::OutputPart;
pub use scrib_script_io::fault::ScriptFault;
use scrib_script_io::writing::flush_out;
use std::alloc::Global;
use std::io::{Read, Write};

/// Reads a module text to its end, puts it, and writes the line of the reply.
///
/// The line is as `put demo: +demo.Hello` or `refused EndOfText`. Flushes the writer. Returns whether the put was
/// accepted.
///
/// # Errors
/// After an error, nothing or a prefix of the reply's line is written.
/// - `Read` where the reader fails.
/// - `Write` where the writer fails.
/// - `OutOfMemory` where there is no memory for the module text or the line. A put that lacks memory is refused in
///   its reply.
pub fn check_module<R: Read, W: Write>(
    alloc: Global,
    core: &mut Core,
    reader: &mut R,
    writer: &mut W,
) -> Result<bool, ScriptFault>
    ensures ok { IfOk result (λ accepted. IfSome (R.remaining reader.old) (λ input.
        IsChecked input (state_of core.old) accepted (state_of core.new)
        (W.contents writer.old) (W.contents writer.new))) }
    ensures err { OnErr result (IfSome (R.remaining reader.old) (λ input.
        IsPartChecked input (state_of core.old) (state_of core.new) (W.contents writer.old) (W.contents writer.new))) }
    ensures fault { IfErr result (λ e. of_script e ≡ true) }
{
    let text = read_text(alloc, reader)?;
    let reply = core.apply(Step::Put { text });
    write_put_reply(alloc, &reply, writer)
}

// Writes the reply's line and flushes the writer. Returns whether the edit was accepted.
fn write_put_reply<W: Write>(
    alloc: Global,
    reply: &Reply,
    writer: &mut W,
) -> Result<bool, ScriptFault>
    ensures ok { IfOk result (λ accepted. (accepted ≡ is_accepted reply.now)
        × Appends (W.contents writer.old) (W.contents writer.new) (reply_line reply.now)) }
    ensures err { OnErr result (AppendsPart (W.contents writer.old) (W.contents writer.new) (reply_line reply.now)) }
    ensures fault { IfErr result (λ e. of_output e ≡ true) }
{
    let mut buffer = Vec::new(alloc);
    let part = OutputPart::Reply(reply);
    write_part(&mut buffer, &part, Format::Line, writer)?;
    flush_out(writer)?;
    Ok(is_accepted(reply))
}

// Whether the reply accepts an edit.
fn is_accepted(reply: &Reply) -> bool
    ensures { result ≡ is_accepted reply.now }
{
    matches!(reply, Reply::Edited { .. })
}
