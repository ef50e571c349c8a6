//! Writes the parts of an output.

ghost use Rattle.std.specs.Prelude.{◌≡◌, true, OnOk, OnErr, IfErr};
ghost use Rattle.std.specs.Io.KnownBytes.{Appends};
ghost use Rattle.scrib_report.specs.Parts.{part_of};
ghost use Rattle.scrib_report.specs.ReplyTexts.{part_text};
ghost use Rattle.scrib_script_io.specs.Writes.{AppendsPart};
ghost use Rattle.scrib_script_io.specs.Faults.{of_output};

use scrib_core::format::Format;
use scrib_report::part::OutputPart;
use scrib_report::printing::push_part;
use scrib_script_io::fault::ScriptFault;
use scrib_script_io::writing::write_out;
use std::io::Write;

/// Writes the part in this format. Its text is made in `buffer`, which is cleared first.
///
/// # Errors
/// After an error, nothing or a prefix of the text is written: `Write` where the writer fails, `OutOfMemory` where
/// memory is refused.
pub fn write_part<W: Write>(
    buffer: &mut Vec<u8>,
    part: &OutputPart<'_>,
    format: Format,
    writer: &mut W,
) -> Result<(), ScriptFault>
    ensures ok { OnOk result
        (Appends (W.contents writer.old) (W.contents writer.new) (part_text format (part_of part.now))) }
    ensures err { OnErr result
        (AppendsPart (W.contents writer.old) (W.contents writer.new) (part_text format (part_of part.now))) }
    ensures fault { IfErr result (λ e. of_output e ≡ true) }
{
    buffer.clear();
    push_part(buffer, part, format)?;
    write_out(writer, buffer.as_slice())
}
