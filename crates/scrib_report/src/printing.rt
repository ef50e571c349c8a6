//! The text of an output, part by part, as lines of text or as JSON.

ghost use Rattle.std.specs.Prelude.{◌≡◌, ◌++◌, IfOk, OnOk};
ghost use Rattle.scrib_report.specs.Parts.{part_of};
ghost use Rattle.scrib_report.specs.ReplyTexts.{part_text, reply_format};

use crate::json_output::push_json_part;
use crate::line_output::push_line_part;
use crate::part::OutputPart;
use scrib_core::format::Format;
use std::alloc::{AllocError, Global};

/// Returns the format of a reply, from those of the output and of its line: JSON where either is.
pub fn reply_format(output: Format, asked: Format) -> Format
    ensures { result ≡ reply_format output asked }
{
    if matches!(output, Format::Json) {
        Format::Json
    } else {
        asked
    }
}

/// Appends the part in this format: one line with its LF, or of a table all lines.
///
/// # Errors
/// `AllocError` where memory is refused.
#[inline(always)]
pub fn push_part(
    text: &mut Vec<u8>,
    part: &OutputPart<'_>,
    format: Format,
) -> Result<(), AllocError>
    ensures { OnOk result (text.new.items ≡ text.old.items ++ part_text format (part_of part.now)) }
{
    match format {
        Format::Line => push_line_part(text, part),
        Format::Json => push_json_part(text, part),
    }
}

/// Returns the text of the part in this format, as [`push_part`] appends it.
///
/// # Errors
/// `AllocError` where memory is refused.
pub fn text_of_part(
    alloc: Global,
    part: &OutputPart<'_>,
    format: Format,
) -> Result<Vec<u8>, AllocError>
    ensures { IfOk result (λ text. text.items ≡ part_text format (part_of part.now)) }
{
    let mut text = Vec::new(alloc);
    push_part(&mut text, part, format)?;
    Ok(text)
}
