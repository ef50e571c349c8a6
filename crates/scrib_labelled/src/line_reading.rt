//! Reads a line with its label: the meaning of the line that it stands for.

ghost use Rattle.std.specs.Prelude.{◌≡◌, false, IfOk};
ghost use Rattle.scrib_labels.specs.Naming.{IsNumberFor};
ghost use Rattle.scrib_labelled.specs.NamedLines.{ReadsAs, ReadsRest, session_of};

use crate::label_options::LabelOptions;
use crate::labelled_line::{Named, Untagged, conversation_in, without_tag};
use crate::line_parts::{LineParts, Session};
use crate::script_line::ScriptLine;
use scrib_labels::session_line::push_numbered_line;
use scrib_labels::session_names::SessionNames;
use scrib_script_reader::line::{Line, MAX_LINE_BYTES};
use scrib_script_reader::reader::Reader;
use std::alloc::AllocError;

/// Returns the label of a line, given without its end, and the meaning of the line that it stands for. `plain` is scratch.
///
/// # Errors
/// `AllocError` where memory for the line or its step is refused, or no number is left for its name.
pub(crate) fn read_line<'a>(
    reader: &mut Reader,
    plain: &mut Vec<u8>,
    names: &SessionNames,
    options: LabelOptions,
    line: ScriptLine<'a>,
) -> Result<(LineParts<'a>, Line), AllocError>
    requires { options.objects ≡ false }
    ensures reads { IfOk result (λ r. ReadsAs options names.now line.entry.bytes.now r.0 r.1) }
    ensures line { IfOk result (λ r. r.0.line ≡ line.entry.number) }
    ensures text { IfOk result (λ r. r.0.text.now ≡ line.entry.bytes.now) }
{
    let ScriptLine { number, bytes } = line;
    if bytes.len() > MAX_LINE_BYTES {
        let parts = LineParts {
            line: number,
            text: bytes,
            tag: None,
            session: None,
        };
        return Ok((parts, Line::Bad));
    }
    let Untagged { tag, rest } = without_tag(options.tags, bytes);
    let (session, meaning) = read_untagged(reader, plain, names, options.names, rest)?;
    let parts = LineParts {
        line: number,
        text: bytes,
        tag,
        session,
    };
    Ok((parts, meaning))
}

/// Returns the conversation that a line without its tag names, where conversations may have names, and the meaning of the
/// line that it stands for. `plain` is scratch.
///
/// # Errors
/// As those of [`read_line`].
pub(crate) fn read_untagged<'a>(
    reader: &mut Reader,
    plain: &mut Vec<u8>,
    names: &SessionNames,
    named: bool,
    rest: &'a [u8],
) -> Result<(Option<Session<'a>>, Line), AllocError>
    ensures { IfOk result (λ r. ReadsRest names.now named rest.now (session_of r.0) r.1) }
{
    match conversation_in(named, rest) {
        Named::Whole => Ok((None, reader.line(rest)?)),
        Named::Bad => Ok((None, Line::Bad)),
        Named::Session(line) => {
            let session = session_for(names, line.name)?;
            plain.clear();
            push_numbered_line(plain, line, session.number)?;
            Ok((Some(session), reader.line(plain.as_slice())?))
        }
    }
}

// Returns the conversation of this name, with the number that stands for the name.
fn session_for<'a>(names: &SessionNames, name: &'a [u8]) -> Result<Session<'a>, AllocError>
    ensures name { IfOk result (λ s. s.name.now ≡ name.now) }
    ensures number { IfOk result (λ s. IsNumberFor names.now s.name.now s.number) }
{
    let Ok(name) = str::from_utf8(name) else {
        return Err(AllocError);
    };
    let number = names.number_for(name)?;
    Ok(Session { name, number })
}
