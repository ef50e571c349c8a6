//! What is written for an entry.

ghost use Rattle.std.specs.Prelude.{◌≡◌, ◌++◌, ◌==◌, IfOk, IsTrue, OnOk};
ghost use Rattle.scrib_script_reader.specs.Scripts.{NoLf};
ghost use Rattle.scrib_script_reader.specs.declared.entry.Entry.TheVariants as entries;
ghost use Rattle.scrib_hold_labelled.specs.WrittenLines as spec;

use scrib_core::step::Step;
use scrib_labelled::line_parts::Session;
use scrib_script_reader::entry::Entry;
use scrib_script_reader::item::Item;
use scrib_script_reader::kept_bytes::next_lf;
use std::alloc::{AllocError, Global};

/// Returns whether the bytes have no LF.
pub(crate) fn is_one_line(text: &[u8]) -> bool
    ensures { IsTrue result → NoLf text.now }
{
    next_lf(text).is_none()
}

/// Appends the line with its end. Behind a CR that is CR and LF, so that the CR stays a byte of the line.
///
/// # Errors
/// `AllocError` where memory is refused.
pub(crate) fn push_line(out: &mut Vec<u8>, text: &[u8]) -> Result<(), AllocError>
    ensures { OnOk result (out.new.items ≡ out.old.items ++ spec.ended text.now) }
{
    let end = end_of(text);
    out.extend_from_slice(text)?;
    out.extend_from_slice(end)
}

// Returns the end of the line.
fn end_of(text: &[u8]) -> &'static [u8]
    ensures { text.now ++ result.now ≡ spec.ended text.now }
{
    if ends_with(text, b'\r') {
        b"\r\n".as_slice()
    } else {
        b"\n".as_slice()
    }
}

// Returns whether the bytes end with this one.
fn ends_with(text: &[u8], byte: u8) -> bool
    ensures { result ≡ spec.ends_with byte text.now }
{
    match text.split_last() {
        Some((last, _front)) => *last == byte,
        None => false,
    }
}

// Returns what is written behind a module text. A text that is cut within a line is too long to be accepted. Its last
// line gets a further byte, so that it is not taken for the end of the text.
fn tail_of(text: &[u8]) -> &'static [u8]
    ensures { result.now ≡ spec.tail_of text.now }
{
    if text.is_empty() || ends_with(text, b'\n') {
        b"%%\n".as_slice()
    } else {
        b".\n%%\n".as_slice()
    }
}

// Appends the line of a put and, in scripts that are no objects, its text.
fn push_put(out: &mut Vec<u8>, objects: bool, text: &[u8], put: &[u8]) -> Result<(), AllocError>
    ensures { OnOk result (out.new.items ≡ out.old.items ++ spec.put_lines objects text.now put.now) }
{
    push_line(out, text)?;
    if objects {
        return Ok(());
    }
    let tail = tail_of(put);
    out.extend_from_slice(put)?;
    out.extend_from_slice(tail)
}

/// Returns what is written for an item of this line, where lines are objects or not.
///
/// # Errors
/// `AllocError` where memory is refused.
pub(crate) fn lines_of(
    alloc: Global,
    objects: bool,
    text: &[u8],
    item: &Item,
) -> Result<Vec<u8>, AllocError>
    ensures { IfOk result (λ lines. lines.items ≡ spec.item_lines objects text.now item.now) }
{
    let mut lines = Vec::new(alloc);
    push_item(&mut lines, objects, text, item)?;
    Ok(lines)
}

// Appends what is written for an item of this line.
fn push_item(out: &mut Vec<u8>, objects: bool, text: &[u8], item: &Item) -> Result<(), AllocError>
    ensures { OnOk result (out.new.items ≡ out.old.items ++ spec.item_lines objects text.now item.now) }
{
    match item {
        Item::Step(_format, step) => push_step(out, objects, text, step),
        Item::Sweep(_format) => push_line(out, text),
        Item::BadLine(_number) => push_line(out, text),
        Item::EndOfText => Ok(()),
    }
}

/// Returns the name of the conversation that the item closes, if the line names one.
///
/// # Errors
/// `AllocError` where memory is refused.
pub(crate) fn closed_name(
    alloc: Global,
    item: &Item,
    session: Option<Session<'_>>,
) -> Result<Option<String>, AllocError> {
    let Some(session) = session else {
        return Ok(None);
    };
    match item {
        Item::Step(_format, Step::Close { id: _id }) => {
            Ok(Some(String::from_str(alloc, session.name)?))
        }
        _ => Ok(None),
    }
}

// Appends what is written for a step of this line.
fn push_step(out: &mut Vec<u8>, objects: bool, text: &[u8], step: &Step) -> Result<(), AllocError>
    ensures { OnOk result (out.new.items ≡ out.old.items ++ spec.step_lines objects text.now step.now) }
{
    match step {
        Step::Put { text: put } => push_put(out, objects, text, put.as_slice()),
        _ => push_line(out, text),
    }
}

/// Appends the line of a put whose text the script ends in, if the item is that end.
///
/// # Errors
/// `AllocError` where memory is refused.
pub(crate) fn push_end(out: &mut Vec<u8>, text: &[u8], item: &Item) -> Result<(), AllocError>
    ensures { OnOk result (out.new.items ≡ out.old.items ++ spec.item_end text.now item.now) }
{
    match item {
        Item::EndOfText => push_line(out, text),
        Item::Step(_format, _step) => Ok(()),
        Item::Sweep(_format) => Ok(()),
        Item::BadLine(_number) => Ok(()),
    }
}
