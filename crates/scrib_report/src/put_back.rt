//! Puts tags and names back into the lines of replies.

ghost use Rattle.std.specs.Prelude.{◌≡◌, ◌++◌, ◌≤◌, OnOk, length};
ghost use Rattle.scrib_report.specs.PutBack as spec;

use crate::label::Label;
use scrib_types::text::push_bytes;
use std::alloc::AllocError;

/// Appends the line of a reply, with the tag in front of it and the name in the place of the conversation's number.
///
/// The number is at the head of the line, or behind a first word `open` or `close`. A line that has none there gets no
/// name.
///
/// # Errors
/// `AllocError` where memory is refused.
pub fn push_labelled_line(
    out: &mut Vec<u8>,
    line: &[u8],
    label: Label<'_>,
) -> Result<(), AllocError>
    ensures { OnOk result (out.new.items ≡ out.old.items ++
        spec.labelled_line (spec.tag_of label.entry) (spec.name_of label.entry) line.now) }
{
    push_tag(out, label.tag)?;
    let Some(name) = label.name else {
        return push_bytes(out, line);
    };
    let at = word_len(line);
    push_bytes(out, &line[..at])?;
    push_named(out, &line[at..], name)
}

// Appends `@`, the tag and a blank, if there is a tag.
fn push_tag(out: &mut Vec<u8>, tag: Option<&[u8]>) -> Result<(), AllocError>
    ensures { OnOk result (out.new.items ≡ out.old.items ++ spec.tag_text (spec.bytes_of tag.entry)) }
{
    let Some(tag) = tag else {
        return Ok(());
    };
    push_bytes(out, b"@")?;
    push_bytes(out, tag)?;
    push_bytes(out, b" ")
}

// Appends the text with the name in the place of the digits that it begins with, if it begins with any.
fn push_named(out: &mut Vec<u8>, text: &[u8], name: &[u8]) -> Result<(), AllocError>
    ensures { OnOk result (out.new.items ≡ out.old.items ++ spec.named name.now text.now) }
{
    let digits = digits_len(text);
    if digits == 0 {
        return push_bytes(out, text);
    }
    push_bytes(out, name)?;
    push_bytes(out, &text[digits..])
}

// The number of bytes of the first word of a reply to an opening or a close, with the blank behind it; 0 for others.
fn word_len(line: &[u8]) -> usize
    ensures is { result ≡ spec.word_len line.now }
    ensures within { result ≤ length line.now }
{
    match line {
        [b'o', b'p', b'e', b'n', b' ', ..] => 5,
        [b'c', b'l', b'o', b's', b'e', b' ', ..] => 6,
        _ => 0,
    }
}

// The number of digits that the text begins with.
fn digits_len(text: &[u8]) -> usize
    ensures is { result ≡ spec.digits_len text.now }
    ensures within { result ≤ length text.now }
{
    for at in 0..text.len() {
        if text[at] < b'0' || text[at] > b'9' {
            return at;
        }
    }
    text.len()
}
