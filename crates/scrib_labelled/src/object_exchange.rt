//! Reads most objects of a long script: exchanges without escapes and other members. The quickest way is for those that
//! are spelled as the program prints objects.

ghost use Rattle.std.specs.Prelude.{◌≡◌, ◌++◌, ◌∷◌, true, IfSome, OnOk};
ghost use Rattle.scrib_objects.specs.ExchangeObjects as objects;
ghost use Rattle.scrib_report.specs.PutBack.{bytes_of, tag_text};
ghost use Rattle.scrib_labelled.specs.ExchangeLines.{IsExchangeLine};

use crate::exchange_line::{ExchangeLine, exchange_in};
use crate::label_options::LabelOptions;
use crate::object_lines::{MAX_OBJECT_BYTES, object_options};
use crate::script_line::ScriptLine;
use scrib_labels::session_names::SessionNames;
use scrib_objects::exchange_members::exchange_in_any_order;
use scrib_objects::exchange_object::{ExchangeObject, exchange_object};
use scrib_objects::object_options::ObjectOptions;
use scrib_script_reader::reader::Reader;
use scrib_types::text::push_bytes;
use std::alloc::AllocError;

/// Scratch for what an object stands for.
#[derive(Drop)]
pub(crate) struct ObjectText {
    /// The line.
    pub(crate) line: Vec<u8>,
    /// What its reply begins with for the tag.
    pub(crate) tag_text: Vec<u8>,
}

/// Returns the exchange of an object, given without its end, that has no escapes and no other members, and whose
/// conversation is a number or has a name with a number. None of other objects, and where memory is refused.
#[inline(always)]
pub(crate) fn object_exchange<'a>(
    reader: &mut Reader,
    names: &SessionNames,
    options: LabelOptions,
    text: &'a mut ObjectText,
    line: ScriptLine<'a>,
) -> Option<ExchangeLine<'a>>
    requires { options.objects ≡ true }
    ensures exchange { IfSome result (IsExchangeLine options names.now line.entry.bytes.now) }
    ensures line { IfSome result (λ e. e.line ≡ line.entry.number) }
    ensures text { IfSome result (λ e. e.text.now ≡ line.entry.bytes.now) }
{
    if line.bytes.len() > MAX_OBJECT_BYTES {
        return None;
    }
    let object = spelled_exchange(object_options(options), line.bytes)?;
    let Ok(()) = write_object(text, object) else {
        return None;
    };
    let ObjectText {
        line: plain,
        tag_text,
    } = text;
    let exchange = exchange_in(reader, names, options.names, plain.as_slice())?;
    Some(ExchangeLine {
        line: line.number,
        text: line.bytes,
        tag: object.tag,
        tag_text: tag_text.as_slice(),
        name: exchange.name,
        id: exchange.id,
        event: exchange.event,
    })
}

// The exchange that the object spells.
#[inline(always)]
fn spelled_exchange(options: ObjectOptions, line: &[u8]) -> Option<ExchangeObject<'_>>
    ensures { IfSome result (objects.IsExchangeObject options line.now) }
{
    match exchange_object(options, line) {
        Some(object) => Some(object),
        None => exchange_in_any_order(options, line),
    }
}

// Writes the line of the exchange, and what its reply begins with.
fn write_object(text: &mut ObjectText, object: ExchangeObject<'_>) -> Result<(), AllocError>
    ensures line { OnOk result (text.new.line.items ≡ objects.exchange_line object.entry) }
    ensures tag { OnOk result (text.new.tag_text.items ≡ tag_text (bytes_of object.entry.tag)) }
{
    write_line(&mut text.line, object)?;
    write_tag(&mut text.tag_text, object.tag)
}

// Writes the line of the exchange.
fn write_line(line: &mut Vec<u8>, object: ExchangeObject<'_>) -> Result<(), AllocError>
    ensures { OnOk result (line.new.items ≡ objects.exchange_line object.entry) }
{
    line.clear();
    push_bytes(line, object.word)?;
    push_field(line, object.id)?;
    push_field(line, object.from)?;
    push_field(line, object.to)?;
    push_field(line, object.message)
}

// Appends a blank and the field.
fn push_field(line: &mut Vec<u8>, field: &[u8]) -> Result<(), AllocError>
    ensures { OnOk result (line.new.items ≡ line.old.items ++ 32 ∷ field.now) }
{
    line.push(b' ')?;
    push_bytes(line, field)
}

// Writes what a reply begins with for the tag.
fn write_tag(text: &mut Vec<u8>, tag: Option<&[u8]>) -> Result<(), AllocError>
    ensures { OnOk result (text.new.items ≡ tag_text (bytes_of tag.entry)) }
{
    text.clear();
    let Some(tag) = tag else {
        return Ok(());
    };
    text.push(b'@')?;
    push_bytes(text, tag)?;
    text.push(b' ')?;
    Ok(())
}
