//! Reads most lines of a long script: exchanges, and joins by number, that are spelled with single blanks.

ghost use Rattle.std.specs.Prelude.{◌≡◌, Some, true, false, IfSome};
ghost use Rattle.scrib_labels.specs.Naming.{number_of};
ghost use Rattle.scrib_report.specs.PutBack.{bytes_of, tag_text};
ghost use Rattle.scrib_labelled.specs.ExchangeLines.{IsExchangeIn, IsExchangeLine};
ghost use Rattle.scrib_labelled.specs.LabelledLines.{IsUntagged};

use crate::label_options::LabelOptions;
use crate::script_line::ScriptLine;
use scrib_labels::session_names::SessionNames;
use scrib_labels::tag::{TagHead, begins_tag, tag_head};
use scrib_script_reader::head::word_head_of;
use scrib_script_reader::line::MAX_LINE_BYTES;
use scrib_script_reader::reader::Reader;
use scrib_types::shared_event::SharedEvent;

/// The line of an exchange or of a join, with its label.
#[derive(Drop)]
pub struct ExchangeLine<'a> {
    /// The number of the line, from 1.
    pub line: u64,
    /// The line, without its end.
    pub text: &'a [u8],
    /// The tag, if the line has one.
    pub tag: Option<&'a [u8]>,
    /// What a reply begins with for the tag.
    pub tag_text: &'a [u8],
    /// The name of the conversation, if it has one.
    pub name: Option<&'a [u8]>,
    /// The number of the conversation.
    pub id: u32,
    /// The event.
    pub event: SharedEvent,
}

// A line without its tag, and what a reply begins with for the tag.
#[derive(Clone, Copy)]
struct LineHead<'a> {
    tag: Option<&'a [u8]>,
    tag_text: &'a [u8],
    rest: &'a [u8],
}

/// The conversation and the event of an exchange or of a join.
#[derive(Drop)]
pub(crate) struct Exchange<'a> {
    pub(crate) name: Option<&'a [u8]>,
    pub(crate) id: u32,
    pub(crate) event: SharedEvent,
}

/// Returns the exchange of a line, given without its end, that is spelled with single blanks, and whose conversation is a
/// number or has a name with a number; also a join whose conversation is a number. None of other lines, some of which are
/// exchanges or joins, and where memory is refused.
#[inline(always)]
pub(crate) fn exchange_line<'a>(
    reader: &mut Reader,
    names: &SessionNames,
    options: LabelOptions,
    line: ScriptLine<'a>,
) -> Option<ExchangeLine<'a>>
    requires { options.objects ≡ false }
    ensures exchange { IfSome result (IsExchangeLine options names.now line.entry.bytes.now) }
    ensures line { IfSome result (λ e. e.line ≡ line.entry.number) }
    ensures text { IfSome result (λ e. e.text.now ≡ line.entry.bytes.now) }
{
    if line.bytes.len() > MAX_LINE_BYTES {
        return None;
    }
    let head = line_head(options.tags, line.bytes)?;
    let exchange = exchange_in(reader, names, options.names, head.rest)?;
    Some(ExchangeLine {
        line: line.number,
        text: line.bytes,
        tag: head.tag,
        tag_text: head.tag_text,
        name: exchange.name,
        id: exchange.id,
        event: exchange.event,
    })
}

// The line without its tag, where lines may have tags. None where a tag has no single blank behind it.
#[inline(always)]
fn line_head(tags: bool, line: &[u8]) -> Option<LineHead<'_>>
    ensures untagged { IfSome result (λ h. IsUntagged tags line.now (bytes_of h.tag) h.rest.now) }
    ensures tag_text { IfSome result (λ h. h.tag_text.now ≡ tag_text (bytes_of h.tag)) }
{
    if !tags || !begins_tag(line) {
        return Some(LineHead {
            tag: None,
            tag_text: &[],
            rest: line,
        });
    }
    let TagHead { tag, head, rest } = tag_head(line)?;
    Some(LineHead {
        tag: Some(tag),
        tag_text: head,
        rest,
    })
}

/// The exchange of a line without its tag, where conversations may have names; or the join, where they have none.
#[inline(always)]
pub(crate) fn exchange_in<'a>(
    reader: &mut Reader,
    names: &SessionNames,
    named: bool,
    rest: &'a [u8],
) -> Option<Exchange<'a>>
    ensures { IfSome result (IsExchangeIn names.now named rest.now) }
{
    if named {
        return named_exchange(reader, names, rest);
    }
    let Ok(Some((id, event))) = reader.note(rest) else {
        return None;
    };
    Some(Exchange {
        name: None,
        id,
        event,
    })
}

// The exchange of a line whose conversation has a name, if the name has a number.
#[inline(always)]
fn named_exchange<'a>(
    reader: &mut Reader,
    names: &SessionNames,
    rest: &'a [u8],
) -> Option<Exchange<'a>>
    ensures { IfSome result (IsExchangeIn names.now true rest.now) }
{
    let head = word_head_of(rest)?;
    let id = number_of(names, head.word)?;
    let Ok(Some(event)) = reader.word_exchange(head) else {
        return None;
    };
    Some(Exchange {
        name: Some(head.word),
        id,
        event,
    })
}

// The number of the name, if it has one.
#[inline(always)]
fn number_of(names: &SessionNames, name: &[u8]) -> Option<u32>
    ensures { IfSome result (λ number. number_of names.now name.now ≡ Some number) }
{
    match names.find(name) {
        Some(number) => Some(number),
        None => other_number_of(names, name),
    }
}

// The same, where its hash does not lead to it.
#[inline(never)]
fn other_number_of(names: &SessionNames, name: &[u8]) -> Option<u32>
    ensures { IfSome result (λ number. number_of names.now name.now ≡ Some number) }
{
    match str::from_utf8(name) {
        Ok(name) => names.number_of(name),
        Err(_) => None,
    }
}
