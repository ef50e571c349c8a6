//! What single lines give.

ghost use Rattle.std.specs.Prelude.{◌≡◌, ◌↔◌, ◌∷◌, [], IsTrue, IfOk, option_map};
ghost use Rattle.scrib_core.specs.declared.step.Step.TheVariants.{Put};
ghost use Rattle.scrib_script_reader.specs.Scripts.{text_end};
ghost use Rattle.scrib_script_reader.specs.Entries.{entry_list};
ghost use Rattle.scrib_script_reader.specs.Positions.{as_text, begun_text, entries_of, last_entries, TextGives};
ghost use Rattle.scrib_script_reader.specs.declared.item.Item.TheVariants as item;

use crate::entry::Entry;
use crate::item::Item;
use crate::kept_bytes::{KEPT_TEXT_BYTES, KeptText, append_up_to, without_cr};
use crate::line::Line;
use scrib_core::format::Format;
use scrib_core::step::Step;
use scrib_types::containers::Items;
use std::alloc::{AllocError, Global};

// The entry that a line of this meaning and number gives, and the module text that begins after it, which is still
// empty.
pub(crate) fn entry_of(line: Line, number: u64, alloc: Global) -> (Option<Entry>, Option<KeptText>)
    ensures text { option_map as_text result.1 ≡ begun_text line }
    ensures entry { entry_list result.0 ≡ entries_of number line }
{
    match line {
        Line::Skipped => (Some(Entry::Skipped), None),
        Line::Put(format) => {
            let bytes = Vec::new(alloc);
            (None, Some(KeptText { bytes, format }))
        }
        Line::Step(format, step) => (Some(Entry::Item(Item::Step(format, step))), None),
        Line::Sweep(format) => (Some(Entry::Item(Item::Sweep(format))), None),
        Line::Bad => (Some(Entry::Item(Item::BadLine(number))), None),
    }
}

// The entry that the last line gives. A module text that begins after it does not end.
pub(crate) fn last_entry_of(line: Line, number: u64) -> Entry
    ensures { result ∷ [] ≡ last_entries number line }
{
    match line {
        Line::Skipped => Entry::Skipped,
        Line::Put(_) => Entry::Item(Item::EndOfText),
        Line::Step(format, step) => Entry::Item(Item::Step(format, step)),
        Line::Sweep(format) => Entry::Item(Item::Sweep(format)),
        Line::Bad => Entry::Item(Item::BadLine(number)),
    }
}

// Whether this line, without its end, ends a module text.
pub(crate) fn is_text_end(bytes: &[u8]) -> bool
    ensures { IsTrue result ↔ (bytes.now ≡ text_end) }
{
    bytes == b"%%".as_slice()
}

// The put of the module text.
pub(crate) fn put_of(text: KeptText) -> Item
    ensures { result ≡ item.Step text.format (Put text.bytes.items) }
{
    let KeptText { bytes, format } = text;
    let text = Items::from_vec(bytes);
    Item::Step(format, Step::Put { text })
}

// The put of the module text where the line, which an LF ended, is `%%`; else the text with the line appended.
pub(crate) fn text_line_entry(
    mut text: KeptText,
    line: &[u8],
) -> Result<(Option<Entry>, Option<KeptText>), AllocError>
    ensures { IfOk result (λ r. TextGives (as_text text) line.now (option_map as_text r.1) (entry_list r.0)) }
{
    if is_text_end(without_cr(line)) {
        return Ok((Some(Entry::Item(put_of(text))), None));
    }
    append_up_to(&mut text.bytes, line, KEPT_TEXT_BYTES)?;
    append_up_to(&mut text.bytes, b"\n", KEPT_TEXT_BYTES)?;
    Ok((None, Some(text)))
}
