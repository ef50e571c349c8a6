//! The members of an object that stands for a line.

ghost use Rattle.std.specs.Prelude.{◌≡◌, option_map};
ghost use Rattle.json.specs.Json.{Json};
ghost use Rattle.json.specs.Find.{BeginsWith};
ghost use Rattle.scrib_script_reader.specs.Fields.{is_blank};
ghost use Rattle.scrib_objects.specs.Objects as spec;

use json::Element;
use scrib_labels::tag::is_tag;

/// Returns the string under the key, or none where no string is there.
pub(crate) fn string_under<'a>(object: &Element<'_, 'a>, key: &str) -> Option<&'a str>
    ensures { (j : Json) → BeginsWith object.now j
        → option_map (λ text. text.now) result ≡ spec.string_under key.now j }
{
    object.get(key)?.as_str()
}

/// Returns whether the reply is to be JSON, or none where the member `json` is no boolean.
pub(crate) fn json_of(object: &Element<'_, '_>) -> Option<bool>
    ensures { (j : Json) → BeginsWith object.now j → result ≡ spec.json_of j }
{
    match object.get("json") {
        Some(member) => member.as_bool(),
        None => Some(false),
    }
}

/// Returns the tag, or that the object has none. None at all where the member `tag` is no tag.
pub(crate) fn tag_of<'a>(object: &Element<'_, 'a>, tags: bool) -> Option<Option<&'a str>>
    ensures { (j : Json) → BeginsWith object.now j
        → option_map (option_map (λ tag. tag.now)) result ≡ spec.tag_of tags j }
{
    if !tags {
        return Some(None);
    }
    match object.get("tag") {
        Some(member) => Some(Some(tag_text(&member)?)),
        None => Some(None),
    }
}

// The tag that a string is.
fn tag_text<'a>(member: &Element<'_, 'a>) -> Option<&'a str>
    ensures { (j : Json) → BeginsWith member.now j → option_map (λ tag. tag.now) result ≡ spec.tag_text j }
{
    member.as_str().filter(|text| is_tag(text.as_bytes()))
}

/// Returns the field under a key behind a word, or none where the object has no such field.
pub(crate) fn field_under<'a>(object: &Element<'_, 'a>, names: bool, key: &str) -> Option<&'a str>
    ensures { (j : Json) → BeginsWith object.now j
        → option_map (λ field. field.now) result ≡ spec.field_under names j key.now }
{
    let member = object.get(key)?;
    if key == "id" {
        id_field(&member, names)
    } else {
        text_field(&member)
    }
}

// The field that the value is in the place of a conversation.
fn id_field<'a>(member: &Element<'_, 'a>, names: bool) -> Option<&'a str>
    ensures { (j : Json) → BeginsWith member.now j → option_map (λ field. field.now) result ≡ spec.id_field names j }
{
    match member.as_number() {
        Some(number) => Some(number),
        None if names => text_field(member),
        None => None,
    }
}

// The field that a string is.
fn text_field<'a>(member: &Element<'_, 'a>) -> Option<&'a str>
    ensures { (j : Json) → BeginsWith member.now j → option_map (λ field. field.now) result ≡ spec.text_field j }
{
    member.as_str().filter(|text| is_field(text.as_bytes()))
}

// Whether the bytes are one field: not empty, without blanks and tabs.
fn is_field(bytes: &[u8]) -> bool
    ensures { result ≡ spec.is_field bytes.now }
{
    !bytes.is_empty() && has_no_blank(bytes)
}

fn has_no_blank(bytes: &[u8]) -> bool
    ensures { result ≡ spec.has_no_blank bytes.now }
{
    bytes.iter().all(|byte| !is_blank(*byte))
}

/// Returns whether the byte is a blank or a tab.
pub(crate) fn is_blank(byte: u8) -> bool
    ensures { result ≡ is_blank byte }
{
    byte == b' ' || byte == b'\t'
}
