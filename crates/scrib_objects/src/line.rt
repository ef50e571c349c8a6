//! The line that an object of a word stands for.

ghost use Rattle.std.specs.Prelude.{◌≡◌, ◌++◌, map, option_map, IfOk};
ghost use Rattle.json.specs.Json.{Json};
ghost use Rattle.json.specs.Find.{BeginsWith};
ghost use Rattle.scrib_types.specs.Texts.{after_each};
ghost use Rattle.scrib_objects.specs.Objects as spec;

use crate::keys::keys_of;
use crate::members::field_under;
use json::Element;
use scrib_types::text::push_bytes;
use std::alloc::AllocError;

/// Returns `start` with the line of this word behind it, or none where the object is bad.
///
/// # Errors
/// `AllocError` where memory for the longer line is refused.
pub(crate) fn line_of(
    start: Vec<u8>,
    object: &Element<'_, '_>,
    names: bool,
    json: bool,
    word: &str,
) -> Result<Option<Vec<u8>>, AllocError>
    ensures { IfOk result (λ line. (j : Json) → BeginsWith object.now j → option_map (λ l. l.items) line
        ≡ option_map (λ bytes. start.items ++ bytes) (spec.line_of names json word.now j)) }
{
    let Some(keys) = keys_of(word) else {
        return Ok(None);
    };
    let mut line = start;
    if json {
        push_bytes(&mut line, b"json ")?;
    }
    push_bytes(&mut line, word.as_bytes())?;
    with_fields(line, object, names, keys)
}

// The line with the fields under these keys, each behind a blank, or none where a key has no field.
fn with_fields(
    mut line: Vec<u8>,
    object: &Element<'_, '_>,
    names: bool,
    keys: &[&str],
) -> Result<Option<Vec<u8>>, AllocError>
    ensures { IfOk result (λ whole. (j : Json) → BeginsWith object.now j → option_map (λ l. l.items) whole
        ≡ option_map (λ fs. line.items ++ after_each 32 fs)
        (spec.fields_under names j (map (λ key. key.now) keys.now))) }
{
    for key in keys {
        let Some(field) = field_under(object, names, key) else {
            return Ok(None);
        };
        push_bytes(&mut line, b" ")?;
        push_bytes(&mut line, field.as_bytes())?;
    }
    Ok(Some(line))
}
