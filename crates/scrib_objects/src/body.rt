//! What an object stands for, without its tag.

ghost use Rattle.std.specs.Prelude.{◌≡◌, option_map, IfOk};
ghost use Rattle.json.specs.Json.{Json};
ghost use Rattle.json.specs.Find.{BeginsWith};
ghost use Rattle.scrib_objects.specs.Objects as spec;

use crate::line::line_of;
use crate::members::{json_of, string_under};
use crate::object_line::ObjectBody;
use json::Element;
use scrib_core::format::Format;
use std::alloc::{AllocError, Global};

/// Returns what the object stands for, or none where it is bad. Its line is made in this much room.
///
/// # Errors
/// `AllocError` where memory is refused.
pub(crate) fn body_of(
    alloc: Global,
    object: &Element<'_, '_>,
    names: bool,
    room: usize,
) -> Result<Option<ObjectBody>, AllocError>
    ensures { IfOk result (λ body. (j : Json) → BeginsWith object.now j
        → option_map spec.shown_body body ≡ spec.body_of names j) }
{
    let Some(word) = string_under(object, "do") else {
        return Ok(None);
    };
    let Some(json) = json_of(object) else {
        return Ok(None);
    };
    if word == "put" {
        return put_of(alloc, object, json);
    }
    let empty = Vec::with_capacity(alloc, room)?;
    let line = line_of(empty, object, names, json, word)?;
    Ok(line.map(ObjectBody::Line))
}

// The put of the text under the key `text`, or none where there is no such string.
fn put_of(
    alloc: Global,
    object: &Element<'_, '_>,
    json: bool,
) -> Result<Option<ObjectBody>, AllocError>
    ensures { IfOk result (λ body. (j : Json) → BeginsWith object.now j
        → option_map spec.shown_body body ≡ spec.put_of json j) }
{
    let Some(text) = string_under(object, "text") else {
        return Ok(None);
    };
    let format = if json { Format::Json } else { Format::Line };
    let text = text.as_bytes().to_vec(alloc)?;
    Ok(Some(ObjectBody::Put { format, text }))
}
