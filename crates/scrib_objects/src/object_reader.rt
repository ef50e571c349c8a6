//! Objects read one after another.

ghost use Rattle.std.specs.Prelude.{◌≡◌, option_map, IfOk};
ghost use Rattle.json.specs.Json.{Json};
ghost use Rattle.json.specs.Find.{BeginsWith};
ghost use Rattle.scrib_objects.specs.Objects as spec;

use crate::body::body_of;
use crate::members::tag_of;
use crate::object_line::{ObjectBody, ObjectLine};
use crate::object_options::ObjectOptions;
use json::{Element, Error, Scratch, Tape};
use simdutf8::basic::from_utf8;
use std::alloc::{AllocError, Global};

/// Keeps the room for reading objects one after another.
#[derive(Drop)]
pub struct ObjectReader {
    alloc: Global,
    scratch: Scratch,
}

impl ObjectReader {
    ghost use Rattle.std.specs.Prelude.{IfOk, option_map};
    ghost use Rattle.scrib_objects.specs.Objects.{IsObjectLine, shown};

    /// Returns a reader, which takes memory from `alloc` as it reads.
    pub fn new(alloc: Global) -> ObjectReader {
        ObjectReader {
            alloc,
            scratch: Scratch::new(alloc),
        }
    }

    /// Returns what the object in this line stands for. The line is given without its end.
    ///
    /// It is none where the line is no JSON text in UTF-8, where an object in it has a key twice, or where its tag is no
    /// tag. Of any other bad line it is the tag, if there is one, and `Bad`.
    ///
    /// # Errors
    /// `AllocError` where memory is refused, or the line is longer than 4,294,967,040 bytes. The reader can go on.
    pub fn read(
        &mut self,
        options: ObjectOptions,
        line: &[u8],
    ) -> Result<Option<ObjectLine>, AllocError>
        ensures { IfOk result (λ l. IsObjectLine options line.now (option_map shown l)) }
    {
        let Ok(text) = from_utf8(line) else {
            return Ok(None);
        };
        let alloc = self.alloc;
        match Tape::parse_strict(text, &mut self.scratch, Vec::new(alloc)) {
            Ok(tape) => object_line(alloc, &tape.root(), options, line.len()),
            Err(Error::Invalid | Error::DuplicateKey) => Ok(None),
            Err(Error::OutOfMemory | Error::TooLong) => Err(AllocError),
        }
    }
}

// What the object stands for, or none where its tag is bad. Its line is made in this much room.
fn object_line(
    alloc: Global,
    object: &Element<'_, '_>,
    options: ObjectOptions,
    room: usize,
) -> Result<Option<ObjectLine>, AllocError>
    ensures { IfOk result (λ line. (j : Json) → BeginsWith object.now j
        → option_map spec.shown line ≡ spec.spelled options j) }
{
    let Some(tag) = tag_of(object, options.tags) else {
        return Ok(None);
    };
    let body = body_of(alloc, object, options.names, room)?;
    let tag = match tag {
        Some(text) => Some(text.as_bytes().to_vec(alloc)?),
        None => None,
    };
    Ok(Some(ObjectLine {
        tag,
        body: body.unwrap_or(ObjectBody::Bad),
    }))
}
