//! The fields of a line.

ghost use Rattle.std.specs.Prelude.{◌≡◌, IfOk, map};
ghost use Rattle.scrib_script_reader.specs.Fields.{fields};

use std::alloc::{AllocError, Global};

// The fields of a line, in order.
pub(crate) fn fields_of<'a>(alloc: Global, bytes: &'a [u8]) -> Result<Vec<&'a [u8]>, AllocError>
    ensures { IfOk result (λ found. map (λ field. field.now) found.items ≡ fields bytes.now) }
{
    bytes
        .split(|byte| *byte == b' ' || *byte == b'\t')
        .filter(|piece| !piece.is_empty())
        .collect(alloc)
}
