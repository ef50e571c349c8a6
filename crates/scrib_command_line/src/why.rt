//! The command `why`.

use scrib_cli::commands::fault::CommandFault;
use scrib_script_io::writing::write_out;
use scrib_why::find::find;
use scrib_why::printing::{push_kind, push_list};
use std::alloc::{AllocError, Global};
use std::io::Write;

// Writes the text of the kind that this word names, or all names where there is no word or the word is no kind. Returns
// whether the word, if there is one, is a kind.
pub(crate) fn write_why<W: Write>(
    alloc: Global,
    word: Option<&str>,
    writer: &mut W,
) -> Result<bool, CommandFault<'static>> {
    let mut text = Vec::new(alloc);
    let Ok(is_known) = push_why(&mut text, word) else {
        return Err(CommandFault::OutOfMemory);
    };
    match write_out(writer, text.as_slice()) {
        Ok(()) => Ok(is_known),
        Err(_) => Err(CommandFault::Unwritten),
    }
}

// Appends the same.
fn push_why(out: &mut Vec<u8>, word: Option<&str>) -> Result<bool, AllocError> {
    let Some(word) = word else {
        push_list(out)?;
        return Ok(true);
    };
    match find(word.as_bytes()) {
        Some(kind) => {
            push_kind(out, kind)?;
            Ok(true)
        }
        None => {
            push_list(out)?;
            Ok(false)
        }
    }
}
