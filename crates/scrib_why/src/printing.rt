//! The text of a kind, and the list of all.

ghost use Rattle.std.specs.Prelude.{◌≡◌, ◌++◌, OnOk};
ghost use Rattle.scrib_why.specs.Names.{names_of, kind_names};
ghost use Rattle.scrib_why.specs.Texts as texts;

use crate::choice_kinds::choice_kinds;
use crate::kind::Kind;
use crate::library_kinds::library_kinds;
use crate::protocol_kinds::protocol_kinds;
use crate::reason_kinds::reason_kinds;
use crate::step_kinds::step_kinds;
use crate::text_kinds::text_kinds;
use scrib_types::text::push_bytes;
use std::alloc::AllocError;

// Appends the text and an LF. It fails where memory is refused, as do the functions below.
#[tactic(auto, unfolding(crate::specs::Texts::line))]
fn push_line(out: &mut Vec<u8>, text: &[u8]) -> Result<(), AllocError>
    ensures { OnOk result (out.new.items ≡ out.old.items ++ texts.line text.now) }
{
    push_bytes(out, text)?;
    push_bytes(out, b"\n")
}

// Appends the text with four blanks behind each LF.
fn push_indented(out: &mut Vec<u8>, text: &[u8]) -> Result<(), AllocError>
    ensures { OnOk result (out.new.items ≡ out.old.items ++ texts.indented text.now) }
{
    for byte in text {
        out.push(*byte)?;
        if *byte == b'\n' {
            push_bytes(out, b"    ")?;
        }
    }
    Ok(())
}

// Appends a heading, and the text indented below it.
#[tactic(auto, unfolding(crate::specs::Texts::block))]
fn push_block(out: &mut Vec<u8>, heading: &[u8], text: &[u8]) -> Result<(), AllocError>
    ensures { OnOk result (out.new.items ≡ out.old.items ++ texts.block heading.now text.now) }
{
    push_bytes(out, heading)?;
    push_bytes(out, b":\n    ")?;
    push_indented(out, text)?;
    push_bytes(out, b"\n")
}

/// Appends the text of the kind: its name, when it comes, an example, what is printed of it, and its cure.
///
/// # Errors
/// `AllocError` where memory for the longer text is refused.
#[tactic(auto, unfolding(crate::specs::Texts::kind_text))]
pub fn push_kind(out: &mut Vec<u8>, kind: &Kind) -> Result<(), AllocError>
    ensures { OnOk result (out.new.items ≡ out.old.items ++ texts.kind_text kind.now) }
{
    push_line(out, kind.name.as_bytes())?;
    push_line(out, kind.meaning.as_bytes())?;
    push_block(out, b"example", kind.example.as_bytes())?;
    push_block(out, kind.reader.as_bytes(), kind.printed.as_bytes())?;
    push_block(out, b"cure", kind.cure.as_bytes())
}

// Appends the names of the kinds, each with an LF.
fn push_names(out: &mut Vec<u8>, kinds: &[Kind]) -> Result<(), AllocError>
    ensures { OnOk result (out.new.items ≡ out.old.items ++ texts.lines_of (names_of kinds.now)) }
{
    for kind in kinds {
        push_line(out, kind.name.as_bytes())?;
    }
    Ok(())
}

/// Appends the names of all kinds, each with an LF.
///
/// # Errors
/// `AllocError` where memory for the longer text is refused.
pub fn push_list(out: &mut Vec<u8>) -> Result<(), AllocError>
    ensures { OnOk result (out.new.items ≡ out.old.items ++ texts.lines_of kind_names) }
{
    push_names(out, text_kinds())?;
    push_names(out, protocol_kinds())?;
    push_names(out, choice_kinds())?;
    push_names(out, library_kinds())?;
    push_names(out, step_kinds())?;
    push_names(out, reason_kinds())
}
