//! The line of the reply to an opening, which is appended whole or not at all.

ghost use Rattle.std.specs.Prelude.{◌≡◌, ◌++◌, ◌∷◌, [], ℕ, List, OnOk, OnErr};
ghost use Rattle.scrib_types.specs.Texts as texts;
ghost use Rattle.scrib_core.specs.declared.reply.Reply.TheVariants.{Opened};
ghost use Rattle.scrib_report.specs.Lines as lines;

use crate::numbered::push_opened_id;
use scrib_types::name::{Dotted, Name};
use std::alloc::AllocError;

/// Appends the line of the reply to an opening, as `open 3: demo.Hello`, and a line feed.
///
/// # Errors
/// `AllocError` where memory for the longer text is refused; the text is then as it was.
pub fn push_opened_line(out: &mut Vec<u8>, id: u32, name: &Dotted) -> Result<(), AllocError>
    ensures ok { OnOk result
        (out.new.items ≡ out.old.items ++ lines.line_of (Opened id name.now) ++ 10 ∷ []) }
    ensures err { OnErr result (out.new.items ≡ out.old.items) }
{
    let before = out.len();
    let pushed = push_pieces(out, id, name);
    if pushed.is_err() {
        out.truncate(before);
    }
    pushed
}

// Appends the same piece by piece. After an error, some pieces may be there.
#[tactic(auto, unfolding(crate::specs::Lines::line_of))]
fn push_pieces(out: &mut Vec<u8>, id: u32, name: &Dotted) -> Result<(), AllocError>
    ensures ok { OnOk result
        (out.new.items ≡ out.old.items ++ lines.line_of (Opened id name.now) ++ 10 ∷ []) }
    ensures kept { (more : List ℕ) × (out.new.items ≡ out.old.items ++ more) }
{
    push_opened_id(out, id)?;
    let names = name.as_slice();
    out.extend_from_slice(names[0].as_bytes())?;
    push_names(out, &names[1..])?;
    out.push(b'\n')?;
    Ok(())
}

// Appends a dot and the name, for each of the names. After an error, some of them may be there.
fn push_names(out: &mut Vec<u8>, names: &[Name]) -> Result<(), AllocError>
    ensures ok { OnOk result (out.new.items ≡ out.old.items ++ texts.after_each 46 names.now) }
    ensures kept { (more : List ℕ) × (out.new.items ≡ out.old.items ++ more) }
{
    for name in names {
        push_name(out, name)?;
    }
    Ok(())
}

// Appends a dot and the name. After an error, the dot may be there.
#[inline(always)]
fn push_name(out: &mut Vec<u8>, name: &Name) -> Result<(), AllocError>
    ensures ok { OnOk result (out.new.items ≡ out.old.items ++ 46 ∷ name.now) }
    ensures kept { (more : List ℕ) × (out.new.items ≡ out.old.items ++ more) }
{
    out.push(b'.')?;
    out.extend_from_slice(name.as_bytes())
}
