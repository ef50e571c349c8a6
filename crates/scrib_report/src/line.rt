//! The line of a reply.

ghost use Rattle.std.specs.Prelude.{◌≡◌, ◌++◌, ◌∷◌, [], IfOk, OnOk, codes};
ghost use Rattle.std.specs.Fmt.{decimal};
ghost use Rattle.scrib_report.specs.Lines as lines;

use crate::edit::{edit_word, push_change};
use crate::event_line::{push_judged_event, push_permitted_verdict};
use crate::fault::push_refusal;
use crate::numbered::{push_numbered, push_opened_id};
use crate::opened_line::push_opened_line;
use crate::verdict::{push_told, push_verdict};
use scrib_core::reply::Reply;
use scrib_library::changes::Change;
use scrib_types::event::{Told, Verdict};
use scrib_types::text::{push_bytes, push_dotted, push_number};
use std::alloc::{AllocError, Global};

// Room, in bytes, for the line of a permitted event and its line feed: one allocation then holds the text.
const USUAL_BYTES: usize = 64;

fn push_each_change(out: &mut Vec<u8>, changes: &[Change]) -> Result<(), AllocError>
    ensures { OnOk result (out.new.items ≡ out.old.items ++ lines.change_texts changes.now) }
{
    for change in changes {
        push_bytes(out, b" ")?;
        push_change(out, change)?;
    }
    Ok(())
}

fn push_changes(out: &mut Vec<u8>, changes: &[Change]) -> Result<(), AllocError>
    ensures { OnOk result (out.new.items ≡ out.old.items ++ lines.changes_text changes.now) }
{
    if changes.is_empty() {
        return push_bytes(out, b" no change");
    }
    push_each_change(out, changes)
}

// Appends the line of the reply to a close: `complete` behind the id, or the verdict.
fn push_closed(
    out: &mut Vec<u8>,
    id: u32,
    verdict: &Verdict,
    complete: bool,
) -> Result<(), AllocError>
    ensures { OnOk result (out.new.items ≡ out.old.items
        ++ (codes "close " ++ decimal id ++ codes ": " ++ lines.closed_text verdict.now complete)) }
{
    push_numbered(out, b"close ", u64::from(id), b": ")?;
    if complete {
        push_bytes(out, b"complete")
    } else {
        push_verdict(out, verdict)
    }
}

/// Appends the line of the reply, in ASCII bytes, without a line feed.
///
/// # Errors
/// `AllocError` where memory for the longer text is refused.
#[tactic(auto, unfolding(crate::specs::Lines::line_of))]
pub fn push_line(out: &mut Vec<u8>, reply: &Reply) -> Result<(), AllocError>
    ensures { OnOk result (out.new.items ≡ out.old.items ++ lines.line_of reply.now) }
{
    match reply {
        Reply::Edited { edit, changes } => {
            push_bytes(out, edit_word(*edit).as_bytes())?;
            push_bytes(out, b" ")?;
            push_dotted(out, &changes.module)?;
            push_bytes(out, b":")?;
            push_changes(out, changes.list.as_slice())
        }
        Reply::Profiled { profile } => {
            push_bytes(out, b"profile ")?;
            push_bytes(out, profile.word().as_bytes())
        }
        Reply::Opened { id, name } => {
            push_opened_id(out, *id)?;
            push_dotted(out, name)
        }
        Reply::Noted { id, place, told } => {
            push_number(out, u64::from(*id))?;
            push_bytes(out, b".")?;
            push_number(out, *place as u64)?;
            push_bytes(out, b" ")?;
            push_told(out, told)
        }
        Reply::Judged { id, told, .. } => {
            push_number(out, u64::from(*id))?;
            push_bytes(out, b" ")?;
            push_told(out, told)
        }
        Reply::Closed {
            id,
            verdict,
            complete,
            ..
        } => push_closed(out, *id, verdict, *complete),
        Reply::Refused(refusal) => {
            push_bytes(out, b"refused ")?;
            push_refusal(out, refusal)
        }
    }
}

/// Appends the line of the reply, in ASCII bytes, and a line feed.
///
/// # Errors
/// `AllocError` where memory for the longer text is refused.
#[tactic(auto, using(crate::proofs::EventLine::verdict_and_end))]
pub fn push_whole_line(out: &mut Vec<u8>, reply: &Reply) -> Result<(), AllocError>
    ensures { OnOk result (out.new.items ≡ out.old.items ++ lines.line_of reply.now ++ 10 ∷ []) }
{
    match reply {
        // most replies of a long script
        Reply::Noted {
            id,
            place,
            told: Told::Judged(verdict),
        } => push_judged_event(out, *id, *place as u64, verdict),
        Reply::Judged {
            id,
            told: Told::Judged(Verdict::Permitted),
            ..
        } => push_permitted_verdict(out, *id),
        Reply::Opened { id, name } => push_opened_line(out, *id, name),
        _ => {
            push_line(out, reply)?;
            push_bytes(out, b"\n")
        }
    }
}

/// Returns the line of the reply, in ASCII bytes, without a line feed.
///
/// # Errors
/// `AllocError` where memory for the text is refused.
pub fn line(alloc: Global, reply: &Reply) -> Result<Vec<u8>, AllocError>
    ensures { IfOk result (λ text. text.items ≡ lines.line_of reply.now) }
{
    let mut out = Vec::with_capacity(alloc, USUAL_BYTES)?;
    push_line(&mut out, reply)?;
    Ok(out)
}
