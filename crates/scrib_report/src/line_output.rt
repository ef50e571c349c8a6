//! The parts of an output as lines of text.

ghost use Rattle.std.specs.Prelude.{◌≡◌, ◌++◌, OnOk};
ghost use Rattle.scrib_report.specs.LineOutput as lines;
ghost use Rattle.scrib_report.specs.Parts.{part_of};

use crate::line::push_whole_line;
use crate::numbered::{push_bad_line, push_numbered};
use crate::part::OutputPart;
use crate::table::push_table;
use crate::verdict::push_told;
use scrib_types::event::Told;
use scrib_types::text::{push_bytes, push_number};
use std::alloc::AllocError;

// Appends a service's reply to a turn or a question about the conversation `id`, as `3 permitted`, and an LF.
#[tactic(auto, unfolding(crate::specs::LineOutput::judged_line))]
fn push_judged(out: &mut Vec<u8>, id: u32, verdict: &Told) -> Result<(), AllocError>
    ensures { OnOk result (out.new.items ≡ out.old.items ++ lines.judged_line id verdict.now) }
{
    push_number(out, u64::from(id))?;
    push_bytes(out, b" ")?;
    push_told(out, verdict)?;
    push_bytes(out, b"\n")
}

// Appends the refusal of a pass whose receipt differs from the log of `conversation` at `place`, as
// `refused Mismatch 1 3`, and an LF.
#[tactic(auto, unfolding(crate::specs::LineOutput::mismatch_line))]
fn push_mismatch(out: &mut Vec<u8>, conversation: u32, place: usize) -> Result<(), AllocError>
    ensures { OnOk result (out.new.items ≡ out.old.items ++ lines.mismatch_line conversation place) }
{
    push_bytes(out, b"refused Mismatch ")?;
    push_number(out, u64::from(conversation))?;
    push_bytes(out, b" ")?;
    push_number(out, place as u64)?;
    push_bytes(out, b"\n")
}

// Appends the part as lines of text, in ASCII bytes.
#[inline(always)]
pub(crate) fn push_line_part(out: &mut Vec<u8>, part: &OutputPart<'_>) -> Result<(), AllocError>
    ensures { OnOk result (out.new.items ≡ out.old.items ++ lines.part_line (part_of part.now)) }
{
    match part {
        OutputPart::Reply(reply) => push_whole_line(out, reply),
        OutputPart::Judged { id, verdict } => push_judged(out, *id, verdict),
        OutputPart::Mismatch {
            conversation,
            place,
        } => push_mismatch(out, *conversation, *place),
        OutputPart::Swept(judged) => push_numbered(out, b"sweep: ", *judged, b" judged\n"),
        OutputPart::BadLine(number) => push_bad_line(out, *number),
        OutputPart::EndOfText => push_bytes(out, b"refused EndOfText\n"),
        OutputPart::Connection(number) => push_numbered(out, b"connection ", *number, b"\n"),
        OutputPart::ReadFault => push_bytes(out, b"read fault\n"),
        OutputPart::Table(list) => push_table(out, list),
    }
}
