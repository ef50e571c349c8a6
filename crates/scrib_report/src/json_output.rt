//! The parts of an output as lines of JSON.

ghost use Rattle.std.specs.Prelude.{◌≡◌, ◌++◌, ◌∷◌, [], OnOk};
ghost use Rattle.scrib_report.specs.JsonOutput.{part_json};
ghost use Rattle.scrib_report.specs.Parts.{part_of};

use crate::json::{json, judged_json, mismatch_json};
use crate::json_table::push_json_table;
use crate::numbered::push_numbered;
use crate::part::OutputPart;
use scrib_types::text::push_bytes;
use std::alloc::AllocError;

// Appends the text of a JSON object, and an LF.
fn push_object(out: &mut Vec<u8>, object: &[u8]) -> Result<(), AllocError>
    ensures { OnOk result (out.new.items ≡ out.old.items ++ (object.now ++ 10 ∷ [])) }
{
    push_bytes(out, object)?;
    push_bytes(out, b"\n")
}

// Appends the part as lines of JSON, in ASCII bytes.
pub(crate) fn push_json_part(out: &mut Vec<u8>, part: &OutputPart<'_>) -> Result<(), AllocError>
    ensures { OnOk result (out.new.items ≡ out.old.items ++ part_json (part_of part.now)) }
{
    let alloc = *out.allocator();
    match part {
        OutputPart::Reply(reply) => push_object(out, json(alloc, reply)?.as_slice()),
        OutputPart::Judged { id, verdict } => {
            push_object(out, judged_json(alloc, *id, verdict)?.as_slice())
        }
        OutputPart::Mismatch {
            conversation,
            place,
        } => push_object(out, mismatch_json(alloc, *conversation, *place)?.as_slice()),
        OutputPart::Swept(judged) => push_numbered(
            out,
            b"{\"judged\":",
            *judged,
            b",\"swept\":true}\n",
        ),
        OutputPart::BadLine(number) => push_numbered(
            out,
            b"{\"line\":",
            *number,
            b",\"refused\":\"BadLine\"}\n",
        ),
        OutputPart::EndOfText => push_bytes(out, b"{\"refused\":\"EndOfText\"}\n"),
        OutputPart::Connection(number) => {
            push_numbered(out, b"{\"connection\":", *number, b"}\n")
        }
        OutputPart::ReadFault => push_bytes(out, b"{\"fault\":\"read\"}\n"),
        OutputPart::Table(list) => push_json_table(out, list),
    }
}
