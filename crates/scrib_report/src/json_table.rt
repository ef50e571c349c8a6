//! The table of settled conversations as lines of JSON.

ghost use Rattle.std.specs.Prelude.{◌≡◌, ◌++◌, OnOk};
ghost use Rattle.scrib_report.specs.Json as objects;

use crate::json::ended_json;
use crate::table::{events_of, push_count};
use scrib_core::ended::Ended;
use scrib_types::text::push_bytes;
use std::alloc::AllocError;

fn push_json_rows(out: &mut Vec<u8>, list: &[Ended]) -> Result<(), AllocError>
    ensures { OnOk result (out.new.items ≡ out.old.items ++ objects.ended_lines list.now) }
{
    let alloc = *out.allocator();
    for ended in list {
        push_bytes(out, ended_json(alloc, ended)?.as_slice())?;
        push_bytes(out, b"\n")?;
    }
    Ok(())
}

fn push_json_total(out: &mut Vec<u8>, conversations: usize, events: u128) -> Result<(), AllocError>
    ensures { OnOk result (out.new.items ≡ out.old.items ++ objects.total_line conversations events) }
{
    push_bytes(out, b"{\"conversations\":")?;
    push_count(out, conversations as u128, b",\"events\":")?;
    push_count(out, events, b"}\n")
}

// Appends the table of settled conversations as lines of JSON, each with an LF. For each conversation, in the order of
// the list, the line is that of `json` for the reply to a question about it. The last line is as
// `{"conversations":2,"events":2000}`.
pub(crate) fn push_json_table(out: &mut Vec<u8>, list: &[Ended]) -> Result<(), AllocError>
    ensures { OnOk result (out.new.items ≡ out.old.items ++ objects.table_json list.now) }
{
    push_json_rows(out, list)?;
    push_json_total(out, list.len(), events_of(list))
}
