//! What a service is made of, called without locks: a library and a shard that are lent.

use crate::fault::RowsFault;
use crate::making::{LOOP, event_of, name_of};
use crate::service::settling::push_fault;
use scrib_core::monitor::MAX_CONVERSATIONS;
use scrib_core::reply::{Refusal, Reply};
use scrib_library::library::Library;
use scrib_locked_steps::shard::Shard;
use scrib_locked_steps::step_results::{note_step, open_step};
use scrib_report::line::line;
use scrib_report::table::table;
use scrib_settlement::settle::settle_parts;
use std::alloc::Global;
use std::slice;

// Settles the shard without a pass where there is no line, and adds the table, or the line of the fault. Else notes the
// event of the line in conversation 0, and adds the line of the reply.
fn push_part(
    alloc: Global,
    library: &Library,
    shard: &mut Shard,
    text: Option<&str>,
    out: &mut Vec<u8>,
) -> Result<(), RowsFault> {
    let Some(text) = text else {
        match settle_parts(alloc, library, slice::from_ref(shard), &[]) {
            Ok(list) => out.extend_from_slice(table(alloc, list.as_slice())?.as_slice())?,
            Err(fault) => push_fault(alloc, out, &fault)?,
        }
        return Ok(());
    };
    let noted = note_step(library, shard, 0, event_of(alloc, text)?)?;
    let reply = Reply::Noted {
        id: 0,
        place: noted.place,
        told: noted.told,
    };
    out.extend_from_slice(line(alloc, &reply)?.as_slice())?;
    out.push(b'\n')?;
    Ok(())
}

/// Opens a conversation in a shard of at most so many, settles it, notes two events and settles it again, which is
/// refused, since no pass has their receipts. Returns the line of each reply.
pub(crate) fn printed_parts(alloc: Global, most: usize) -> Result<Vec<u8>, RowsFault> {
    let mut library = Library::new(alloc);
    library.put(LOOP.as_bytes()).map_err(Refusal::Edit)?;
    let mut shard = Shard::new(alloc, most.min(MAX_CONVERSATIONS));
    open_step(&library, &mut shard, 0, &name_of(alloc, "open 0 k.K")?)?;
    let mut out = Vec::new(alloc);
    for text in [None, Some("join 0 A"), Some("send 0 A B b()"), None] {
        push_part(alloc, &library, &mut shard, text, &mut out)?;
    }
    Ok(out)
}
