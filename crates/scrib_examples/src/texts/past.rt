//! A connection whose script is past its limit of lines.

use crate::fault::RowsFault;
use crate::making::run_connections;
use scrib_core::format::Format;
use std::alloc::Global;
use std::slice;
use std::sync::Wait;
use std::thread::Threads;

// How many lines a script may have.
const LINES: usize = 16_777_216;

/// What such a connection is answered, after the setup. Its script has blank lines, with which the join is the last
/// line that a script may have, and a line more.
pub(crate) fn printed_past<R: Threads + Wait + Sync>(
    rt: &R,
    alloc: Global,
    setup: &str,
) -> Result<Vec<u8>, RowsFault> {
    let blank = vec![in alloc; b'\n'; LINES - 1]?;
    let mut script = String::from_utf8(blank).ok().ok_or(RowsFault::Wrong)?;
    script.push_str("join 0 A\njoin 0 B\n")?;
    let mut out = Vec::new(alloc);
    let scripts = slice::from_ref(&script);
    run_connections(rt, alloc, Format::Line, (setup, scripts), &mut out)?;
    Ok(out)
}
