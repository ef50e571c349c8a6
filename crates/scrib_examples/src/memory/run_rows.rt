//! A row of scripts over a service.

use crate::fault::{RowsFault, check};
use crate::making::run_connections;
use crate::memory::script_rows::PAGE_BYTES;
use scrib_core::format::Format;
use std::alloc::Global;
use std::sync::Wait;
use std::thread::Threads;

const SETUP: &str =
    "put\nmodule k; global protocol K(role A, role B) { rec X { a() from A to B; continue X; } }\n%%\nopen 0 k.K\nopen 1 k.K\n";

const FIRST: &str = "join 0 A\nsend 0 A B a()\nsend 0 A B a()\n";

const SECOND: &str = "join 1 A\n";

const OUTPUT: &str =
    "put k: +k.K\nopen 0: k.K\nopen 1: k.K\nconnection 1\n0.1 permitted\n0.2 permitted\n0.3 permitted\nconnection 2\n1.1 permitted\n         0        3 permitted k.K\n         1        1 permitted k.K\ntotal 2 conversations, 4 events\n";

/// Runs two connections over a service. Where memory is refused, there is a line of that, or the run ends with the
/// fault and what was written is a beginning of the row's output; or only a worker found none, and the output is the
/// row's.
pub(crate) fn run_over_service<R: Threads + Wait + Sync>(
    rt: &R,
    alloc: Global,
) -> Result<(), RowsFault> {
    let mut scripts = Vec::new(alloc);
    for script in [FIRST, SECOND] {
        scripts.push(String::from_str(alloc, script)?)?;
    }
    let mut written = Vec::with_capacity(alloc, PAGE_BYTES)?;
    match run_connections(rt, alloc, Format::Line, (SETUP, &scripts), &mut written) {
        Ok(()) if written.as_slice() == OUTPUT.as_bytes() => Ok(()),
        Ok(()) => {
            let output = std::str::from_utf8(&written).ok().ok_or(RowsFault::Wrong)?;
            check(output.contains("refused OutOfMemory\n"))
        }
        Err(RowsFault::Memory) => check(OUTPUT.as_bytes().starts_with(&written)),
        fault => fault,
    }
}
