//! Rows as scripts.

use crate::fault::{RowsFault, check, second};
use crate::making::watched;
use crate::memory::making::script_of;
use crate::memory::rows::Call;
use scrib_cli::explain_script::explain_script;
use scrib_cli::run_script::{Format, run_script};
use scrib_script_io::fault::ScriptFault;
use std::alloc::Global;

/// Room for what a row writes, which then needs no further memory.
pub(crate) const PAGE_BYTES: usize = 65_536;

// Where one step of a script is refused memory, the others are answered as without it.
fn check_refused(alloc: Global, calls: &[Call], output: &str) -> Result<(), RowsFault> {
    let (before, behind) = output
        .split_once("refused OutOfMemory\n")
        .or(output.split_once("{\"refused\":\"OutOfMemory\"}\n"))
        .ok_or(RowsFault::Wrong)?;
    let (script, _) = script_of(alloc, calls, Some(before.lines().count()))?;
    let rest = watched(alloc, Format::Line, script.as_str())?;
    check(rest.as_str().strip_prefix(before) == Some(behind))
}

/// Runs the calls as a script. Where memory is refused, one line is the refusal and the others are as without that
/// step; or the script ends with the fault, and what was written is a beginning of the row's output.
pub(crate) fn run_as_script(alloc: Global, calls: &[Call]) -> Result<(), RowsFault> {
    let (script, want) = script_of(alloc, calls, None)?;
    let mut written = Vec::with_capacity(alloc, PAGE_BYTES)?;
    match run_script(alloc, Format::Line, &mut script.as_bytes(), &mut written) {
        Ok(()) if written.as_slice() == want.as_bytes() => Ok(()),
        Ok(()) => {
            let output = std::str::from_utf8(&written).ok().ok_or(RowsFault::Wrong)?;
            second(check_refused(alloc, calls, output))
        }
        Err(ScriptFault::OutOfMemory) => check(want.as_bytes().starts_with(&written)),
        Err(_) => Err(RowsFault::Wrong),
    }
}

/// Runs the calls as a script and explains conversation 1, or where memory is refused writes nothing.
pub(crate) fn run_explained(alloc: Global, calls: &[Call], flights: &str) -> Result<(), RowsFault> {
    let (script, _) = script_of(alloc, calls, None)?;
    let mut written = Vec::with_capacity(alloc, PAGE_BYTES)?;
    match explain_script(alloc, &mut script.as_bytes(), 1, &mut written) {
        Ok(_) => check(written.as_slice() == flights.as_bytes()),
        Err(ScriptFault::OutOfMemory) => check(written.is_empty()),
        Err(_) => Err(RowsFault::Wrong),
    }
}
