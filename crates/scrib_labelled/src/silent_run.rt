//! Runs a script with labels without output, and finds a conversation of it.

ghost use Rattle.std.specs.Prelude.{◌≡◌, true, IfOk, IfErr};
ghost use Rattle.scrib_script_io.specs.Faults.{of_script};
ghost use Rattle.scrib_labelled.specs.LabelledQueries.{number_meant};
ghost use Rattle.scrib_labelled.specs.SilentRuns.{RanSilently, names_behind};

use crate::label_options::{LabelOptions, LabelledStyle};
use crate::labelled_run::LabelledRun;
use crate::named_monitor::NamedMonitor;
use crate::run_labelled_script::{SCRIPT_PIECE_BYTES, run_by_pieces};
use crate::session_key::SessionKey;
use scrib_core::format::Format;
use scrib_script_io::fault::ScriptFault;
use scrib_script_reader::limits::Limits;
use std::alloc::Global;
use std::io::{Read, sink};

/// Reads a script with these labels and makes its steps over a new monitor. Its replies are dropped. Returns the
/// monitor behind it.
///
/// # Errors
/// - `Read` where the reader fails, and in the line of the first byte past the limits of scripts.
/// - `OutOfMemory` where there is no memory for a line, a name, a step or a reply's text.
pub(crate) fn run_silently<R: Read>(
    alloc: Global,
    labels: LabelOptions,
    reader: &mut R,
) -> Result<NamedMonitor, ScriptFault>
    ensures ok { IfOk result (λ monitor. RanSilently labels (R.remaining reader.old) monitor) }
    ensures fault { IfErr result (λ e. of_script e ≡ true) }
{
    let mut piece = vec![in alloc; 0u8; SCRIPT_PIECE_BYTES]?;
    let style = LabelledStyle {
        labels,
        closes: false,
        format: Format::Line,
        lines: false,
    };
    let monitor = NamedMonitor::new(alloc, style);
    let mut run = LabelledRun::new(alloc, labels, Limits::of_scripts(), monitor);
    run_by_pieces(&mut run, reader, &mut sink(), piece.as_mut_slice())?;
    // No output has the refusal of such a step, and the state would be taken for that of the whole script.
    if run.stage.monitor.core.lacked {
        return Err(ScriptFault::OutOfMemory);
    }
    Ok(run.stage)
}

/// Returns the number of the conversation that is meant behind the run, if there is one.
pub(crate) fn number_meant(monitor: &NamedMonitor, key: SessionKey<'_>) -> Option<u32>
    ensures { result ≡ number_meant (names_behind monitor.now) key.entry }
{
    match key {
        SessionKey::Number(id) => Some(id),
        SessionKey::Name(name) => monitor.names.number_of(name),
    }
}
