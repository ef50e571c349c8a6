//! What rows are made of.

use crate::fault::RowsFault;
use crate::memory::rows::Call;
use std::alloc::Global;

/// The script that makes these calls, but for the one at this index; and the lines of the calls' answers.
pub(crate) fn script_of(
    alloc: Global,
    calls: &[Call],
    left_out: Option<usize>,
) -> Result<(String, String), RowsFault> {
    let (mut script, mut answers) = (String::new(alloc), String::new(alloc));
    for (at, (step, answer)) in calls.iter().enumerate() {
        if left_out == Some(at) {
            continue;
        }
        match step.strip_prefix("put ") {
            Some(text) => writeln!(script, "put\n{text}\n%%")?,
            None => writeln!(script, "{step}")?,
        }
        writeln!(answers, "{answer}")?;
    }
    Ok((script, answers))
}
