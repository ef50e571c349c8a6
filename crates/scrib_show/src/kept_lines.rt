//! Which lines are kept after the reply to a step.

ghost use Rattle.std.specs.Prelude.{◌≡◌, IfErr, OnOk};
ghost use Rattle.scrib_cli.specs.Requests.{HasMemory, OfStep};
ghost use Rattle.scrib_show.specs.EventLines.{lines_after};
ghost use Rattle.scrib_script_io.specs.declared.fault.ScriptFault.TheVariants.{OutOfMemory};

use scrib_core::reply::{Refusal, Reply};
use scrib_script_io::fault::ScriptFault;

// Keeps the number of the line where it noted an event of the conversation, and drops all where it opened it. It fails
// where memory for the step or for the number was refused.
pub(crate) fn keep_line(
    numbers: &mut Vec<u64>,
    id: u32,
    number: u64,
    reply: &Reply,
) -> Result<(), ScriptFault>
    ensures lines { OnOk result (numbers.new.items ≡ lines_after id numbers.old.items number
        (OfStep reply.now)) }
    ensures made { OnOk result (HasMemory (OfStep reply.now)) }
    ensures fault { IfErr result (λ e. e ≡ OutOfMemory) }
{
    match reply {
        Reply::Opened { id: opened, .. } => {
            if *opened == id {
                numbers.clear();
            }
            Ok(())
        }
        Reply::Noted { id: noted, .. } => {
            if *noted == id {
                numbers.push(number)?;
            }
            Ok(())
        }
        Reply::Refused(Refusal::OutOfMemory) => Err(ScriptFault::OutOfMemory),
        _ => Ok(()),
    }
}
