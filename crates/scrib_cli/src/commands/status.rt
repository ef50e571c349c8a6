//! The exit status of the program and the fixed line of a fault.

ghost use Rattle.std.specs.Prelude.{◌≡◌};
ghost use Rattle.scrib_cli.specs.Commands.{status_of, fault_line};
ghost use Rattle.scrib_cli.specs.Faults.{script_fault};

use crate::commands::fault::CommandFault;

/// Returns the exit status for the result of a command: 0 where it succeeded, 1 where it printed a refusal or failed.
pub fn status_of(answer: &Result<bool, CommandFault<'_>>) -> u8
    ensures { result ≡ status_of answer.now }
{
    match answer {
        Ok(true) => 0,
        Ok(false) | Err(_) => 1,
    }
}

/// Returns the fixed line that standard error gets for a fault. The line after it is the fault's own text with its
/// cause.
pub fn fault_text(fault: &CommandFault<'_>) -> &'static str
    ensures { result.now ≡ fault_line (script_fault fault.now) }
{
    match fault {
        CommandFault::Unopened(_) | CommandFault::Unread(_) | CommandFault::TooLong(_) => {
            "scribmon: read fault"
        }
        CommandFault::Unwritten => "scribmon: write fault",
        CommandFault::Unsettled => "scribmon: settle fault",
        CommandFault::OutOfMemory => "scribmon: out of memory",
    }
}
