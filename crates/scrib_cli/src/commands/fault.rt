//! Why a command ended early, with the source that it was reading.

use crate::commands::source::Source;
use scrib_script_io::fault::ScriptFault;
use std::fmt;
use std::fmt::{Display, Formatter};

/// Why a command ended early. Prints as the cause, with the file if there is one.
#[derive(Clone, Copy, Debug, PartialEq, Eq)]
pub enum CommandFault<'a> {
    /// The source could not be opened.
    Unopened(Source<'a>),
    /// A read of the source failed.
    Unread(Source<'a>),
    /// The script of the source has more lines or bytes than a script may have.
    TooLong(Source<'a>),
    /// Standard output could not be written.
    Unwritten,
    /// The passes of a service's connections did not account for each event of its logs.
    Unsettled,
    /// Memory is refused.
    OutOfMemory,
}

impl<'a> CommandFault<'a> {
    ghost use Rattle.std.specs.Prelude.{◌≡◌, true, false};
    ghost use Rattle.scrib_cli.specs.Faults.{script_fault};
    ghost use Rattle.scrib_script_io.specs.declared.fault.ScriptFault.TheVariants as script;
    ghost use Rattle.scrib_cli.specs.declared.commands.fault.CommandFault.TheVariants as command;

    /// Returns the fault of a script over the source. A read fault without a failed read is a script past its limits.
    pub fn over(source: Source<'a>, fault: &ScriptFault, read_failed: bool) -> CommandFault<'a>
        ensures fault { script_fault result ≡ fault.now }
        ensures limit { fault.now ≡ script.Read → read_failed ≡ false → result ≡ command.TooLong source.entry }
        ensures read { fault.now ≡ script.Read → read_failed ≡ true → result ≡ command.Unread source.entry }
    {
        match fault {
            ScriptFault::Read => {
                if read_failed {
                    CommandFault::Unread(source)
                } else {
                    CommandFault::TooLong(source)
                }
            }
            ScriptFault::Write => CommandFault::Unwritten,
            ScriptFault::Settle => CommandFault::Unsettled,
            ScriptFault::OutOfMemory => CommandFault::OutOfMemory,
        }
    }
}

/// The cause in one line, as `orders.scr: cannot be opened`.
impl Display for CommandFault<'_> {
    fn fmt<W: fmt::Write>(&self, f: &mut Formatter<W>) -> fmt::Result {
        match *self {
            CommandFault::Unopened(source) => write!(f, "{source}: cannot be opened"),
            CommandFault::Unread(source) => write!(f, "{source}: cannot be read"),
            CommandFault::TooLong(source) => write!(
                f,
                "{source}: a script has at most 16777216 lines and 1099511627776 bytes (watch and hold take more with --endless)"
            ),
            CommandFault::Unwritten => f.write_str("standard output: cannot be written"),
            CommandFault::Unsettled => f.write_str("the passes do not account for the logs"),
            CommandFault::OutOfMemory => f.write_str("memory was refused"),
        }
    }
}
