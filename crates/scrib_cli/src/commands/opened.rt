//! Sources that were opened.

ghost use Rattle.std.specs.Prelude.{◌≡◌};
ghost use Rattle.scrib_cli.specs.Faults.{script_fault};

use crate::commands::fault::CommandFault;
use crate::commands::observed::Observed;
use crate::commands::source::Source;
use scrib_script_io::fault::ScriptFault;
use std::io::Read;

/// A source that was opened, and what reads it.
#[derive(Drop)]
pub struct Opened<'a, R> {
    pub source: Source<'a>,
    pub reader: Observed<R>,
}

impl<'a, R: Read> Opened<'a, R> {
    /// Returns the source with its reader, from which nothing was read yet.
    pub fn new(source: Source<'a>, reader: R) -> Opened<'a, R>
        ensures { result.reader.reader ≡ reader }
    {
        Opened {
            source,
            reader: Observed::new(reader),
        }
    }

    /// Returns the command's fault for a fault of the source's script.
    pub fn fault(&self, fault: &ScriptFault) -> CommandFault<'a>
        ensures { script_fault result ≡ fault.now }
    {
        CommandFault::over(self.source, fault, self.reader.has_failed())
    }
}
