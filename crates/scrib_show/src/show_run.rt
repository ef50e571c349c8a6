//! Runs a script piece by piece, without output, and keeps the lines of one conversation's events.

use crate::line_monitor::LineMonitor;
use scrib_script_io::fault::ScriptFault;
use scrib_script_reader::limits::Limits;
use scrib_script_reader::script::Script;
use std::alloc::Global;

/// A script that runs over a monitor.
#[derive(Drop)]
pub(crate) struct ShowRun {
    script: Script,
    monitor: LineMonitor,
}

impl ShowRun {
    ghost use Rattle.std.specs.Prelude.{◌≡◌, ◌<◌, ◌+◌, ◌^◌, true, length, IfOk, IfErr, OnOk};
    ghost use Rattle.scrib_script_io.specs.Faults.{of_script};
    ghost use Rattle.scrib_show.specs.Progress.{IsNewRun, FollowsBytes, FollowsFront, FollowsEnd};

    // A run before the first byte of its script, which has these limits.
    pub fn new(alloc: Global, limits: Limits, id: u32) -> ShowRun
        requires { limits.lines + 1 < 2 ^ 64 }
        ensures { IsNewRun limits id result }
    {
        ShowRun {
            script: Script::with_limits(alloc, limits),
            monitor: LineMonitor::new(alloc, id),
        }
    }

    // The monitor after the steps so far.
    pub fn into_monitor(self) -> LineMonitor
        ensures { result ≡ self.monitor }
    {
        self.monitor
    }

    // Consumes the next bytes of the script, and makes the steps that they spell. It fails with `Read` in the line of
    // the first byte past the limits, and with `OutOfMemory` where memory is refused.
    pub fn take_piece(&mut self, piece: &[u8]) -> Result<(), ScriptFault>
        ensures ok { OnOk result (FollowsBytes self.old self.new piece.now) }
        ensures fault { IfErr result (λ e. of_script e ≡ true) }
    {
        let mut rest = piece;
        while !rest.is_empty() {
            rest = self.take_next(rest)?;
        }
        Ok(())
    }

    // The same up to the end of the next line. Returns the bytes that are left.
    fn take_next<'a>(&mut self, piece: &'a [u8]) -> Result<&'a [u8], ScriptFault>
        ensures ok { IfOk result (λ rest. FollowsFront self.old self.new piece.now rest.now) }
        ensures shorter { IfOk result (λ rest. 0 < length piece.now → length rest.now < length piece.now) }
        ensures fault { IfErr result (λ e. of_script e ≡ true) }
    {
        let number = self.script.lines() + 1;
        let (entry, rest) = self.script.next_entry(piece)?;
        let Some(entry) = entry else {
            return Ok(rest);
        };
        self.monitor.take(entry, number)?;
        Ok(rest)
    }

    // Makes the step of the last line, if it has one. It fails where memory is refused.
    pub fn finish(&mut self) -> Result<(), ScriptFault>
        ensures ok { OnOk result (FollowsEnd self.old self.new) }
        ensures fault { IfErr result (λ e. of_script e ≡ true) }
    {
        let number = self.script.lines() + 1;
        let last = self.script.last_entry()?;
        let Some(entry) = last else {
            return Ok(());
        };
        self.monitor.take(entry, number)
    }
}
