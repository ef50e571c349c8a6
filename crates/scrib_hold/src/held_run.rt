//! Runs a script with its events held back, piece by piece.

use crate::held_monitor::HeldMonitor;
use crate::replies::Replies;
use scrib_core::format::Format;
use scrib_hold_stage::stage::Counts;
use scrib_script_io::fault::ScriptFault;
use scrib_script_reader::limits::Limits;
use scrib_script_reader::script::Script;
use std::alloc::Global;
use std::io::Write;

/// A script that runs over a monitor, with its events held back.
#[derive(Drop)]
pub struct HeldRun {
    script: Script,
    monitor: HeldMonitor<Replies>,
}

impl HeldRun {
    ghost use Rattle.std.specs.Prelude.{◌≡◌, ◌<◌, ◌+◌, ◌^◌, true, length, IfOk, IfErr, OnOk, OnErr};
    ghost use Rattle.std.specs.Io.KnownBytes.{Appends};
    ghost use Rattle.scrib_script_io.specs.Faults.{of_output, of_script};
    ghost use Rattle.scrib_hold.specs.Progress.{IsNewHeld, HeldRunAdvances, HeldPieceFails, GathersHeldFront, GatherFails, Writes};
    ghost use Rattle.scrib_hold.specs.Progress.{WritesFirst, HeldEndSucceeds, EndIsCut, TakesLast};

    /// Returns a run before the first byte of its script, which may have these limits.
    pub fn new(alloc: Global, format: Format, bound: u64, limits: Limits) -> HeldRun
        requires { limits.lines + 1 < 2 ^ 64 }
        ensures { IsNewHeld format bound limits result }
    {
        HeldRun {
            script: Script::with_limits(alloc, limits),
            monitor: HeldMonitor::new(alloc, bound, Replies::new(alloc, format)),
        }
    }

    /// Consumes the next bytes of the script, carries out what they let out, and writes the replies.
    ///
    /// # Errors
    /// - `Read` in the line of the first byte past the limits.
    /// - `Write` where the writer fails.
    /// - `OutOfMemory` where there is no memory for a line, the stage or a text.
    pub fn take_piece<W: Write>(&mut self, writer: &mut W, piece: &[u8]) -> Result<(), ScriptFault>
        ensures ok { OnOk result (Writes (λ out. HeldRunAdvances self.old self.new piece.now out)
            (W.contents writer.old) (W.contents writer.new)) }
        ensures err { OnErr result (Writes (λ out. HeldPieceFails self.old piece.now out)
            (W.contents writer.old) (W.contents writer.new)) }
        ensures fault { IfErr result (λ e. of_script e ≡ true) }
    {
        let taken = self.gather_piece(writer, piece);
        self.monitor.sink.gathered.write_all(writer)?;
        taken
    }

    // Consumes the bytes, carries out what they let out, and gathers the replies. Writes them when they are long.
    fn gather_piece<W: Write>(&mut self, writer: &mut W, piece: &[u8]) -> Result<(), ScriptFault>
        ensures ok { OnOk result (WritesFirst (λ out. HeldRunAdvances self.old self.new piece.now out)
            self.new.monitor.sink.gathered.bytes.items (W.contents writer.old) (W.contents writer.new)) }
        ensures err { OnErr result (WritesFirst (λ out. HeldPieceFails self.old piece.now out)
            self.new.monitor.sink.gathered.bytes.items (W.contents writer.old) (W.contents writer.new)) }
        ensures fault { IfErr result (λ e. of_script e ≡ true) }
    {
        self.monitor.sink.gathered.clear();
        let mut rest = piece;
        while !rest.is_empty() {
            rest = self.gather_next(rest)?;
            self.monitor.sink.gathered.write_long(writer)?;
        }
        Ok(())
    }

    // Consumes the bytes up to the end of the next line, and gathers what its entry lets out. Returns what is left.
    fn gather_next<'a>(&mut self, piece: &'a [u8]) -> Result<&'a [u8], ScriptFault>
        ensures ok { IfOk result (λ rest. GathersHeldFront self.old self.new piece.now rest.now) }
        ensures shorter { IfOk result (λ rest. 0 < length piece.now → length rest.now < length piece.now) }
        ensures err { OnErr result (GatherFails self.old self.new piece.now) }
        ensures fault { IfErr result (λ e. of_script e ≡ true) }
    {
        match self.script.next_short(piece) {
            Some((line, rest)) => {
                self.monitor.take_short(line)?;
                Ok(rest)
            }
            None => self.gather_other(piece),
        }
    }

    // The same where the next line is none that `next_short` reads.
    #[inline(never)]
    fn gather_other<'a>(&mut self, piece: &'a [u8]) -> Result<&'a [u8], ScriptFault>
        ensures ok { IfOk result (λ rest. GathersHeldFront self.old self.new piece.now rest.now) }
        ensures shorter { IfOk result (λ rest. 0 < length piece.now → length rest.now < length piece.now) }
        ensures err { OnErr result (GatherFails self.old self.new piece.now) }
        ensures fault { IfErr result (λ e. of_script e ≡ true) }
    {
        let (entry, rest) = self.script.next_entry(piece)?;
        let Some(entry) = entry else {
            return Ok(rest);
        };
        self.monitor.take(entry)?;
        Ok(rest)
    }

    /// Carries out what the end of the script lets out, and writes the replies. Returns the counts of the events.
    ///
    /// # Errors
    /// `Write` where the writer fails, and `OutOfMemory` where there is no memory for a line, the stage or a text.
    pub fn finish<W: Write>(&mut self, writer: &mut W) -> Result<Counts, ScriptFault>
        ensures ok { IfOk result (λ counts. Writes (λ out. HeldEndSucceeds self.old counts out)
            (W.contents writer.old) (W.contents writer.new)) }
        ensures err { OnErr result (Writes (λ out. EndIsCut self.old out)
            (W.contents writer.old) (W.contents writer.new)) }
        ensures fault { IfErr result (λ e. of_output e ≡ true) }
    {
        let ended = self.gather_end();
        self.monitor.sink.gathered.write_all(writer)?;
        ended
    }

    // Carries out what the end of the script lets out, and gathers the replies.
    fn gather_end(&mut self) -> Result<Counts, ScriptFault>
        ensures ok { IfOk result (λ counts. HeldEndSucceeds self.old counts
            self.new.monitor.sink.gathered.bytes.items) }
        ensures err { OnErr result (EndIsCut self.old self.new.monitor.sink.gathered.bytes.items) }
        ensures fault { IfErr result (λ e. of_output e ≡ true) }
    {
        self.take_last()?;
        self.monitor.finish()
    }

    // Takes the entry of the last line, if there is one, and gathers what it lets out.
    fn take_last(&mut self) -> Result<(), ScriptFault>
        ensures ok { OnOk result (TakesLast self.old self.new.monitor) }
        ensures err { OnErr result (EndIsCut self.old self.new.monitor.sink.gathered.bytes.items) }
        ensures fault { IfErr result (λ e. of_output e ≡ true) }
    {
        self.monitor.sink.gathered.clear();
        let last = self.script.last_entry()?;
        let Some(entry) = last else {
            return Ok(());
        };
        self.monitor.take(entry)
    }
}
