//! Runs a script over a monitor, piece by piece.

use crate::gathered::Gathered;
use crate::item_output::{gather_item, gather_short};
use crate::output_mode::OutputMode;
use scrib_core::monitor::Core;
use scrib_script_io::fault::ScriptFault;
use scrib_script_reader::limits::Limits;
use scrib_script_reader::script::Script;
use std::alloc::Global;
use std::io::Write;

/// A script that runs over a monitor.
#[derive(Drop)]
pub struct ScriptRun {
    script: Script,
    core: Core,
    output_mode: OutputMode,
    // The replies that are not written yet.
    gathered: Gathered,
}

impl ScriptRun {
    ghost use Rattle.std.specs.Prelude.{◌≡◌, ◌<◌, ◌+◌, ◌^◌, true, length, IfOk, IfErr, OnOk, OnErr};
    ghost use Rattle.scrib_core.specs.Held.{state_of};
    ghost use Rattle.scrib_script_reader.specs.Positions.{PassesLimits};
    ghost use Rattle.scrib_script_io.specs.Faults.{of_output, of_script};
    ghost use Rattle.std.specs.Io.KnownBytes.{append_known};
    ghost use Rattle.scrib_cli.specs.Progress.{IsNew, RunAdvances, PieceFails, GathersFront, FailsWithin, PassesLimitIn};
    ghost use Rattle.scrib_cli.specs.Progress.{EndSucceeds, EndFails};
    ghost use Rattle.scrib_script_io.specs.declared.fault.ScriptFault.TheVariants as fault;

    /// Returns a run before the first byte of its script, which has these limits.
    pub fn new(alloc: Global, limits: Limits, output_mode: OutputMode) -> ScriptRun
        requires { limits.lines + 1 < 2 ^ 64 }
        ensures { IsNew limits output_mode result }
    {
        ScriptRun {
            script: Script::with_limits(alloc, limits),
            core: Core::new(alloc),
            output_mode,
            gathered: Gathered::new(alloc),
        }
    }

    /// Returns the monitor after the steps so far.
    pub fn into_core(self) -> Core
        ensures { state_of result ≡ state_of self.core }
    {
        self.core
    }

    /// Consumes the next bytes of the script, makes the steps that they spell, and writes the replies.
    ///
    /// # Errors
    /// - `Read` in the line of the first byte past the limits; the replies before that line are written.
    /// - `Write` where the writer fails.
    /// - `OutOfMemory` where there is no memory for a line or a text, or in silent mode for a step.
    pub fn take_piece<W: Write>(&mut self, writer: &mut W, piece: &[u8]) -> Result<(), ScriptFault>
        ensures ok { OnOk result
            (RunAdvances self.old self.new piece.now (W.contents writer.old) (W.contents writer.new)) }
        ensures err { OnErr result (PieceFails self.old piece.now (W.contents writer.old) (W.contents writer.new)) }
        ensures fault { IfErr result (λ e. of_script e ≡ true) }
        ensures limit { IfErr result (λ e. e ≡ fault.Read
            → PassesLimitIn self.old piece.now (W.contents writer.old) (W.contents writer.new)) }
    {
        let taken = self.gather_piece(writer, piece);
        self.gathered.write_all(writer)?;
        taken
    }

    // Consumes the bytes, makes the steps that they spell, and gathers the replies. Writes them when they are long.
    fn gather_piece<W: Write>(&mut self, writer: &mut W, piece: &[u8]) -> Result<(), ScriptFault>
        ensures ok { OnOk result (RunAdvances self.old self.new piece.now
            (W.contents writer.old) (append_known (W.contents writer.new) self.new.gathered.bytes.items)) }
        ensures cut { FailsWithin self.old piece.now self.new.gathered.bytes.items
            (W.contents writer.old) (W.contents writer.new) }
        ensures fault { IfErr result (λ e. of_script e ≡ true) }
        ensures limit { IfErr result (λ e. e ≡ fault.Read → PassesLimitIn self.old piece.now
            (W.contents writer.old) (append_known (W.contents writer.new) self.new.gathered.bytes.items)) }
    {
        self.gathered.clear();
        let mut rest = piece;
        while !rest.is_empty() {
            rest = self.gather_next(rest)?;
            self.gathered.write_long(writer)?;
        }
        Ok(())
    }

    // Consumes the bytes up to the end of the next item, makes its step, and gathers its reply. Returns what is left.
    fn gather_next<'a>(&mut self, piece: &'a [u8]) -> Result<&'a [u8], ScriptFault>
        ensures ok { IfOk result (λ rest. GathersFront self.old self.new piece.now rest.now) }
        ensures shorter { IfOk result (λ rest. 0 < length piece.now → length rest.now < length piece.now) }
        ensures err { OnErr result (self.new.gathered.bytes.items ≡ self.old.gathered.bytes.items) }
        ensures fault { IfErr result (λ e. of_script e ≡ true) }
        ensures limit { IfErr result (λ e. e ≡ fault.Read → PassesLimits self.old.script piece.now) }
    {
        match self.script.next_short(piece) {
            Some((line, rest)) => {
                gather_short(&mut self.gathered, &mut self.core, line, self.output_mode)?;
                Ok(rest)
            }
            None => self.gather_other(piece),
        }
    }

    // The same where the next line is none that `next_short` reads.
    #[inline(never)]
    fn gather_other<'a>(&mut self, piece: &'a [u8]) -> Result<&'a [u8], ScriptFault>
        ensures ok { IfOk result (λ rest. GathersFront self.old self.new piece.now rest.now) }
        ensures shorter { IfOk result (λ rest. 0 < length piece.now → length rest.now < length piece.now) }
        ensures err { OnErr result (self.new.gathered.bytes.items ≡ self.old.gathered.bytes.items) }
        ensures fault { IfErr result (λ e. of_script e ≡ true) }
        ensures limit { IfErr result (λ e. e ≡ fault.Read → PassesLimits self.old.script piece.now) }
    {
        let (item, rest) = self.script.next_item(piece)?;
        if let Some(item) = item {
            gather_item(&mut self.gathered, &mut self.core, item, self.output_mode)?;
        }
        Ok(rest)
    }

    /// Makes the step that the end of the script spells, and writes its reply.
    ///
    /// # Errors
    /// `Write` where the writer fails, and `OutOfMemory` where there is no memory for a text, or in silent mode for the
    /// step.
    pub fn finish<W: Write>(&mut self, writer: &mut W) -> Result<(), ScriptFault>
        ensures ok { OnOk result
            (EndSucceeds self.old (state_of self.new.core) (W.contents writer.old) (W.contents writer.new)) }
        ensures err { OnErr result (EndFails self.old (W.contents writer.old) (W.contents writer.new)) }
        ensures fault { IfErr result (λ e. of_output e ≡ true) }
    {
        let last = self.script.last_item()?;
        let Some(item) = last else {
            return Ok(());
        };
        self.gathered.clear();
        gather_item(&mut self.gathered, &mut self.core, item, self.output_mode)?;
        self.gathered.write_all(writer)
    }
}
