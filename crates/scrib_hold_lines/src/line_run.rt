//! Runs a script with its events held back into lines, piece by piece.

use crate::held_lines::HeldLines;
use crate::line_reader::{LineReader, split_line};
use crate::open_text::OpenText;
use scrib_hold_stage::stage::Counts;
use scrib_script_io::fault::ScriptFault;
use scrib_script_io::writing::write_out;
use scrib_script_reader::limits::Limits;
use std::alloc::Global;
use std::io::Write;

/// A script that is written anew with its events held back.
#[derive(Drop)]
pub struct LineRun {
    reader: LineReader,
    text: OpenText,
    lines: HeldLines,
}

impl LineRun {
    ghost use Rattle.std.specs.Prelude.{◌≡◌, ◌<◌, ◌+◌, ◌^◌, true, length, IfOk, IfErr, OnOk, OnErr};
    ghost use Rattle.scrib_script_reader.specs.Scripts.{NoLf};
    ghost use Rattle.scrib_script_io.specs.Faults.{of_script};
    ghost use Rattle.scrib_hold_lines.specs.Placement.{IsReaderEnded, IsReaderPlaced};
    ghost use Rattle.scrib_hold_lines.specs.Progress.{IsNewLineRun, LinesAdvance, LinesPieceFails, GathersBytes, GathersLinesFront};
    ghost use Rattle.scrib_hold_lines.specs.Progress.{LinesGatherFails, WritesOut, LinesEndSucceeds, LinesEndIsCut, TakesLastLine};

    /// Returns a run before the first byte of its script.
    pub(crate) fn new(alloc: Global, limits: Limits, bound: u64) -> LineRun
        requires { limits.lines + 1 < 2 ^ 64 }
        ensures { IsNewLineRun limits bound result }
    {
        LineRun {
            reader: LineReader::new(alloc, limits),
            text: OpenText::new(alloc),
            lines: HeldLines::new(alloc, bound),
        }
    }

    /// Consumes the next bytes of the script, and writes the lines that they let out.
    ///
    /// # Errors
    /// - `Read` in the line of the first byte past the limits.
    /// - `Write` where the writer fails.
    /// - `OutOfMemory` where there is no memory for a line or the stage.
    pub(crate) fn take_piece<W: Write>(
        &mut self,
        writer: &mut W,
        piece: &[u8],
    ) -> Result<(), ScriptFault>
        requires { IsReaderPlaced self.old.reader }
        ensures ok { OnOk result (WritesOut (λ out. LinesAdvance self.old self.new piece.now out)
            (W.contents writer.old) (W.contents writer.new)) }
        ensures placed { OnOk result (IsReaderPlaced self.new.reader) }
        ensures err { OnErr result (WritesOut (λ out. LinesPieceFails self.old piece.now out)
            (W.contents writer.old) (W.contents writer.new)) }
        ensures fault { IfErr result (λ e. of_script e ≡ true) }
    {
        let taken = self.gather_piece(piece);
        write_out(writer, self.lines.output.as_slice())?;
        taken
    }

    // Consumes the bytes, and gathers the lines that they let out.
    fn gather_piece(&mut self, piece: &[u8]) -> Result<(), ScriptFault>
        requires { IsReaderPlaced self.old.reader }
        ensures ok { OnOk result (LinesAdvance self.old self.new piece.now self.new.lines.output.items) }
        ensures placed { OnOk result (IsReaderPlaced self.new.reader) }
        ensures err { OnErr result (LinesPieceFails self.old piece.now self.new.lines.output.items) }
        ensures fault { IfErr result (λ e. of_script e ≡ true) }
    {
        self.lines.output.clear();
        let mut rest = piece;
        while !rest.is_empty() {
            rest = self.gather_next(rest)?;
        }
        Ok(())
    }

    // Consumes the bytes up to the end of the next line, and gathers what its entry lets out. Returns what is left.
    fn gather_next<'a>(&mut self, piece: &'a [u8]) -> Result<&'a [u8], ScriptFault>
        requires { IsReaderPlaced self.old.reader }
        ensures ok { IfOk result (λ rest. GathersLinesFront self.old self.new piece.now rest.now) }
        ensures placed { OnOk result (IsReaderPlaced self.new.reader) }
        ensures shorter { IfOk result (λ rest. 0 < length piece.now → length rest.now < length piece.now) }
        ensures err { OnErr result (LinesGatherFails self.old self.new piece.now) }
        ensures fault { IfErr result (λ e. of_script e ≡ true) }
    {
        let Some((end, rest)) = split_line(piece) else {
            self.reader.take_part(piece)?;
            return Ok(&[]);
        };
        self.gather_end_of_line(end)?;
        Ok(rest)
    }

    // Consumes the last bytes of a line, and its LF, and gathers what its entry lets out.
    fn gather_end_of_line(&mut self, bytes: &[u8]) -> Result<(), ScriptFault>
        requires placed { IsReaderPlaced self.old.reader }
        requires ended { IsReaderEnded bytes.now }
        ensures ok { OnOk result (GathersBytes self.old self.new bytes.now) }
        ensures placed { OnOk result (IsReaderPlaced self.new.reader) }
        ensures err { OnErr result (LinesGatherFails self.old self.new bytes.now) }
        ensures fault { IfErr result (λ e. of_script e ≡ true) }
    {
        let found = self.reader.take_end(bytes)?;
        let Some(entry) = found else {
            self.text.add_line(self.reader.line())?;
            self.reader.start_line();
            return Ok(());
        };
        self.text.clear();
        self.lines.take(entry, self.reader.line())?;
        self.reader.start_line();
        Ok(())
    }

    /// Writes the lines that the end of the script lets out. Returns the counts of the events.
    ///
    /// # Errors
    /// `Write` where the writer fails, and `OutOfMemory` where there is no memory for a line or the stage.
    pub(crate) fn finish<W: Write>(&mut self, writer: &mut W) -> Result<Counts, ScriptFault>
        requires { IsReaderPlaced self.old.reader }
        ensures ok { IfOk result (λ counts. WritesOut (λ out. LinesEndSucceeds self.old counts out)
            (W.contents writer.old) (W.contents writer.new)) }
        ensures err { OnErr result (WritesOut (λ out. LinesEndIsCut self.old out)
            (W.contents writer.old) (W.contents writer.new)) }
        ensures fault { IfErr result (λ e. of_script e ≡ true) }
    {
        let ended = self.gather_end();
        write_out(writer, self.lines.output.as_slice())?;
        ended
    }

    // Gathers the lines that the end of the script lets out.
    fn gather_end(&mut self) -> Result<Counts, ScriptFault>
        requires { IsReaderPlaced self.old.reader }
        ensures ok { IfOk result (λ counts. LinesEndSucceeds self.old counts self.new.lines.output.items) }
        ensures err { OnErr result (LinesEndIsCut self.old self.new.lines.output.items) }
        ensures fault { IfErr result (λ e. of_script e ≡ true) }
    {
        self.take_last()?;
        self.lines.finish(self.text.unended())
    }

    // Takes the entry of the last line, if there is one, and gathers what it lets out.
    fn take_last(&mut self) -> Result<(), ScriptFault>
        requires { IsReaderPlaced self.old.reader }
        ensures ok { OnOk result (TakesLastLine self.old self.new.lines) }
        ensures err { OnErr result (LinesEndIsCut self.old self.new.lines.output.items) }
        ensures fault { IfErr result (λ e. of_script e ≡ true) }
    {
        self.lines.output.clear();
        let last = self.reader.last_entry()?;
        let Some(entry) = last else {
            return Ok(());
        };
        self.text.add_last(&entry, self.reader.line())?;
        self.lines.take(entry, self.reader.line())
    }
}
