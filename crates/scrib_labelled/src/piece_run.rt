//! Reads a script with labels into a stage, piece by piece.

use crate::entry_stage::EntryStage;
use crate::label_options::LabelOptions;
use crate::labelled_run::LabelledRun;
use crate::line_count::LineCount;
use crate::object_exchange::ObjectText;
use scrib_objects::object_reader::ObjectReader;
use scrib_script_io::fault::ScriptFault;
use scrib_script_reader::kept_bytes::next_lf;
use scrib_script_reader::limits::Limits;
use scrib_script_reader::reader::Reader;
use std::alloc::Global;
use std::io::Write;

impl<S: EntryStage> LabelledRun<S> {
    ghost use Rattle.std.specs.Prelude.{◌≡◌, ◌<◌, ◌+◌, ◌^◌, [], true, length, IfOk, IfErr, OnErr, OnOk};
    ghost use Rattle.std.specs.Io.KnownBytes.{Appends};
    ghost use Rattle.scrib_script_io.specs.Faults.{of_output, of_script};
    ghost use Rattle.scrib_labelled.specs.GatheredBytes.{GatherFails, GathersFront, WritesFirst};
    ghost use Rattle.scrib_labelled.specs.Readings.{EndIsCut, EndSucceeds, IsAt, PieceFails, RunAdvances, Writes, beginning};

    /// Returns a run before the first byte of its script, which may have these labels and these limits. The stage has
    /// taken no entry.
    pub fn new(alloc: Global, labels: LabelOptions, limits: Limits, stage: S) -> LabelledRun<S>
        requires lines { limits.lines + 1 < 2 ^ 64 }
        requires new { S.Took stage stage [] [] }
        ensures stage { result.stage ≡ stage }
        ensures labels { result.options ≡ labels }
        ensures limits { result.count.limits ≡ limits }
        ensures start { IsAt S.Took (beginning result) result [] [] }
    {
        LabelledRun {
            alloc,
            options: labels,
            reader: Reader::new(alloc),
            objects: ObjectReader::new(alloc),
            object_text: ObjectText {
                line: Vec::new(alloc),
                tag_text: Vec::new(alloc),
            },
            stage,
            line: Vec::new(alloc),
            text: None,
            plain: Vec::new(alloc),
            count: LineCount::new(limits),
        }
    }

    /// Consumes the next bytes of the script, gives the stage the entries that they spell, and writes what it gathers.
    ///
    /// # Errors
    /// - `Read` in the line of the first byte past the limits.
    /// - `Write` where the writer fails.
    /// - `OutOfMemory` where there is no memory for a line, a name or a text, or the stage lacks memory.
    pub fn take_piece<W: Write>(&mut self, writer: &mut W, piece: &[u8]) -> Result<(), ScriptFault>
        ensures ok { OnOk result (Writes (λ out. RunAdvances S.Took self.old self.new piece.now out)
            (W.contents writer.old) (W.contents writer.new)) }
        ensures err { OnErr result (Writes (λ out. PieceFails S.Took S.TookPart self.old piece.now out)
            (W.contents writer.old) (W.contents writer.new)) }
        ensures fault { IfErr result (λ e. of_script e ≡ true) }
    {
        let taken = self.gather_piece(writer, piece);
        self.stage.write_all(writer)?;
        taken
    }

    // Consumes the bytes and gathers what they give. Writes it when it is long.
    fn gather_piece<W: Write>(&mut self, writer: &mut W, piece: &[u8]) -> Result<(), ScriptFault>
        ensures ok { OnOk result (WritesFirst (λ out. RunAdvances S.Took self.old self.new piece.now out)
            (S.gathered self.new.stage) (W.contents writer.old) (W.contents writer.new)) }
        ensures err { OnErr result (WritesFirst (λ out. PieceFails S.Took S.TookPart self.old piece.now out)
            (S.gathered self.new.stage) (W.contents writer.old) (W.contents writer.new)) }
        ensures fault { IfErr result (λ e. of_script e ≡ true) }
    {
        self.stage.clear();
        let mut rest = piece;
        while !rest.is_empty() {
            rest = self.gather_next(rest)?;
            self.stage.write_long(writer)?;
        }
        Ok(())
    }

    // Consumes the bytes up to the end of the next line, and gathers its output. Returns what is left.
    #[inline(always)]
    fn gather_next<'a>(&mut self, piece: &'a [u8]) -> Result<&'a [u8], ScriptFault>
        ensures ok { IfOk result (λ rest. GathersFront S.Took S.gathered self.old self.new piece.now rest.now) }
        ensures shorter { IfOk result (λ rest. 0 < length piece.now → length rest.now < length piece.now) }
        ensures err { OnErr result (GatherFails S.Took S.TookPart S.gathered self.old self.new piece.now) }
        ensures fault { IfErr result (λ e. of_script e ≡ true) }
    {
        let Some(at) = next_lf(piece) else {
            self.take_part(piece)?;
            return Ok(&[]);
        };
        self.take_end(&piece[..at + 1])?;
        Ok(&piece[at + 1..])
    }

    /// Gives the stage what the end of the script spells, and writes what it gathers.
    ///
    /// # Errors
    /// `Write` where the writer fails, and `OutOfMemory` where there is no memory for a line or a text, or the stage
    /// lacks memory.
    pub fn finish<W: Write>(&mut self, writer: &mut W) -> Result<(), ScriptFault>
        ensures ok { OnOk result (Writes (λ out. EndSucceeds S.Took S.TookAll self.old self.new.stage out)
            (W.contents writer.old) (W.contents writer.new)) }
        ensures err { OnErr result (Writes (λ out. EndIsCut S.Took S.TookPart self.old out)
            (W.contents writer.old) (W.contents writer.new)) }
        ensures fault { IfErr result (λ e. of_output e ≡ true) }
    {
        let ended = self.gather_end();
        self.stage.write_all(writer)?;
        ended
    }

    // Takes the last line, if there is one, and the end of the script, and gathers their output.
    fn gather_end(&mut self) -> Result<(), ScriptFault>
        ensures ok { OnOk result
            (EndSucceeds S.Took S.TookAll self.old self.new.stage (S.gathered self.new.stage)) }
        ensures err { OnErr result (EndIsCut S.Took S.TookPart self.old (S.gathered self.new.stage)) }
        ensures fault { IfErr result (λ e. of_output e ≡ true) }
    {
        self.stage.clear();
        self.end_last_line()?;
        self.end_text()?;
        self.stage.finish()?;
        Ok(())
    }
}
