//! Takes the lines of a script with labels, one after another.

ghost use Rattle.std.specs.Prelude.{◌≡◌, ◌↔◌, ◌≤◌, ◌<◌, ◌+◌, ◌^◌, ◌++◌, ◌∷◌, [], IsTrue, option_map};
ghost use Rattle.scrib_report.specs.PutBack.{bytes_of};
ghost use Rattle.scrib_script_reader.specs.Scripts.{bare, text_end};
ghost use Rattle.scrib_labelled.specs.Splits.{IsEnded};

use crate::entry_stage::EntryStage;
use crate::exchange_line::exchange_line;
use crate::label_options::LabelOptions;
use crate::line_count::LineCount;
use crate::line_parts::LineParts;
use crate::line_reading::read_line;
use crate::object_exchange::ObjectText;
use crate::put_text::PutText;
use crate::script_line::ScriptLine;
use scrib_core::format::Format;
use scrib_core::step::Step;
use scrib_objects::object_reader::ObjectReader;
use scrib_script_io::fault::ScriptFault;
use scrib_script_reader::entry::Entry;
use scrib_script_reader::item::Item;
use scrib_script_reader::kept_bytes::{KEPT_TEXT_BYTES, append_up_to, without_cr};
use scrib_script_reader::line::Line;
use scrib_script_reader::reader::Reader;
use scrib_types::containers::Items;
use std::alloc::{AllocError, Global};
use std::mem::replace;

// The bytes that are kept of a line outside module texts: its limit, one byte to see that it is longer, and a CR.
const KEPT_LINE_BYTES: usize = 131_074;

const KEPT_OBJECT_BYTES: usize = 8_388_610;

/// A script with labels whose entries go into a stage.
#[derive(Drop)]
pub struct LabelledRun<S: EntryStage> {
    pub(crate) alloc: Global,
    pub(crate) options: LabelOptions,
    pub(crate) reader: Reader,
    pub(crate) objects: ObjectReader,
    pub(crate) object_text: ObjectText,
    /// What takes the entries.
    pub stage: S,
    // The line so far, as far as it is kept.
    pub(crate) line: Vec<u8>,
    // The module text that is read, or none outside module texts.
    pub(crate) text: Option<PutText>,
    // The line that the last line stands for.
    pub(crate) plain: Vec<u8>,
    pub(crate) count: LineCount,
}

impl<S: EntryStage> LabelledRun<S> {
    ghost use Rattle.std.specs.Prelude.{◌≡◌, ◌<◌, ◌+◌, ◌^◌, true, false, length, Option, IfOk, IfErr, OnErr, OnOk, None};
    ghost use Rattle.scrib_script_io.specs.Faults.{of_script};
    ghost use Rattle.scrib_script_reader.specs.Scripts.{NoLf};
    ghost use Rattle.scrib_labelled.specs.LabelledScripts.{LabelledText};
    ghost use Rattle.scrib_labelled.specs.Splits.{IsEnded};
    ghost use Rattle.scrib_labelled.specs.GatheredBytes.{GatherFails, GathersBytes};
    ghost use Rattle.scrib_labelled.specs.LineEnds.{EndsBody, EndsLast, EndsLine, EndsText, FailsLast, FailsLine, FailsText, PutFails, PutsText};
    ghost use Rattle.scrib_labelled.specs.LineEnds.{of_body, of_cut, of_kept, of_last, of_last_text_line, of_meaning, of_text_line};
    ghost use Rattle.scrib_labelled.specs.Readings.{HoldsUnended, kept_len};
    ghost use Rattle.scrib_labelled.specs.NamedLines.{IsNumbersOf, label_of, session_of};

    // Consumes bytes of a line, without its LF.
    pub(crate) fn take_part(&mut self, part: &[u8]) -> Result<(), ScriptFault>
        requires { NoLf part.now }
        ensures ok { OnOk result (GathersBytes S.Took S.gathered self.old self.new part.now) }
        ensures err { OnErr result (GatherFails S.Took S.TookPart S.gathered self.old self.new part.now) }
        ensures fault { IfErr result (λ e. of_script e ≡ true) }
    {
        if !self.count.take(part.len()) {
            return Err(ScriptFault::Read);
        }
        let capacity = self.capacity();
        append_up_to(&mut self.line, part, capacity)?;
        Ok(())
    }

    // Consumes the last bytes of a line, and its LF.
    #[inline(always)]
    pub(crate) fn take_end(&mut self, bytes: &[u8]) -> Result<(), ScriptFault>
        requires { IsEnded bytes.now }
        ensures ok { OnOk result (GathersBytes S.Took S.gathered self.old self.new bytes.now) }
        ensures err { OnErr result (GatherFails S.Took S.TookPart S.gathered self.old self.new bytes.now) }
        ensures fault { IfErr result (λ e. of_script e ≡ true) }
    {
        if !self.count.take(bytes.len()) {
            return Err(ScriptFault::Read);
        }
        self.end_body(without_lf(bytes))?;
        self.count.end_line();
        Ok(())
    }

    // Takes a line that ends with these bytes, without its LF.
    #[inline(always)]
    fn end_body(&mut self, body: &[u8]) -> Result<(), AllocError>
        ensures ok { OnOk result (EndsBody S.Took S.gathered self.old self.new body.now) }
        ensures err { OnErr result (FailsLine S.Took S.TookPart S.gathered self.old self.new
            (of_body self.old.options self.old.text self.old.line.items body.now)) }
    {
        let capacity = self.capacity();
        if self.line.is_empty() {
            return self.end_line(&body[..body.len().min(capacity)]);
        }
        append_up_to(&mut self.line, body, capacity)?;
        let line = replace(&mut self.line, Vec::new(self.alloc));
        self.end_any_line(line.as_slice())
    }

    // Returns how many bytes of the line are kept.
    #[inline(always)]
    fn capacity(&self) -> usize
        ensures { (before : Option LabelledText) → HoldsUnended self.now.text before → result ≡ kept_len self.now.options before }
    {
        if self.text.is_some() {
            KEPT_TEXT_BYTES
        } else if self.options.objects {
            KEPT_OBJECT_BYTES
        } else {
            KEPT_LINE_BYTES
        }
    }

    // Takes a line that has ended, as far as it is kept, without its LF.
    #[inline(always)]
    fn end_line(&mut self, line: &[u8]) -> Result<(), AllocError>
        ensures ok { OnOk result (EndsLine S.Took S.gathered self.old self.new
            (of_kept self.old.options self.old.text line.now)) }
        ensures err { OnErr result (FailsLine S.Took S.TookPart S.gathered self.old self.new
            (of_kept self.old.options self.old.text line.now)) }
    {
        // most lines of a long script
        if self.text.is_none() {
            return self.end_plain_line(without_cr(line));
        }
        self.end_any_line(line)
    }

    // The same, in a module text and outside of one.
    #[inline(never)]
    fn end_any_line(&mut self, line: &[u8]) -> Result<(), AllocError>
        ensures ok { OnOk result (EndsLine S.Took S.gathered self.old self.new
            (of_kept self.old.options self.old.text line.now)) }
        ensures err { OnErr result (FailsLine S.Took S.TookPart S.gathered self.old self.new
            (of_kept self.old.options self.old.text line.now)) }
    {
        match self.text.take() {
            Some(text) => self.end_text_line(text, line),
            None => self.end_any_plain_line(without_cr(line)),
        }
    }

    // The same of a line in this module text.
    fn end_text_line(&mut self, mut text: PutText, line: &[u8]) -> Result<(), AllocError>
        requires { self.old.text ≡ None }
        ensures ok { OnOk result (EndsLine S.Took S.gathered self.old self.new
            (of_text_line text line.now)) }
        ensures err { OnErr result (FailsLine S.Took S.TookPart S.gathered self.old self.new
            (of_text_line text line.now)) }
    {
        if !is_text_end(line) {
            text.add_line(line)?;
            self.text = Some(text);
            return Ok(());
        }
        self.put(text)
    }

    // Carries the put of a text out.
    pub(crate) fn put(&mut self, text: PutText) -> Result<(), AllocError>
        ensures ok { OnOk result (PutsText S.Took S.gathered self.old self.new text) }
        ensures err { OnErr result (PutFails S.Took S.TookPart S.gathered self.old self.new text) }
    {
        let PutText {
            line,
            head,
            bytes,
            format,
            tag,
        } = text;
        let put = Step::Put {
            text: Items::from_vec(bytes),
        };
        let parts = LineParts {
            line,
            text: head.as_slice(),
            tag: tag_of(&tag),
            session: None,
        };
        self.stage.take(Entry::Item(Item::Step(format, put)), parts)
    }

    // Takes a line outside module texts, given without its end.
    #[inline(always)]
    fn end_plain_line(&mut self, line: &[u8]) -> Result<(), AllocError>
        requires { self.old.text ≡ None }
        ensures ok { OnOk result (EndsLine S.Took S.gathered self.old self.new
            (of_cut self.old.options line.now)) }
        ensures err { OnErr result (FailsLine S.Took S.TookPart S.gathered self.old self.new
            (of_cut self.old.options line.now)) }
    {
        if self.options.objects {
            return self.end_object(line);
        }
        let numbered = ScriptLine {
            number: self.count.number(),
            bytes: line,
        };
        // most lines of a long script
        if let Some(exchange) = exchange_line(
            &mut self.reader,
            self.stage.names(),
            self.options,
            numbered,
        ) {
            return self.stage.note(exchange);
        }
        self.end_other_line(line)
    }

    // The same, where the line may be any.
    fn end_any_plain_line(&mut self, line: &[u8]) -> Result<(), AllocError>
        requires { self.old.text ≡ None }
        ensures ok { OnOk result (EndsLine S.Took S.gathered self.old self.new
            (of_cut self.old.options line.now)) }
        ensures err { OnErr result (FailsLine S.Took S.TookPart S.gathered self.old self.new
            (of_cut self.old.options line.now)) }
    {
        if self.options.objects {
            return self.end_any_object(line);
        }
        self.end_other_line(line)
    }

    // The same of a line that is no object.
    #[inline(never)]
    fn end_other_line(&mut self, line: &[u8]) -> Result<(), AllocError>
        requires text { self.old.text ≡ None }
        requires lines { self.old.options.objects ≡ false }
        ensures ok { OnOk result (EndsLine S.Took S.gathered self.old self.new
            (of_cut self.old.options line.now)) }
        ensures err { OnErr result (FailsLine S.Took S.TookPart S.gathered self.old self.new
            (of_cut self.old.options line.now)) }
    {
        let numbered = ScriptLine {
            number: self.count.number(),
            bytes: line,
        };
        let (parts, meaning) = read_line(
            &mut self.reader,
            &mut self.plain,
            self.stage.names(),
            self.options,
            numbered,
        )?;
        self.end_meaning(parts, meaning)
    }

    // Carries out what a line with this label means.
    pub(crate) fn end_meaning(
        &mut self,
        parts: LineParts<'_>,
        meaning: Line,
    ) -> Result<(), AllocError>
        requires text { self.old.text ≡ None }
        requires numbers { IsNumbersOf (S.names self.old.stage) (session_of parts.session) }
        requires line { parts.line ≡ self.old.count.lines + 1 }
        ensures ok { OnOk result (EndsLine S.Took S.gathered self.old self.new
            (of_meaning self.old.options (label_of parts.entry) meaning)) }
        ensures err { OnErr result (FailsLine S.Took S.TookPart S.gathered self.old self.new
            (of_meaning self.old.options (label_of parts.entry) meaning)) }
    {
        match meaning {
            Line::Skipped => self.stage.take(Entry::Skipped, parts),
            Line::Put(format) => {
                let LineParts {
                    line,
                    text,
                    tag,
                    ..
                } = parts;
                self.text = Some(PutText::new(self.alloc, line, text, format, tag)?);
                Ok(())
            }
            Line::Step(format, step) => self
                .stage
                .take(Entry::Item(Item::Step(format, step)), parts),
            Line::Sweep(format) => self.stage.take(Entry::Item(Item::Sweep(format)), parts),
            Line::Bad => self
                .stage
                .take(Entry::Item(Item::BadLine(self.count.number())), parts),
        }
    }

    // Takes the last bytes of the script, which no LF ended.
    pub(crate) fn end_last_line(&mut self) -> Result<(), AllocError>
        ensures ok { OnOk result (EndsLast S.Took S.gathered self.old self.new
            (of_last self.old.options self.old.text self.old.line.items)) }
        ensures err { OnErr result (FailsLast S.Took S.TookPart S.gathered self.old self.new
            (of_last self.old.options self.old.text self.old.line.items)) }
    {
        if self.line.is_empty() {
            return Ok(());
        }
        let line = replace(&mut self.line, Vec::new(self.alloc));
        match self.text.take() {
            Some(text) => self.end_last_text_line(text, line.as_slice()),
            None => self.end_any_plain_line(line.as_slice()),
        }
    }

    // The same in this module text.
    fn end_last_text_line(&mut self, text: PutText, line: &[u8]) -> Result<(), AllocError>
        requires { self.old.text ≡ None }
        ensures ok { OnOk result (EndsLast S.Took S.gathered self.old self.new (of_last_text_line text line.now)) }
        ensures err { OnErr result (FailsLast S.Took S.TookPart S.gathered self.old self.new
            (of_last_text_line text line.now)) }
    {
        if is_mark(line) {
            return self.put(text);
        }
        self.text = Some(text);
        Ok(())
    }

    // Takes the end of the script.
    pub(crate) fn end_text(&mut self) -> Result<(), AllocError>
        ensures ok { OnOk result (EndsText S.Took S.gathered self.old self.new) }
        ensures err { OnErr result (FailsText S.Took S.TookPart S.gathered self.old self.new) }
    {
        let Some(text) = self.text.take() else {
            return Ok(());
        };
        let parts = LineParts {
            line: text.line,
            text: text.head.as_slice(),
            tag: tag_of(&text.tag),
            session: None,
        };
        self.stage.take(Entry::Item(Item::EndOfText), parts)
    }
}

// Returns whether the line, given without its LF, ends a module text.
fn is_text_end(line: &[u8]) -> bool
    ensures { IsTrue result ↔ (bare (line.now ++ 10 ∷ []) ≡ text_end) }
{
    is_mark(without_cr(line))
}

// Returns whether the line, given without its end, ends a module text.
fn is_mark(line: &[u8]) -> bool
    ensures { IsTrue result ↔ (line.now ≡ text_end) }
{
    line == b"%%".as_slice()
}

/// Returns the bytes of the tag, if there is one.
pub(crate) fn tag_of(tag: &Option<Vec<u8>>) -> Option<&[u8]>
    ensures { bytes_of result ≡ option_map (λ tag. tag.items) tag.now }
{
    match tag {
        Some(tag) => Some(tag.as_slice()),
        None => None,
    }
}

// Returns the bytes in front of the LF at their end.
#[inline(always)]
fn without_lf(bytes: &[u8]) -> &[u8]
    requires { IsEnded bytes.now }
    ensures { bytes.now ≡ result.now ++ 10 ∷ [] }
{
    match bytes.split_last() {
        Some((_, front)) => front,
        None => bytes,
    }
}
