//! Takes the lines of a script that are JSON objects.

ghost use Rattle.std.specs.Prelude.{◌≡◌, IfOk, option_map};
ghost use Rattle.scrib_objects.specs.Objects.{shown};
ghost use Rattle.scrib_labelled.specs.LabelledLines.{object_options};
ghost use Rattle.scrib_labelled.specs.ObjectLines.{IsObjectRead};

use crate::entry_stage::EntryStage;
use crate::label_options::LabelOptions;
use crate::labelled_run::{LabelledRun, tag_of};
use crate::line_parts::LineParts;
use crate::line_reading::read_untagged;
use crate::object_exchange::object_exchange;
use crate::put_text::PutText;
use crate::script_line::ScriptLine;
use scrib_objects::object_line::{ObjectBody, ObjectLine};
use scrib_objects::object_options::ObjectOptions;
use scrib_objects::object_reader::ObjectReader;
use scrib_script_reader::kept_bytes::KEPT_TEXT_BYTES;
use scrib_script_reader::line::Line;
use std::alloc::AllocError;

/// The most bytes of a line that is an object.
pub const MAX_OBJECT_BYTES: usize = 8_388_608;

impl<S: EntryStage> LabelledRun<S> {
    ghost use Rattle.std.specs.Prelude.{◌≡◌, ◌+◌, true, OnOk, OnErr, None};
    ghost use Rattle.scrib_report.specs.PutBack.{bytes_of};
    ghost use Rattle.scrib_script_reader.specs.declared.line.Line.TheVariants as line;
    ghost use Rattle.scrib_labelled.specs.LineEnds.{EndsLine, FailsLine, nameless, of_cut, of_meaning, of_object};

    // Takes a line outside module texts, given without its end, as an object.
    #[inline(never)]
    pub(crate) fn end_object(&mut self, line: &[u8]) -> Result<(), AllocError>
        requires text { self.old.text ≡ None }
        requires objects { self.old.options.objects ≡ true }
        ensures ok { OnOk result (EndsLine S.Took S.gathered self.old self.new
            (of_cut self.old.options line.now)) }
        ensures err { OnErr result (FailsLine S.Took S.TookPart S.gathered self.old self.new
            (of_cut self.old.options line.now)) }
    {
        let numbered = ScriptLine {
            number: self.count.number(),
            bytes: line,
        };
        // most objects of a long script
        if let Some(exchange) = object_exchange(
            &mut self.reader,
            self.stage.names(),
            self.options,
            &mut self.object_text,
            numbered,
        ) {
            return self.stage.note(exchange);
        }
        self.end_any_object(line)
    }

    // The same of any object.
    #[inline(never)]
    pub(crate) fn end_any_object(&mut self, line: &[u8]) -> Result<(), AllocError>
        requires text { self.old.text ≡ None }
        requires objects { self.old.options.objects ≡ true }
        ensures ok { OnOk result (EndsLine S.Took S.gathered self.old self.new
            (of_cut self.old.options line.now)) }
        ensures err { OnErr result (FailsLine S.Took S.TookPart S.gathered self.old self.new
            (of_cut self.old.options line.now)) }
    {
        let Some(object) = read_object(&mut self.objects, self.options, line)? else {
            return self.end_bad_object(None, line);
        };
        let ObjectLine { tag, body } = object;
        match body {
            ObjectBody::Line(bytes) => {
                self.end_object_line(tag_of(&tag), bytes.as_slice(), line)
            }
            ObjectBody::Put { format, text } => {
                let mut bytes = text;
                bytes.truncate(KEPT_TEXT_BYTES);
                let head = Vec::from_slice(self.alloc, line)?;
                let number = self.count.number();
                self.put(PutText {
                    line: number,
                    head,
                    bytes,
                    format,
                    tag,
                })
            }
            ObjectBody::Bad => self.end_bad_object(tag_of(&tag), line),
        }
    }

    // Takes the line that an object with this tag stands for. `text` is the object.
    fn end_object_line(
        &mut self,
        tag: Option<&[u8]>,
        line: &[u8],
        text: &[u8],
    ) -> Result<(), AllocError>
        requires { self.old.text ≡ None }
        ensures ok { OnOk result (EndsLine S.Took S.gathered self.old self.new
            (of_object self.old.options text.now (bytes_of tag.entry) line.now)) }
        ensures err { OnErr result (FailsLine S.Took S.TookPart S.gathered self.old self.new
            (of_object self.old.options text.now (bytes_of tag.entry) line.now)) }
    {
        let (session, meaning) = read_untagged(
            &mut self.reader,
            &mut self.plain,
            self.stage.names(),
            self.options.names,
            line,
        )?;
        let parts = LineParts {
            line: self.count.number(),
            text,
            tag,
            session,
        };
        self.end_meaning(parts, meaning)
    }

    // Takes a bad object with this tag. `text` is the object.
    fn end_bad_object<'a>(
        &mut self,
        tag: Option<&'a [u8]>,
        text: &'a [u8],
    ) -> Result<(), AllocError>
        requires { self.old.text ≡ None }
        ensures ok { OnOk result (EndsLine S.Took S.gathered self.old self.new
            (of_meaning self.old.options (nameless (self.old.count.lines + 1) text.now (bytes_of tag.entry)) line.Bad)) }
        ensures err { OnErr result (FailsLine S.Took S.TookPart S.gathered self.old self.new
            (of_meaning self.old.options (nameless (self.old.count.lines + 1) text.now (bytes_of tag.entry)) line.Bad)) }
    {
        let parts = LineParts {
            line: self.count.number(),
            text,
            tag,
            session: None,
        };
        self.end_meaning(parts, Line::Bad)
    }
}

// What the line stands for as an object, or none where it is longer than an object may be, or has no tag and is bad.
fn read_object(
    objects: &mut ObjectReader,
    options: LabelOptions,
    line: &[u8],
) -> Result<Option<ObjectLine>, AllocError>
    ensures { IfOk result (λ found. IsObjectRead options line.now (option_map shown found)) }
{
    if line.len() > MAX_OBJECT_BYTES {
        return Ok(None);
    }
    objects.read(object_options(options), line)
}

/// Returns which members objects may have.
pub(crate) fn object_options(options: LabelOptions) -> ObjectOptions
    ensures { result ≡ object_options options }
{
    ObjectOptions {
        tags: options.tags,
        names: options.names,
    }
}
