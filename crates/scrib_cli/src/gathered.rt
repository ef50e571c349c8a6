//! Gathers the texts of an output, so that one write takes many of them.

ghost use Rattle.std.specs.Prelude.{◌≡◌, ◌++◌, [], true, codes, IfErr, OnOk, OnErr};
ghost use Rattle.std.specs.Fmt.{decimal};
ghost use Rattle.std.specs.Result.{result_ok};
ghost use Rattle.std.specs.Io.KnownBytes.{Appends};
ghost use Rattle.scrib_core.specs.ReplyValues.{note_reply_of, open_reply_of};
ghost use Rattle.scrib_report.specs.HeadedEvents.{headed_permitted};
ghost use Rattle.scrib_report.specs.Parts.{bad_part, part_of};
ghost use Rattle.scrib_report.specs.ReplyTexts.{part_text, reply_text, swept_text};
ghost use Rattle.scrib_script_io.specs.Faults.{of_output};
ghost use Rattle.scrib_script_io.specs.Writes.{AppendsPart};
ghost use Rattle.scrib_cli.specs.Progress.{WritesFront};

use scrib_core::conversation_steps::Noted;
use scrib_core::format::Format;
use scrib_core::reply::{Refusal, Reply, note_reply, open_reply};
use scrib_report::event_line::{push_judged_event, push_permitted, push_permitted_verdict};
use scrib_report::labelled_event::push_headed_permitted;
use scrib_report::numbered::push_bad_line;
use scrib_report::opened_line::push_opened_line;
use scrib_report::part::OutputPart;
use scrib_report::printing::push_part;
use scrib_report::reply_head::ReplyHead;
use scrib_script_io::fault::ScriptFault;
use scrib_script_io::writing::write_out;
use scrib_types::event::{Told, Verdict};
use scrib_types::name::Dotted;
use std::alloc::{AllocError, Global};
use std::io::Write;

// The number of gathered bytes past which they are written.
const FULL_BYTES: usize = 32_768;

/// Texts that are to be written, in their order.
#[derive(Drop)]
pub struct Gathered {
    bytes: Vec<u8>,
    // The buffer for one text. Where memory is refused in the midst of it, the gathered texts stay whole.
    buffer: Vec<u8>,
}

impl Gathered {
    /// Returns a gathering of no texts.
    pub fn new(alloc: Global) -> Gathered {
        Gathered {
            bytes: Vec::new(alloc),
            buffer: Vec::new(alloc),
        }
    }

    /// Drops all texts.
    pub fn clear(&mut self)
        ensures { self.new.bytes.items ≡ [] }
    {
        self.bytes.clear();
    }

    // Adds the part in this format. Where memory is refused, the texts stay as they were.
    pub(crate) fn add_part(
        &mut self,
        part: &OutputPart<'_>,
        format: Format,
    ) -> Result<(), AllocError>
        ensures ok { OnOk result
            (self.new.bytes.items ≡ self.old.bytes.items ++ part_text format (part_of part.now)) }
        ensures err { OnErr result (self.new.bytes.items ≡ self.old.bytes.items) }
    {
        self.buffer.clear();
        push_part(&mut self.buffer, part, format)?;
        self.bytes.extend_from_slice(self.buffer.as_slice())
    }

    /// Adds the reply to a note in the conversation `id` with this outcome, in this format.
    ///
    /// # Errors
    /// `AllocError` where memory is refused. The texts stay as they were.
    #[inline(always)]
    pub fn add_noted(
        &mut self,
        id: u32,
        noted: Result<Noted, Refusal>,
        format: Format,
    ) -> Result<(), AllocError>
        ensures ok { OnOk result
            (self.new.bytes.items ≡ self.old.bytes.items ++ reply_text format (note_reply_of id noted)) }
        ensures err { OnErr result (self.new.bytes.items ≡ self.old.bytes.items) }
    {
        match (format, noted) {
            // most replies of a long script
            (
                Format::Line,
                Ok(
                    Noted {
                        place,
                        told: Told::Judged(Verdict::Permitted),
                    },
                ),
            ) => push_permitted(&mut self.bytes, id, place as u64),
            (
                Format::Line,
                Ok(
                    Noted {
                        place,
                        told: Told::Judged(verdict),
                    },
                ),
            ) => push_judged_event(&mut self.bytes, id, place as u64, &verdict),
            (format, noted) => self.add_reply(&note_reply(id, noted), format),
        }
    }

    // Adds the reply to an opening of the conversation `id` with this outcome, in this format. Where memory is refused,
    // the texts stay as they were.
    pub(crate) fn add_opened(
        &mut self,
        id: u32,
        opened: Result<Dotted, Refusal>,
        format: Format,
    ) -> Result<(), AllocError>
        ensures ok { OnOk result
            (self.new.bytes.items ≡ self.old.bytes.items ++ reply_text format (open_reply_of id opened)) }
        ensures err { OnErr result (self.new.bytes.items ≡ self.old.bytes.items) }
    {
        match (format, opened) {
            (Format::Line, Ok(name)) => push_opened_line(&mut self.bytes, id, &name),
            (format, opened) => self.add_reply(&open_reply(id, opened), format),
        }
    }

    // Adds the line of the reply that the verdict on the conversation `id` is `Permitted`. Where memory is refused, the
    // texts stay as they were.
    pub(crate) fn add_permitted_verdict(&mut self, id: u32) -> Result<(), AllocError>
        ensures ok { OnOk result
            (self.new.bytes.items ≡ self.old.bytes.items ++ (decimal id ++ codes " permitted\n")) }
        ensures err { OnErr result (self.new.bytes.items ≡ self.old.bytes.items) }
    {
        push_permitted_verdict(&mut self.bytes, id)
    }

    // Adds the report of a bad line of this number, in this format. Where memory is refused, the texts stay as they were.
    pub(crate) fn add_bad_line(&mut self, number: u64, format: Format) -> Result<(), AllocError>
        ensures ok { OnOk result
            (self.new.bytes.items ≡ self.old.bytes.items ++ part_text format (bad_part number)) }
        ensures err { OnErr result (self.new.bytes.items ≡ self.old.bytes.items) }
    {
        match format {
            Format::Line => push_bad_line(&mut self.bytes, number),
            Format::Json => self.add_part(&OutputPart::BadLine(number), format),
        }
    }

    // Returns the allocator of the texts.
    pub(crate) fn alloc(&self) -> Global {
        *self.bytes.allocator()
    }

    // Adds the reply to a sweep with this outcome, in this format. Where memory is refused, the texts stay as they were.
    pub(crate) fn add_swept(
        &mut self,
        swept: Result<usize, AllocError>,
        format: Format,
    ) -> Result<(), AllocError>
        ensures ok { OnOk result
            (self.new.bytes.items ≡ self.old.bytes.items ++ swept_text format (result_ok swept)) }
        ensures err { OnErr result (self.new.bytes.items ≡ self.old.bytes.items) }
    {
        match swept {
            Ok(judged) => self.add_part(&OutputPart::Swept(judged as u64), format),
            Err(_) => self.add_reply(&Reply::Refused(Refusal::OutOfMemory), format),
        }
    }

    /// Adds the reply in this format.
    ///
    /// # Errors
    /// `AllocError` where memory is refused. The texts stay as they were.
    #[inline(never)]
    pub fn add_reply(&mut self, reply: &Reply, format: Format) -> Result<(), AllocError>
        ensures ok { OnOk result (self.new.bytes.items ≡ self.old.bytes.items ++ reply_text format reply.now) }
        ensures err { OnErr result (self.new.bytes.items ≡ self.old.bytes.items) }
    {
        self.add_part(&OutputPart::Reply(reply), format)
    }

    /// Adds the line of the permitted event at this place of the conversation `id`, with this head.
    ///
    /// # Errors
    /// `AllocError` where memory is refused. The texts stay as they were.
    #[inline(always)]
    pub fn add_headed_permitted(
        &mut self,
        id: u32,
        place: u64,
        head: ReplyHead<'_>,
    ) -> Result<(), AllocError>
        ensures ok { OnOk result
            (self.new.bytes.items ≡ self.old.bytes.items ++ headed_permitted head.entry id place) }
        ensures err { OnErr result (self.new.bytes.items ≡ self.old.bytes.items) }
    {
        push_headed_permitted(&mut self.bytes, id, place, head)
    }

    /// Adds the bytes of texts that another crate printed.
    ///
    /// # Errors
    /// `AllocError` where memory is refused. The texts stay as they were.
    pub fn add_bytes(&mut self, bytes: &[u8]) -> Result<(), AllocError>
        ensures ok { OnOk result (self.new.bytes.items ≡ self.old.bytes.items ++ bytes.now) }
        ensures err { OnErr result (self.new.bytes.items ≡ self.old.bytes.items) }
    {
        self.bytes.extend_from_slice(bytes)
    }

    /// Writes all texts and drops them.
    ///
    /// # Errors
    /// `Write` where the writer fails. A prefix of the texts is then written, and all are dropped.
    pub fn write_all<W: Write>(&mut self, writer: &mut W) -> Result<(), ScriptFault>
        ensures none { self.new.bytes.items ≡ [] }
        ensures ok { OnOk result (Appends (W.contents writer.old) (W.contents writer.new) self.old.bytes.items) }
        ensures err { OnErr result
            (AppendsPart (W.contents writer.old) (W.contents writer.new) self.old.bytes.items) }
        ensures fault { IfErr result (λ e. of_output e ≡ true) }
    {
        let written = write_out(writer, self.bytes.as_slice());
        self.bytes.clear();
        written
    }

    /// Writes all texts and drops them, where they have more than 32,768 bytes.
    ///
    /// # Errors
    /// `Write` where the writer fails. A prefix of the texts is then written, and all are dropped.
    #[inline(always)]
    pub fn write_long<W: Write>(&mut self, writer: &mut W) -> Result<(), ScriptFault>
        ensures ok { OnOk result (WritesFront
            self.old.bytes.items self.new.bytes.items (W.contents writer.old) (W.contents writer.new)) }
        ensures err { OnErr result
            (AppendsPart (W.contents writer.old) (W.contents writer.new) self.old.bytes.items) }
        ensures none { OnErr result (self.new.bytes.items ≡ []) }
        ensures fault { IfErr result (λ e. of_output e ≡ true) }
    {
        if self.bytes.len() > FULL_BYTES {
            self.write_all(writer)
        } else {
            Ok(())
        }
    }
}
