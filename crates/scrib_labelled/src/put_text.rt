//! The module text of a put whose end was not read yet.

ghost use Rattle.std.specs.Prelude.{◌≡◌, ◌≤◌, ◌∷◌, [], IfOk, OnOk, length};
ghost use Rattle.scrib_report.specs.PutBack.{bytes_of};
ghost use Rattle.scrib_labelled.specs.TextProgress.{HoldsMore, HoldsText, tag_in};

use scrib_core::format::Format;
use scrib_script_reader::kept_bytes::{KEPT_TEXT_BYTES, append_up_to};
use std::alloc::{AllocError, Global};

/// A module text so far, as far as it is kept, with its put's line, and the number, the format
/// and the tag of that.
#[derive(Drop)]
pub(crate) struct PutText {
    pub(crate) line: u64,
    /// The line of the put, without its end.
    pub(crate) head: Vec<u8>,
    pub(crate) bytes: Vec<u8>,
    pub(crate) format: Format,
    pub(crate) tag: Option<Vec<u8>>,
}

impl PutText {
    /// Returns the text before its first line.
    ///
    /// # Errors
    /// `AllocError` where memory for the put's line or its tag is refused.
    pub(crate) fn new(
        alloc: Global,
        line: u64,
        head: &[u8],
        format: Format,
        tag: Option<&[u8]>,
    ) -> Result<PutText, AllocError>
        ensures bytes { IfOk result (λ t. t.bytes.items ≡ []) }
        ensures format { IfOk result (λ t. t.format ≡ format) }
        ensures tag { IfOk result (λ t. tag_in t ≡ bytes_of tag.entry) }
        ensures line { IfOk result (λ t. t.line ≡ line) }
        ensures head { IfOk result (λ t. t.head.items ≡ head.now) }
    {
        let head = Vec::from_slice(alloc, head)?;
        let tag = match tag {
            Some(tag) => Some(Vec::from_slice(alloc, tag)?),
            None => None,
        };
        Ok(PutText {
            line,
            head,
            bytes: Vec::new(alloc),
            format,
            tag,
        })
    }

    /// Appends a line of the text, given without its LF, and an LF.
    ///
    /// # Errors
    /// `AllocError` where memory is refused.
    pub(crate) fn add_line(&mut self, line: &[u8]) -> Result<(), AllocError>
        ensures { OnOk result (HoldsMore self.old self.new line.now) }
    {
        append_up_to(&mut self.bytes, line, KEPT_TEXT_BYTES)?;
        append_up_to(&mut self.bytes, b"\n", KEPT_TEXT_BYTES)?;
        Ok(())
    }

    /// Returns the tag of the put.
    pub(crate) fn tag(&self) -> Option<&[u8]>
        ensures { bytes_of result ≡ tag_in self.now }
    {
        match &self.tag {
            Some(tag) => Some(tag.as_slice()),
            None => None,
        }
    }
}
