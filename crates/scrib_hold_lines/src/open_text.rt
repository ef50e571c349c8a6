//! The module text inside which a script is.

use crate::line_reader::is_text_end;
use crate::output::put_line;
use scrib_core::format::Format;
use scrib_script_reader::entry::Entry;
use scrib_script_reader::item::Item;
use scrib_script_reader::kept_bytes::KEPT_TEXT_BYTES;
use std::alloc::{AllocError, Global};
use std::marker::Model;

/// The module text inside which a script is: a `put`, and the lines so far. Contracts see the bytes. Past
/// `KEPT_TEXT_BYTES` bytes, further lines are dropped.
#[derive(Drop)]
pub struct OpenText {
    text: Vec<u8>,
}

impl Model for OpenText {
    ghost use Rattle.std.specs.Prelude.{ℕ, List};
    ghost use Rattle.scrib_hold_lines.specs.Lines.{IsOpenText};

    ghost Value = { List ℕ };

    ghost view = { λ x. x.text.items };

    ghost invariant = { λ x. IsOpenText x.text.items };
}

impl OpenText {
    ghost use Rattle.scrib_hold_lines.specs.Lines.{EndsInside};
    ghost use Rattle.scrib_hold_lines.specs.Placement.{IsReaderEnded};

    /// Returns no text.
    pub(crate) fn new(alloc: Global) -> OpenText {
        OpenText {
            text: Vec::new(alloc),
        }
    }

    /// Adds a line, with its end, that gives no entry: the one before the text, or one of the text.
    ///
    /// # Errors
    /// `AllocError` where memory is refused. The line is then missing.
    pub(crate) fn add_line(&mut self, line: &[u8]) -> Result<(), AllocError>
        requires { IsReaderEnded line.now }
    {
        if self.text.is_empty() {
            return self.text.extend_from_slice(put_line(Format::Line));
        }
        let room = KEPT_TEXT_BYTES.saturating_sub(self.text.len());
        if line.len() > room || is_text_end(line) {
            return Ok(());
        }
        self.text.extend_from_slice(line)
    }

    /// Adds the last line of the script, with an end, where the script ends inside the text.
    ///
    /// # Errors
    /// `AllocError` where memory is refused. The line is then missing.
    pub(crate) fn add_last(&mut self, entry: &Entry, line: &[u8]) -> Result<(), AllocError>
        requires { IsReaderEnded line.now }
    {
        match entry {
            Entry::Item(Item::EndOfText) if line.len() > 1 => self.add_line(line),
            _ => Ok(()),
        }
    }

    /// Forgets the text, which ended.
    pub(crate) fn clear(&mut self) {
        self.text.clear();
    }

    /// Returns a `put` and the lines of the text, where the script ends inside it.
    pub(crate) fn unended(&self) -> &[u8]
        ensures { EndsInside result.now }
    {
        if self.text.is_empty() {
            put_line(Format::Line)
        } else {
            self.text.as_slice()
        }
    }
}
