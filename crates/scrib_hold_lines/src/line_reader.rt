//! Reads the entries of a script, each with its line.

ghost use Rattle.std.specs.Prelude.{◌≡◌, ◌≢◌, ◌∷◌, ◌++◌, ◌<◌, ◌+◌, ◌^◌, [], IfOk, IfSome, IsFalse, OnOk, MatchOption, length};
ghost use Rattle.scrib_script_reader.specs.Scripts.{NoLf, bare, text_end};
ghost use Rattle.scrib_script_reader.specs.Entries.{entry_list};
ghost use Rattle.scrib_script_reader.specs.Positions.{HasRead, TakesEntries, EndGives};
ghost use Rattle.scrib_hold_lines.specs.Lines.{GivesLine};
ghost use Rattle.scrib_hold_lines.specs.Placement.{IsReaderEnded, IsOfLine, HasReadSome, IsReaderAt, IsReaderPlaced, IsLastLine};

use memchr::memchr;
use scrib_script_reader::entry::Entry;
use scrib_script_reader::fault::SpellFault;
use scrib_script_reader::kept_bytes::append_up_to;
use scrib_script_reader::limits::Limits;
use scrib_script_reader::script::Script;
use scrib_types::bytes::same_bytes;
use std::alloc::Global;

// The bytes that are kept of a line: those of the longest line that is not bad, one more, and a CR.
const KEPT_LINE_BYTES: usize = 131_074;

/// Reads the entries of a script, and keeps the line of each.
#[derive(Drop)]
pub struct LineReader {
    script: Script,
    // The line so far, up to `KEPT_LINE_BYTES` bytes of it. Behind an entry, its line with an end.
    line: Vec<u8>,
}

impl LineReader {
    /// Returns a reader before the first byte of a script of these limits.
    pub(crate) fn new(alloc: Global, limits: Limits) -> LineReader
        requires { limits.lines + 1 < 2 ^ 64 }
        ensures read { HasRead limits result.script [] [] }
        ensures placed { IsReaderPlaced result }
    {
        LineReader {
            script: Script::with_limits(alloc, limits),
            line: Vec::new(alloc),
        }
    }

    /// Returns the line of the last entry, with its end.
    pub(crate) fn line(&self) -> &[u8]
        ensures { result.now ≡ self.now.line.items }
    {
        self.line.as_slice()
    }

    /// Forgets the line of the last entry.
    pub(crate) fn start_line(&mut self)
        requires { IsReaderAt self.old.script [] }
        ensures script { self.new.script ≡ self.old.script }
        ensures placed { IsReaderPlaced self.new }
    {
        self.line.clear();
    }

    /// Consumes bytes of a line, without its LF.
    ///
    /// # Errors
    /// - `TooLong` where the line has the first byte past the limits.
    /// - `OutOfMemory` where memory for the line is refused.
    pub(crate) fn take_part(&mut self, part: &[u8]) -> Result<(), SpellFault>
        requires placed { IsReaderPlaced self.old }
        requires no_lf { NoLf part.now }
        ensures taken { OnOk result (TakesEntries self.old.script self.new.script part.now []) }
        ensures placed { OnOk result (IsReaderPlaced self.new) }
    {
        // Only the end of a line gives an entry.
        consume(&mut self.script, part)?;
        append_up_to(&mut self.line, part, KEPT_LINE_BYTES)?;
        Ok(())
    }

    /// Consumes the last bytes of a line, and its LF. Returns the entry that the line gives, if it gives one.
    ///
    /// # Errors
    /// - `TooLong` where the line has the first byte past the limits.
    /// - `OutOfMemory` where memory for the line, a text or a step is refused.
    pub(crate) fn take_end(&mut self, bytes: &[u8]) -> Result<Option<Entry>, SpellFault>
        requires placed { IsReaderPlaced self.old }
        requires ended { IsReaderEnded bytes.now }
        ensures taken { IfOk result
            (λ entry. TakesEntries self.old.script self.new.script bytes.now (entry_list entry)) }
        ensures gives { IfOk result (λ entry. IfSome entry (GivesLine self.new.line.items)) }
        ensures ended { OnOk result (IsReaderEnded self.new.line.items) }
        ensures placed { OnOk result (IsReaderAt self.new.script []) }
    {
        let entry = consume(&mut self.script, bytes)?;
        append_up_to(&mut self.line, without_lf(bytes), KEPT_LINE_BYTES)?;
        self.line.extend_from_slice(b"\n")?;
        Ok(entry)
    }

    /// Returns the entry of the last line, which no LF ended, or that of an end inside a module text.
    ///
    /// The whole script must have been consumed.
    ///
    /// # Errors
    /// `OutOfMemory` where memory for the line or the step is refused.
    pub(crate) fn last_entry(&mut self) -> Result<Option<Entry>, SpellFault>
        requires { IsReaderPlaced self.old }
        ensures ends { IfOk result (λ entry. EndGives self.old.script (entry_list entry)) }
        ensures gives { IfOk result (λ entry. IfSome entry (GivesLine self.new.line.items)) }
        ensures ended { OnOk result (IsReaderEnded self.new.line.items) }
    {
        let entry = self.script.last_entry()?;
        let end = missing_end(self.line.as_slice());
        self.line.extend_from_slice(end)?;
        Ok(entry)
    }
}

/// Returns the bytes up to the first LF and with it, and those behind it.
pub(crate) fn split_line(piece: &[u8]) -> Option<(&[u8], &[u8])>
    ensures ended { MatchOption result (NoLf piece.now) (λ parts. IsReaderEnded parts.0.now) }
    ensures all { IfSome result (λ parts. piece.now ≡ parts.0.now ++ parts.1.now) }
    ensures shorter { IfSome result (λ parts. length parts.1.now < length piece.now) }
{
    let at = memchr(b'\n', piece)?;
    Some(piece.split_at(at + 1))
}

/// Whether the line, with its end, ends a module text.
pub(crate) fn is_text_end(line: &[u8]) -> bool
    requires { IsReaderEnded line.now }
    ensures { IsFalse result → bare line.now ≢ text_end }
{
    same_bytes(line, b"%%\n") || same_bytes(line, b"%%\r\n")
}

// Consumes bytes of one line. Returns the entry that the line gives, if its LF is among them.
fn consume(script: &mut Script, bytes: &[u8]) -> Result<Option<Entry>, SpellFault>
    requires read { HasReadSome script.old }
    requires of_line { IsOfLine bytes.now }
    ensures { IfOk result (λ entry. TakesEntries script.old script.new bytes.now (entry_list entry)) }
{
    let mut rest = bytes;
    while !rest.is_empty() {
        let (entry, after) = script.next_entry(rest)?;
        if entry.is_some() {
            return Ok(entry);
        }
        rest = after;
    }
    Ok(None)
}

// Returns the bytes in front of the LF at their end.
fn without_lf(bytes: &[u8]) -> &[u8]
    requires { IsReaderEnded bytes.now }
    ensures { bytes.now ≡ result.now ++ 10 ∷ [] }
{
    match bytes.split_last() {
        Some((_, front)) => front,
        None => bytes,
    }
}

// Returns the end of a last line that lacks it. A CR at its end is a byte of the line, so a further one goes before the
// LF.
fn missing_end(line: &[u8]) -> &'static [u8]
    requires { NoLf line.now }
    ensures { IsLastLine line.now (line.now ++ result.now) }
{
    let Some((last, _)) = line.split_last() else {
        return b"\n".as_slice();
    };
    if *last == b'\r' {
        b"\r\n".as_slice()
    } else {
        b"\n".as_slice()
    }
}
