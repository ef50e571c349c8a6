//! Reads a script from pieces of any size: its entries, one by one, or its items.

ghost use Rattle.std.specs.Prelude.{◌≤◌, ◌<◌, ◌+◌, ◌^◌};

use crate::entry::Entry;
use crate::fault::SpellFault;
use crate::item::Item;
use crate::kept_bytes::{KEPT_TEXT_BYTES, KeptText, append_up_to, next_lf, without_cr};
use crate::limits::Limits;
use crate::reader::Reader;
use crate::short_line::ShortLine;
use crate::spelling::{entry_of, is_text_end, last_entry_of, put_of, text_line_entry};
use std::alloc::{AllocError, Global};

// The bytes that are kept of a line outside module texts: its limit, one byte to see that it is longer, and a CR.
const KEPT_LINE_BYTES: usize = 131_074;

/// The state of reading a script.
///
/// It keeps the line and the module text in which the bytes so far end, up to one byte past what they may have.
#[derive(Drop)]
pub struct Script {
    alloc: Global,
    reader: Reader,
    limits: Limits,
    // The module text so far, or none outside module texts.
    text: Option<KeptText>,
    // The line so far.
    line: Vec<u8>,
    // The number of lines that have ended.
    lines: u64,
    // The number of bytes that were consumed.
    bytes: u64,
    ghost few: { limits.lines + 1 < 2 ^ 64 },
    ghost numbered: { lines ≤ limits.lines },
    ghost counted: { bytes ≤ limits.bytes },
}

impl Script {
    ghost use Rattle.std.specs.Prelude.{◌≡◌, ◌<◌, ◌+◌, ◌^◌, ◌⊎◌, ◌∷◌, ◌++◌, [], ℕ, List, Option, None, MatchOption, IfOk, IfErr, IfSome, OnOk, OnErr, length, option_map};
    ghost use Rattle.scrib_script_reader.specs.Scripts.{NoLf, item_list};
    ghost use Rattle.scrib_script_reader.specs.Entries.{entry_list};
    ghost use Rattle.scrib_script_reader.specs.Limits.{of_scripts};
    ghost use Rattle.scrib_script_reader.specs.Positions.{as_text, Holds, TakesEntries, TakesFront, TakesFrontEntries, IsOneLine, IsPastWith, PassesLimits, EndGives, EndSpells, LineEnded};
    ghost use Rattle.scrib_script_reader.specs.ShortLines.{short_entry, short_items};
    ghost use Rattle.scrib_script_reader.specs.declared.fault.SpellFault.TheVariants as fault;

    /// Returns the state before the first byte of a script of at most 16,777,216 lines and 1,099,511,627,776 bytes.
    pub fn new(alloc: Global) -> Script
        ensures holds { Holds result None [] }
        ensures lines { result.lines ≡ 0 }
        ensures bytes { result.bytes ≡ 0 }
        ensures limits { result.limits ≡ of_scripts }
    {
        Script::with_limits(alloc, Limits::of_scripts())
    }

    /// Returns the state before the first byte of a script of these limits.
    pub fn with_limits(alloc: Global, limits: Limits) -> Script
        requires { limits.lines + 1 < 2 ^ 64 }
        ensures holds { Holds result None [] }
        ensures lines { result.lines ≡ 0 }
        ensures bytes { result.bytes ≡ 0 }
        ensures limits { result.limits ≡ limits }
    {
        Script {
            alloc,
            reader: Reader::new(alloc),
            limits,
            text: None,
            line: Vec::new(alloc),
            lines: 0,
            bytes: 0,
        }
    }

    /// Returns how many lines have ended so far: fewer than 18,446,744,073,709,551,615.
    pub fn lines(&self) -> u64
        ensures is { result ≡ self.now.lines }
        ensures few { result + 1 < 2 ^ 64 }
    {
        self.lines
    }

    /// Consumes the next bytes of the script, up to the end of the first line that ends an item.
    ///
    /// Consumes all bytes where no line ends an item. Returns that item, if any, and the bytes that are left.
    ///
    /// # Errors
    /// The script must not be read further after an error.
    /// - `TooLong` in the line of the first byte past the limits, before that line ends an item. The limits are
    ///   16,777,216 lines and 1,099,511,627,776 bytes unless `with_limits` set others.
    /// - `OutOfMemory` where memory for a line, a text or a step is refused.
    pub fn next_item<'a>(&mut self, piece: &'a [u8]) -> Result<(Option<Item>, &'a [u8]), SpellFault>
        ensures taken { IfOk result (λ r. TakesFront self.old self.new piece.now r.1.now (item_list r.0)) }
        ensures shorter { IfOk result (λ r. 0 < length piece.now → length r.1.now < length piece.now) }
        ensures limit { IfErr result (λ e. e ≡ fault.TooLong → PassesLimits self.old piece.now) }
    {
        let mut rest = piece;
        while !rest.is_empty() {
            let (entry, after) = self.next_entry(rest)?;
            rest = after;
            let item = Entry::into_item(entry);
            if item.is_some() {
                return Ok((item, rest));
            }
        }
        Ok((None, rest))
    }

    /// Consumes the next bytes of the script, up to the end of the first line.
    ///
    /// Consumes all bytes where no line ends. Returns the entry of that line, if it has one, and the bytes that are left.
    /// Lines of a module text have none; the line that ends it has.
    ///
    /// # Errors
    /// The script must not be read further after an error.
    /// - `TooLong` where the line has the first byte past the limits.
    /// - `OutOfMemory` where memory for a line, a text or a step is refused.
    pub fn next_entry<'a>(
        &mut self,
        piece: &'a [u8],
    ) -> Result<(Option<Entry>, &'a [u8]), SpellFault>
        ensures taken { IfOk result (λ r. TakesFrontEntries self.old self.new piece.now r.1.now (entry_list r.0)) }
        ensures shorter { IfOk result (λ r. 0 < length piece.now → length r.1.now < length piece.now) }
        ensures limit { IfErr result (λ e. e ≡ fault.TooLong → PassesLimits self.old piece.now) }
    {
        let Some(at) = next_lf(piece) else {
            self.take_part(piece)?;
            return Ok((None, &[]));
        };
        let entry = self.take_line(&piece[..at])?;
        Ok((entry, &piece[at + 1..]))
    }

    /// Consumes the next line, where the piece has all of it and it is read without an `Item`.
    ///
    /// These are comments, and exchanges, joins, openings and asks that are spelled with single blanks. Bad lines are
    /// among them where they are too long or begin as no line does. Returns the line, and the bytes that are left.
    /// Returns none, and consumes nothing, at any other line, past the limits and where memory is refused: `next_item`
    /// reads these.
    #[inline(always)]
    pub fn next_short<'a>(&mut self, piece: &'a [u8]) -> Option<(ShortLine, &'a [u8])>
        ensures taken { MatchOption result (TakesFront self.old self.new piece.now piece.now [])
            (λ r. TakesFront self.old self.new piece.now r.1.now (short_items r.0)) }
        ensures entry { MatchOption result (TakesFrontEntries self.old self.new piece.now piece.now [])
            (λ r. TakesFrontEntries self.old self.new piece.now r.1.now (short_entry r.0 ∷ [])) }
        ensures shorter { IfSome result (λ r. length r.1.now < length piece.now) }
    {
        if self.text.is_some() || !self.line.is_empty() {
            return None;
        }
        let at = next_lf(piece)?;
        let Ok(bytes) = self.counted(at + 1) else {
            return None;
        };
        let line = without_cr(&piece[..at]);
        let short = self.reader.short_line(line, self.lines + 1)?;
        self.bytes = bytes;
        self.lines += 1;
        Some((short, &piece[at + 1..]))
    }

    /// Returns the item of the last line, which no LF ended, or `EndOfText` inside a module text.
    ///
    /// The whole script must have been consumed.
    ///
    /// # Errors
    /// `OutOfMemory` where memory for the step is refused.
    pub fn last_item(&mut self) -> Result<Option<Item>, SpellFault>
        ensures ends { IfOk result (λ item. EndSpells self.old (item_list item)) }
        ensures limit { IfErr result (λ e. e ≡ fault.OutOfMemory) }
    {
        let entry = self.last_entry()?;
        Ok(Entry::into_item(entry))
    }

    /// Returns the entry of the last line, which no LF ended, or that of `EndOfText` inside a module text.
    ///
    /// The whole script must have been consumed.
    ///
    /// # Errors
    /// `OutOfMemory` where memory for the step is refused.
    pub fn last_entry(&mut self) -> Result<Option<Entry>, SpellFault>
        ensures ends { IfOk result (λ entry. EndGives self.old (entry_list entry)) }
        ensures limit { IfErr result (λ e. e ≡ fault.OutOfMemory) }
    {
        let Some(text) = self.text.take() else {
            if self.line.is_empty() {
                return Ok(None);
            }
            let line = self.reader.line(self.line.as_slice())?;
            return Ok(Some(last_entry_of(line, self.lines + 1)));
        };
        if is_text_end(self.line.as_slice()) {
            return Ok(Some(Entry::Item(put_of(text))));
        }
        Ok(Some(Entry::Item(Item::EndOfText)))
    }

    // Consumes the last bytes of a line and its LF. Returns the entry that the line gives.
    fn take_line(&mut self, part: &[u8]) -> Result<Option<Entry>, SpellFault>
        requires { NoLf part.now }
        ensures taken { IfOk result
            (λ entry. TakesEntries self.old self.new (part.now ++ 10 ∷ []) (entry_list entry)) }
        ensures limit { IfErr result (λ e. e ≡ fault.TooLong → IsPastWith self.old (part.now ++ 10 ∷ [])) }
    {
        if self.text.is_none() && self.line.is_empty() {
            return self.pass_line(part);
        }
        self.take_part(part)?;
        self.end_line()
    }

    // Consumes a line that is whole in its piece, without copying it. Returns the entry that the line gives.
    fn pass_line(&mut self, line: &[u8]) -> Result<Option<Entry>, SpellFault>
        requires text { self.old.text ≡ None }
        requires line { self.old.line.items ≡ [] }
        requires no_lf { NoLf line.now }
        ensures taken { IfOk result
            (λ entry. TakesEntries self.old self.new (line.now ++ 10 ∷ []) (entry_list entry)) }
        ensures limit { IfErr result (λ e. e ≡ fault.TooLong → IsPastWith self.old (line.now ++ 10 ∷ [])) }
    {
        self.bytes = self.counted(line.len() + 1)?;
        let meaning = self.reader.line(without_cr(line))?;
        let (entry, text) = entry_of(meaning, self.lines + 1, self.alloc);
        self.text = text;
        self.lines += 1;
        Ok(entry)
    }

    // Consumes bytes of a line, without its LF.
    fn take_part(&mut self, part: &[u8]) -> Result<(), SpellFault>
        requires { NoLf part.now }
        ensures taken { OnOk result (TakesEntries self.old self.new part.now []) }
        ensures limit { IfErr result (λ e. e ≡ fault.TooLong → IsOneLine part.now × IsPastWith self.old part.now) }
    {
        if part.is_empty() {
            return Ok(());
        }
        self.bytes = self.counted(part.len())?;
        let capacity = if self.text.is_some() {
            KEPT_TEXT_BYTES
        } else {
            KEPT_LINE_BYTES
        };
        append_up_to(&mut self.line, part, capacity)?;
        Ok(())
    }

    // Consumes an LF. Returns the entry that the line before it gives.
    fn end_line(&mut self) -> Result<Option<Entry>, SpellFault>
        ensures taken { IfOk result (λ entry. TakesEntries self.old self.new (10 ∷ []) (entry_list entry)) }
        ensures limit { IfErr result (λ e. e ≡ fault.TooLong → IsPastWith self.old (10 ∷ [])) }
    {
        let bytes = self.counted(1)?;
        let (entry, text) = self.ended_line()?;
        self.bytes = bytes;
        self.text = text;
        self.lines += 1;
        self.line.clear();
        Ok(entry)
    }

    // The entry that the ended line gives, and the module text that continues after it, if one does.
    fn ended_line(&mut self) -> Result<(Option<Entry>, Option<KeptText>), AllocError>
        requires { self.old.lines < self.old.limits.lines }
        ensures ended { IfOk result (λ r. LineEnded self.old (option_map as_text r.1) (entry_list r.0)) }
        ensures lines { OnOk result (self.new.lines ≡ self.old.lines) }
        ensures bytes { OnOk result (self.new.bytes ≡ self.old.bytes) }
        ensures limits { OnOk result (self.new.limits ≡ self.old.limits) }
    {
        match self.text.take() {
            Some(text) => text_line_entry(text, self.line.as_slice()),
            None => {
                let line = self.reader.line(without_cr(self.line.as_slice()))?;
                Ok(entry_of(line, self.lines + 1, self.alloc))
            }
        }
    }

    // The number of consumed bytes with `more` of one line. Fails where the script would pass its limits.
    fn counted(&self, more: usize) -> Result<u64, SpellFault>
        ensures bytes { IfOk result (λ bytes. bytes ≡ self.now.bytes + more) }
        ensures few_bytes { IfOk result (λ bytes. bytes ≤ self.now.limits.bytes) }
        ensures few_lines { OnOk result (self.now.lines < self.now.limits.lines) }
        ensures limit { OnErr result
            ((self.now.limits.bytes < self.now.bytes + more) ⊎ (self.now.limits.lines ≤ self.now.lines)) }
    {
        if self.lines >= self.limits.lines {
            return Err(SpellFault::TooLong);
        }
        let room = self.limits.bytes - self.bytes;
        if more as u64 > room {
            return Err(SpellFault::TooLong);
        }
        Ok(self.bytes + more as u64)
    }
}
