//! Parses the lines of a script one after another, with caches of events and names.

ghost use Rattle.std.specs.Prelude.{ℕ, IfOk, IfSome};
ghost use Rattle.scrib_core.specs.declared.format.Format.TheVariants as format;
ghost use Rattle.scrib_core.specs.declared.step.Step.TheVariants.{Note, Open};
ghost use Rattle.scrib_script_reader.specs.Says.{Says};
ghost use Rattle.scrib_script_reader.specs.Heads.{SpellsEvent};
ghost use Rattle.scrib_script_reader.specs.PlainLines.{IsShort};
ghost use Rattle.scrib_script_reader.specs.declared.line.Line.TheVariants as line;

use crate::event_cache::ExchangeEvents;
use crate::head::{NamedWord, WordHead, head_of, named_head_of};
use crate::line::{Line, line_of};
use crate::plain_line::plain_line_of;
use crate::short_line::ShortLine;
use crate::text_cache::TextCache;
use scrib_core::format::Format;
use scrib_core::step::Step;
use scrib_types::name::Dotted;
use scrib_types::shared_event::SharedEvent;
use std::alloc::{AllocError, Global};

/// Parses the lines of a script. What is after a line's id is parsed once and found again by its text: the events of an
/// exchange, the join of a role, and the name of a protocol.
#[derive(Drop)]
pub struct Reader {
    alloc: Global,
    exchanges: TextCache<ExchangeEvents>,
    joins: TextCache<SharedEvent>,
    names: TextCache<Dotted>,
}

impl Reader {
    /// Returns a reader with empty caches.
    pub fn new(alloc: Global) -> Reader {
        Reader {
            alloc,
            exchanges: TextCache::new(alloc),
            joins: TextCache::new(alloc),
            names: TextCache::new(alloc),
        }
    }

    /// Returns the meaning of a line, given without its end.
    ///
    /// # Errors
    /// `AllocError` where memory for the fields or for the step is refused.
    #[inline(always)]
    pub fn line(&mut self, bytes: &[u8]) -> Result<Line, AllocError>
        ensures { IfOk result (Says bytes.now) }
    {
        match self.exchange(bytes)? {
            Some((id, event)) => Ok(Line::Step(Format::Line, Step::Note { id, event })),
            None => self.other_line(bytes),
        }
    }

    /// Returns the id and the event of a line, given without its end, that is spelled as an exchange with single blanks
    /// around its id. None of other lines, some of which are exchanges.
    ///
    /// # Errors
    /// `AllocError` where memory for the event is refused.
    #[inline(always)]
    pub fn exchange(&mut self, bytes: &[u8]) -> Result<Option<(u32, SharedEvent)>, AllocError>
        ensures { IfOk result (λ found. IfSome found
            (λ note. Says bytes.now (line.Step format.Line (Note note.0 note.1)))) }
    {
        let Some(head) = head_of(bytes) else {
            return Ok(None);
        };
        let Some(event) = self.exchanges.event(head.direction, head.text)? else {
            return Ok(None);
        };
        Ok(Some((head.id, event)))
    }

    /// Returns the same of a line that is spelled as an exchange or as a join with single blanks around its id.
    ///
    /// # Errors
    /// `AllocError` where memory for the event is refused.
    #[inline(always)]
    pub fn note(&mut self, bytes: &[u8]) -> Result<Option<(u32, SharedEvent)>, AllocError>
        ensures { IfOk result (λ found. IfSome found
            (λ note. Says bytes.now (line.Step format.Line (Note note.0 note.1)))) }
    {
        match self.exchange(bytes)? {
            Some(note) => Ok(Some(note)),
            None => self.join(bytes),
        }
    }

    /// Returns the event of an exchange that begins so: the same for each word in the place of an id. None where the text
    /// after the word spells no exchange.
    ///
    /// # Errors
    /// `AllocError` where memory for the event is refused.
    #[inline(always)]
    pub fn word_exchange(&mut self, head: WordHead<'_>) -> Result<Option<SharedEvent>, AllocError>
        ensures { IfOk result (λ found. IfSome found (SpellsEvent head.entry.text.now head.entry.direction)) }
    {
        self.exchanges.event(head.direction, head.text)
    }

    // The line of this number, given without its end, where it is read without an `Item`. None where memory is refused.
    #[inline(always)]
    pub(crate) fn short_line(&mut self, bytes: &[u8], number: u64) -> Option<ShortLine>
        ensures { IfSome result (IsShort bytes.now number) }
    {
        let Ok(found) = self.exchange(bytes) else {
            return None;
        };
        match found {
            Some((id, event)) => Some(ShortLine::Note { id, event }),
            None => self.other_short_line(bytes, number),
        }
    }

    // The same at a line that does not begin as one of an exchange.
    #[inline(always)]
    fn other_short_line(&mut self, bytes: &[u8], number: u64) -> Option<ShortLine>
        ensures { IfSome result (IsShort bytes.now number) }
    {
        match plain_line_of(bytes) {
            Some(plain) => Some(plain.numbered(number)),
            None => self.named_short_line(bytes),
        }
    }

    // The same at a line that names a role or a protocol. Its number does not matter.
    #[inline(never)]
    fn named_short_line(&mut self, bytes: &[u8]) -> Option<ShortLine>
        ensures { (number : ℕ) → IfSome result (IsShort bytes.now number) }
    {
        if let Ok(Some((id, event))) = self.join(bytes) {
            return Some(ShortLine::Note { id, event });
        }
        match self.opening(bytes) {
            Ok(Some((id, name))) => Some(ShortLine::Open { id, name }),
            _ => None,
        }
    }

    // The meaning of a line that does not begin as one of an exchange.
    fn other_line(&mut self, bytes: &[u8]) -> Result<Line, AllocError>
        ensures { IfOk result (Says bytes.now) }
    {
        if let Some((id, name)) = self.opening(bytes)? {
            return Ok(Line::Step(Format::Line, Step::Open { id, name }));
        }
        if let Some((id, event)) = self.join(bytes)? {
            return Ok(Line::Step(Format::Line, Step::Note { id, event }));
        }
        line_of(self.alloc, bytes)
    }

    // The id and the name of a line that is spelled as an opening with single blanks around its id, if it is.
    fn opening(&mut self, bytes: &[u8]) -> Result<Option<(u32, Dotted)>, AllocError>
        ensures { IfOk result (λ found. IfSome found
            (λ opened. Says bytes.now (line.Step format.Line (Open opened.0 opened.1)))) }
    {
        let Some(head) = named_head_of(bytes, NamedWord::Open) else {
            return Ok(None);
        };
        let Some(name) = self.names.name(head.text)? else {
            return Ok(None);
        };
        Ok(Some((head.id, name)))
    }

    // The id and the event of a line that is spelled as a join with single blanks around its id, if it is.
    fn join(&mut self, bytes: &[u8]) -> Result<Option<(u32, SharedEvent)>, AllocError>
        ensures { IfOk result (λ found. IfSome found
            (λ note. Says bytes.now (line.Step format.Line (Note note.0 note.1)))) }
    {
        let Some(head) = named_head_of(bytes, NamedWord::Join) else {
            return Ok(None);
        };
        let Some(event) = self.joins.join(head.text)? else {
            return Ok(None);
        };
        Ok(Some((head.id, event)))
    }
}
