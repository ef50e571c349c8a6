//! Records of conversations.

ghost use Rattle.std.specs.Prelude.{◌≡◌, ◌↔◌, ◌<◌, IfOk, IfErr, IsTrue, OnErr, OnOk, length};
ghost use Rattle.std.specs.Option.{option_copied, option_map};
ghost use Rattle.scrib_record.specs.Comparisons.{ServesFor};
ghost use Rattle.scrib_record.specs.CompleteRecords.{IsCompleteRecord, IsWholeVerdict};
ghost use Rattle.scrib_record.specs.RefusedEvents.{FindsRefused};
ghost use Rattle.scrib_record.specs.Stale.{Recorded, IsLawful};
ghost use Rattle.scrib_record.specs.Turns.{new_record};
ghost use Rattle.scrib_record.specs.Versions.{number_of};
ghost use Rattle.scrib_record.specs.Told.{IsReportedAnswer, IsNoted, IsTurned, NoteFails};

use crate::answer::Answer;
use crate::comparison::Comparison;
use crate::copies::copy_verdict;
use crate::fault::NoteFault;
use crate::judge_whole::judge_whole;
use crate::judging::Judging;
use crate::numbering::Numbering;
use crate::refused_event::RefusedEvent;
use crate::version::Version;
use crate::whole_verdict::WholeVerdict;
use scrib_types::event::{Told, Verdict};
use scrib_types::name::Dotted;
use scrib_types::shared_event::SharedEvent;
use std::alloc::{AllocError, Global};
use std::marker::Model;

/// The largest number of events of a log.
pub const MAX_EVENTS: usize = 1_048_576;

/// A conversation: the full name of its protocol, its log, and the verdict on the judged events. All events are judged
/// until the protocol changes. Contracts refer to these, the version under which the events are judged, and their
/// number.
#[derive(Drop)]
pub struct Record {
    name: Dotted,
    log: Vec<SharedEvent>,
    judging: Judging,
    // Where the version of the protocol was found last. It is only a hint.
    hint: usize,
}

impl Model for Record {
    ghost use Rattle.scrib_record.specs.Judgings.{IsKeptWhole};
    ghost use Rattle.scrib_record.specs.Stale.{Recorded};
    ghost use Rattle.scrib_record.specs.contracts.version.Edition as version;
    ghost use Rattle.std.specs.Coded.{codes};

    ghost Value = { Recorded };

    ghost coded = { Prim.hlevel (codes, version.the_row.coded) };

    ghost view = { λ r. record {
      name = r.name;
      log = r.log.items;
      held = r.judging.held;
      judged = r.judging.judged;
      verdict = r.judging.verdict;
    } };

    ghost invariant = { λ r. IsKeptWhole r.log.items r.judging };
}

impl Record {
    /// Returns the record of an empty log, judged under the version.
    ///
    /// # Errors
    /// `AllocError` where memory was refused.
    pub fn new(alloc: Global, name: Dotted, version: &Version) -> Result<Record, AllocError>
        ensures { IfOk result (λ new. new ≡ new_record name version.now) }
    {
        let numbering = Numbering::new(alloc, version)?;
        Record::with_numbering(alloc, name, numbering)
    }

    /// Returns the record of an empty log, judged under the numbering's version.
    ///
    /// # Errors
    /// `AllocError` where memory was refused.
    pub fn with_numbering(
        alloc: Global,
        name: Dotted,
        numbering: Numbering,
    ) -> Result<Record, AllocError>
        ensures { IfOk result (λ new. new ≡ new_record name numbering.version) }
    {
        let judging = Judging::start(alloc, numbering)?;
        Ok(Record {
            name,
            log: Vec::new(alloc),
            judging,
            hint: 0,
        })
    }

    /// Returns the full name of the protocol.
    pub fn name(&self) -> &Dotted
        ensures { result.now ≡ self.now.name }
    {
        &self.name
    }

    /// Returns the number of the version under which the events are judged, or none if they are judged withdrawn.
    pub fn held_number(&self) -> Option<u32>
        ensures { result ≡ option_map number_of self.now.held }
    {
        match &self.judging.held {
            Some(version) => Some(version.number()),
            None => None,
        }
    }

    /// Returns the hint that was set last, or 0: where the version of the protocol may be found.
    pub fn hint(&self) -> usize {
        self.hint
    }

    /// Sets the hint for the next look-up of the protocol's version.
    pub fn set_hint(&mut self, hint: usize)
        ensures { self.new ≡ self.old }
    {
        self.hint = hint;
    }

    /// Returns the events, oldest first.
    #[inline(always)]
    pub fn log(&self) -> &[SharedEvent]
        ensures log { result.now ≡ self.now.log }
        ensures lawful { IsLawful self.now }
    {
        &self.log
    }

    /// Appends the event. `present` is the present version of the record's protocol, if there is one. A record that is
    /// not stale judges the event, at a cost that does not depend on the log's length. A stale one does not judge it. A
    /// first offence stays the verdict.
    ///
    /// # Errors
    /// `LogFull` where the log has 1,048,576 events, and otherwise `OutOfMemory` where memory was refused. The record
    /// is unchanged then.
    #[inline(always)]
    pub fn note(
        &mut self,
        present: Option<&Version>,
        comparison: Comparison,
        event: SharedEvent,
    ) -> Result<Told, NoteFault>
        requires { ServesFor comparison (option_copied present) self.old.held }
        ensures ok { IfOk result (IsNoted (option_copied present.entry) self.old event self.new) }
        ensures room { OnOk result (length self.old.log < MAX_EVENTS) }
        ensures fault { IfErr result (NoteFails self.old) }
        ensures err { OnErr result (self.new ≡ self.old) }
    {
        let events = self.log.len();
        if events >= MAX_EVENTS {
            return Err(NoteFault::LogFull);
        }
        self.log.reserve(1)?;
        // Appended first, so that the judgement does not wait for the end of a long log to be fetched from memory.
        self.log.push_reserved(event);
        if self.judging.is_stale(present, comparison, events) {
            return Ok(Told::Stale);
        }
        match self.judging.note(&self.log[..events], &self.log[events]) {
            Ok(verdict) => Ok(verdict),
            Err(_) => {
                self.log.pop();
                Err(NoteFault::OutOfMemory)
            }
        }
    }

    /// Judges a stale record again. Without a present version it is judged withdrawn at once. Otherwise at most 256
    /// more events are judged, from event 1 if another version is held. A record that is not stale is unchanged. `known`
    /// may be any numbering: that of another record, which is shared if it is of the present version.
    ///
    /// # Errors
    /// `AllocError` where memory was refused. The record is unchanged then.
    pub fn turn(
        &mut self,
        present: Option<&Version>,
        comparison: Comparison,
        known: Option<Numbering>,
    ) -> Result<Told, AllocError>
        requires { ServesFor comparison (option_copied present) self.old.held }
        ensures ok { IfOk result (IsTurned (option_copied present.entry) self.old self.new) }
        ensures err { OnErr result (self.new ≡ self.old) }
    {
        if !self.judging.is_stale(present, comparison, self.log.len()) {
            return self
                .judging
                .current_verdict(present, comparison, self.log.len());
        }
        self.judging.turn(present, comparison, &self.log, known)
    }

    /// Returns the verdict on the log, or `Stale`. `present` is the present version of the record's protocol, if there
    /// is one. It allocates nothing.
    pub fn ask(&self, present: Option<&Version>, comparison: Comparison) -> Answer<'_>
        requires { ServesFor comparison (option_copied present) self.now.held }
        ensures { IsReportedAnswer (option_copied present.entry) self.now result }
    {
        if self.judging.is_stale(present, comparison, self.log.len()) {
            return Answer::Stale;
        }
        match &self.judging.verdict {
            Verdict::Permitted => Answer::Permitted,
            Verdict::Offence {
                place,
                role,
                allowed,
            } => Answer::Offence {
                place: *place,
                role,
                allowed,
            },
            Verdict::Withdrawn => Answer::Withdrawn,
        }
    }

    /// Returns the event of the offence, where the verdict on the judged events is one. It allocates nothing.
    pub fn refused_event(&self) -> Option<RefusedEvent<'_>>
        ensures { FindsRefused self.now result }
    {
        let Verdict::Offence { place, .. } = &self.judging.verdict else {
            return None;
        };
        let Some(version) = &self.judging.held else {
            return None;
        };
        let event = self.log.get(place.checked_sub(1)?)?;
        Some(RefusedEvent {
            version,
            configuration: &self.judging.configuration,
            place: *place,
            event,
        })
    }

    /// Returns whether the record holds a version, its verdict on the whole log is `Permitted`, and the log is complete
    /// under that version: no role has a further action, and no message is in flight. It allocates nothing.
    #[inline(always)]
    pub fn is_complete(&self) -> bool
        ensures { IsTrue result ↔ IsCompleteRecord self.now }
    {
        self.judging.is_complete(&self.log)
    }

    /// Returns the verdict on the whole log, and whether the log is complete. `present` is the present version of the
    /// record's protocol, if there is one. A stale record is judged for this from event 1, and stays as it is. `known`
    /// may be any numbering: that of another record, which is used if it is of the present version.
    ///
    /// # Errors
    /// `AllocError` where memory was refused.
    pub fn judge_whole(
        &self,
        present: Option<&Version>,
        comparison: Comparison,
        known: Option<Numbering>,
    ) -> Result<WholeVerdict, AllocError>
        requires { ServesFor comparison (option_copied present) self.now.held }
        ensures { IfOk result (IsWholeVerdict (option_copied present.entry) self.now.log) }
    {
        if !self.judging.is_stale(present, comparison, self.log.len()) {
            let verdict = copy_verdict(&self.judging.verdict)?;
            let complete = self.judging.is_complete(&self.log);
            return Ok(WholeVerdict { verdict, complete });
        }
        let Some(version) = present else {
            return Ok(WholeVerdict {
                verdict: Verdict::Withdrawn,
                complete: false,
            });
        };
        let alloc = *self.log.allocator();
        let numbering = Numbering::of(alloc, version, known)?;
        judge_whole(alloc, numbering, &self.log)
    }
}
