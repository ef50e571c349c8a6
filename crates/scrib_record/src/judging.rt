//! The judgement of a log under a version, event by event.

ghost use Rattle.std.specs.Prelude.{◌≡◌, ◌+◌, ◌<◌, ◌≤◌, ◌∷◌, ◌++◌, ◌≢◌, ◌&&◌, ◌↔◌, not, true, List, Some, None, IfOk, IsTrue, OnErr, OnOk, if◌then◌else◌, length};
ghost use Rattle.std.specs.Option.{option_copied};
ghost use Rattle.scrib_types.specs.declared.event.Event.{Event};
ghost use Rattle.scrib_types.specs.declared.event.Told.TheVariants.{Stale, Judged};
ghost use Rattle.scrib_types.specs.declared.event.Verdict.TheVariants.{Permitted};
ghost use Rattle.scrib_record.specs.Comparisons.{ServesFor};
ghost use Rattle.scrib_record.specs.CompleteRecords.{IsCompleteWith};
ghost use Rattle.scrib_record.specs.Configurations as conf;
ghost use Rattle.scrib_record.specs.declared.record.TheConstants.{MAX_EVENTS};
ghost use Rattle.scrib_record.specs.Judgings as kept;
ghost use Rattle.scrib_record.specs.Stale as stale;
ghost use Rattle.scrib_record.specs.Versions.{meaning_of};

use crate::choices::choices;
use crate::comparison::Comparison;
use crate::configuration::Configuration;
use crate::copies::copy_verdict;
use crate::numbering::Numbering;
use crate::version::Version;
use scrib_types::allowed::Allowed;
use scrib_types::event::{Told, Verdict};
use scrib_types::shared_event::SharedEvent;
use std::alloc::{AllocError, Global};

/// The largest number of events that a turn judges.
pub const TURN: usize = 256;

/// The progress of judging a log. `held` is the version under which it is judged, or none if it was judged withdrawn.
/// `judged` is the number of judged events, and `verdict` the verdict on them. `reached` events lead to
/// `configuration`. A turn that runs out of memory judges no event, but keeps the events that it performed.
#[derive(Drop)]
pub struct Judging {
    pub held: Option<Version>,
    pub judged: usize,
    pub reached: usize,
    pub configuration: Configuration,
    pub verdict: Verdict,
}

/// The reason for which a run of events ended.
#[derive(Clone, Copy, Debug, PartialEq, Eq)]
pub enum Halt {
    /// No event is left.
    AtEnd,
    /// The next event may not follow.
    Refused,
    /// Memory was refused.
    NoMemory,
}

impl Judging {
    /// Returns the judgement of no event under the numbering's version.
    ///
    /// # Errors
    /// `AllocError` where memory was refused.
    pub fn start(alloc: Global, numbering: Numbering) -> Result<Judging, AllocError>
        ensures kept { IfOk result (λ new. (log : List Event) → kept.IsKept log new) }
        ensures held { IfOk result (λ new. new.held ≡ Some numbering.version) }
        ensures judged { IfOk result (λ new. new.judged ≡ 0) }
        ensures verdict { IfOk result (λ new. new.verdict ≡ Permitted) }
    {
        let held = Some(numbering.version().share()?);
        let configuration = Configuration::start(alloc, numbering)?;
        Ok(Judging {
            held,
            judged: 0,
            reached: 0,
            configuration,
            verdict: Verdict::Permitted,
        })
    }

    // Returns the judgement of so many events where no version is present.
    fn withdrawn(alloc: Global, events: usize) -> Judging
        ensures kept { (log : List Event) → events ≤ length log → kept.IsKept log result }
        ensures held { result.held ≡ None }
        ensures judged { result.judged ≡ events }
    {
        Judging {
            held: None,
            judged: events,
            reached: events,
            configuration: Configuration::none(alloc),
            verdict: Verdict::Withdrawn,
        }
    }

    /// Returns whether the verdict is stale for a log of so many events. It allocates nothing.
    pub fn is_stale(&self, present: Option<&Version>, comparison: Comparison, events: usize) -> bool
        requires { ServesFor comparison (option_copied present) self.now.held }
        ensures { result ≡ not (stale.is_present (option_copied present.entry) self.now.held
            && stale.is_final self.now.verdict self.now.judged events) }
    {
        !(is_present(present, &self.held, comparison)
            && is_final(&self.verdict, self.judged, events))
    }

    /// Returns the verdict on a log of so many events, or `Stale`.
    ///
    /// # Errors
    /// `AllocError` where memory was refused.
    pub fn current_verdict(
        &self,
        present: Option<&Version>,
        comparison: Comparison,
        events: usize,
    ) -> Result<Told, AllocError>
        requires { ServesFor comparison (option_copied present) self.now.held }
        ensures { IfOk result (λ answer. answer
            ≡ (if stale.is_present (option_copied present.entry) self.now.held
            && stale.is_final self.now.verdict self.now.judged events then Judged self.now.verdict else Stale)) }
    {
        if self.is_stale(present, comparison, events) {
            return Ok(Told::Stale);
        }
        let verdict = copy_verdict(&self.verdict)?;
        Ok(Told::Judged(verdict))
    }

    /// Returns whether all of the log is judged and permitted, and the log is complete. It allocates nothing.
    #[inline(always)]
    pub fn is_complete(&self, log: &[SharedEvent]) -> bool
        requires { kept.IsKept log.now self.now }
        ensures { IsTrue result ↔ IsCompleteWith self.now.held log.now self.now.verdict self.now.judged }
    {
        let Some(version) = &self.held else {
            return false;
        };
        if self.judged != log.len() {
            return false;
        }
        match &self.verdict {
            Verdict::Permitted => self.configuration.is_complete(version),
            _ => false,
        }
    }

    /// Judges the next event, where all of the log is judged. The cost does not depend on the log's length.
    ///
    /// # Errors
    /// `AllocError` where memory was refused. The judgement is unchanged then.
    pub fn note(&mut self, log: &[SharedEvent], event: &SharedEvent) -> Result<Told, AllocError>
        requires kept { kept.IsKept log.now self.old }
        requires whole { stale.is_final self.old.verdict self.old.judged (length log.now) ≡ true }
        requires room { length log.now < MAX_EVENTS }
        ensures ok { IfOk result (kept.IsJudgedOn log.now event.now self.old self.new) }
        ensures kept { OnErr result (kept.IsKept log.now self.new) }
        ensures same { OnErr result (kept.IsSameJudging self.old self.new) }
    {
        let (Some(version), Verdict::Permitted) = (&self.held, &self.verdict) else {
            let verdict = copy_verdict(&self.verdict)?;
            return Ok(Told::Judged(verdict));
        };
        if self.configuration.advance(version, event)? {
            self.judged = log.len() + 1;
            self.reached = log.len() + 1;
            return Ok(Told::Judged(Verdict::Permitted));
        }
        let verdict = offence(&self.configuration, version, log.len() + 1, event)?;
        let copied = copy_verdict(&verdict)?;
        self.judged = log.len() + 1;
        self.reached = log.len() + 1;
        self.verdict = verdict;
        Ok(Told::Judged(copied))
    }

    /// Performs a turn. Without a present version it judges the log withdrawn. Otherwise it judges at most 256 more
    /// events, from event 1 if another version is held. `known` may be any numbering: that of another conversation, which
    /// is shared if it is of the present version.
    ///
    /// # Errors
    /// `AllocError` where memory was refused. The judgement is unchanged then.
    pub fn turn(
        &mut self,
        present: Option<&Version>,
        comparison: Comparison,
        log: &[SharedEvent],
        known: Option<Numbering>,
    ) -> Result<Told, AllocError>
        requires serves { ServesFor comparison (option_copied present) self.old.held }
        requires kept { kept.IsKept log.now self.old }
        requires stale { (stale.is_present (option_copied present) self.old.held
            && stale.is_final self.old.verdict self.old.judged (length log.now)) ≢ true }
        requires room { length log.now ≤ MAX_EVENTS }
        ensures ok { IfOk result (kept.IsTurnedTo (option_copied present.entry) log.now self.old self.new) }
        ensures kept { OnErr result (kept.IsKept log.now self.new) }
        ensures same { OnErr result (kept.IsSameJudging self.old self.new) }
    {
        let alloc = *self.configuration.role_states.allocator();
        let Some(version) = present else {
            *self = Judging::withdrawn(alloc, log.len());
            return Ok(Told::Judged(Verdict::Withdrawn));
        };
        if is_present(present, &self.held, comparison) {
            return self.judge_more(log);
        }
        let numbering = Numbering::of(alloc, version, known)?;
        let mut anew = Judging::start(alloc, numbering)?;
        let answer = anew.judge_more(log)?;
        *self = anew;
        Ok(answer)
    }

    // Judges at most 256 more events of the log, up to an offence.
    fn judge_more(&mut self, log: &[SharedEvent]) -> Result<Told, AllocError>
        requires kept { kept.IsKept log.now self.old }
        requires open { self.old.verdict ≡ Permitted }
        requires room { length log.now ≤ MAX_EVENTS }
        ensures ok { IfOk result (kept.IsFurther log.now self.old self.new) }
        ensures kept { OnErr result (kept.IsKept log.now self.new) }
        ensures same { OnErr result (kept.IsSameJudging self.old self.new) }
    {
        let Some(version) = &self.held else {
            return Ok(Told::Stale);
        };
        let end = log.len().min(self.judged + TURN);
        let (passed, halt) = perform(&mut self.configuration, version, &log[self.reached..end]);
        self.reached += passed;
        match halt {
            Halt::AtEnd => {
                self.judged = end;
                Ok(verdict_of(end == log.len()))
            }
            Halt::Refused => {
                let place = self.reached + 1;
                let verdict = offence(&self.configuration, version, place, &log[self.reached])?;
                let copied = copy_verdict(&verdict)?;
                self.judged = place;
                self.reached = place;
                self.verdict = verdict;
                Ok(Told::Judged(copied))
            }
            Halt::NoMemory => Err(AllocError),
        }
    }
}

// Returns the verdict on permitted events: `all` is whether they are the whole log.
fn verdict_of(all: bool) -> Told
    ensures { result ≡ (if all then Judged Permitted else Stale) }
{
    if all {
        Told::Judged(Verdict::Permitted)
    } else {
        Told::Stale
    }
}

// Returns whether the held version is the present one, or there is neither.
fn is_present(present: Option<&Version>, held: &Option<Version>, comparison: Comparison) -> bool
    requires { ServesFor comparison (option_copied present) held.now }
    ensures { result ≡ stale.is_present (option_copied present.entry) held.now }
{
    match (present, held) {
        (Some(version), Some(held)) => match comparison {
            Comparison::Whole => version.same_stamp(held),
            Comparison::Numbers => version.number() == held.number(),
        },
        (None, None) => true,
        _ => false,
    }
}

// Returns whether the verdict on `judged` events is that on a log of `events` events.
fn is_final(verdict: &Verdict, judged: usize, events: usize) -> bool
    ensures { result ≡ stale.is_final verdict.now judged events }
{
    match verdict {
        Verdict::Permitted => events <= judged,
        _ => true,
    }
}

/// Performs the events in order, up to the first that may not follow. Returns how many it performed, and why it ended.
pub fn perform(
    configuration: &mut Configuration,
    version: &Version,
    events: &[SharedEvent],
) -> (usize, Halt)
    requires { conf.IsReached (meaning_of version.now) version.now.machines configuration.old }
    ensures { kept.RunsFrom version.now events.now configuration.old configuration.new result.0 result.1 }
{
    for (i, event) in events.iter().enumerate() {
        match configuration.advance(version, event) {
            Ok(true) => {}
            Ok(false) => return (i, Halt::Refused),
            Err(_) => return (i, Halt::NoMemory),
        }
    }
    (events.len(), Halt::AtEnd)
}

/// Returns the verdict at this place of a log that leads to the configuration, where the event may not follow.
///
/// # Errors
/// `AllocError` where memory was refused.
pub fn offence(
    configuration: &Configuration,
    version: &Version,
    place: usize,
    event: &SharedEvent,
) -> Result<Verdict, AllocError>
    requires { conf.IsReached (meaning_of version.now) version.now.machines configuration.now }
    ensures { IfOk result (kept.IsRefusal version.now configuration.now place event.now) }
{
    let role = event.get().subject().copy()?;
    let alloc = *configuration.role_states.allocator();
    let list = choices(configuration, version, &role)?;
    let allowed = Allowed::new(alloc, list)?;
    Ok(Verdict::Offence {
        place,
        role,
        allowed,
    })
}
