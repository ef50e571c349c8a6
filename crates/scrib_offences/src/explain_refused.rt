//! Finds why the offence of a record is one.

ghost use Rattle.std.specs.Prelude.{◌≡◌, List, IfOk};
ghost use Rattle.scrib_types.specs.declared.event.Event.{Event};
ghost use Rattle.scrib_record.specs.Configurations as conf;
ghost use Rattle.scrib_record.specs.Versions.{meaning_of};
ghost use Rattle.scrib_reasons.specs.declared.reason.Reason.TheVariants.{NotDeclared};
ghost use Rattle.scrib_offences.specs.declared.explained_offence.Situation.TheVariants.{Undeclared};
ghost use Rattle.scrib_offences.specs.ExplainedOffences as spec;
ghost use Rattle.scrib_offences.specs.Refusals as refusals;

use crate::explained_offence::{ExplainedOffence, Situation};
use crate::next_actions::next_of;
use crate::participant::participant_of;
use crate::refusal::reason_of;
use scrib_reasons::reason::Reason;
use scrib_record::configuration::Configuration;
use scrib_record::record::Record;
use scrib_record::version::Version;
use scrib_types::event::Event;
use scrib_types::name::Role;
use std::alloc::{AllocError, Global};

/// Returns the offence of the record with its reason, under the version that the record holds, or `None` exactly where
/// the record's verdict is no offence. It reads the configuration that the record keeps, and of the log the offending
/// event alone.
///
/// # Errors
/// `AllocError` where memory is refused.
pub fn explain_refused(
    alloc: Global,
    record: &Record,
) -> Result<Option<ExplainedOffence>, AllocError>
    ensures { IfOk result (spec.ExplainsRecord «record».now) }
{
    let Some(refused) = record.refused_event() else {
        return Ok(None);
    };
    let event = refused.event.get();
    let (reason, situation) = explain(alloc, refused.version, refused.configuration, event)?;
    Ok(Some(ExplainedOffence {
        place: refused.place,
        event: refused.event.copy()?,
        reason,
        situation,
    }))
}

// Returns the reason why the event may not follow the events that lead to the configuration, and its situation.
fn explain(
    alloc: Global,
    version: &Version,
    configuration: &Configuration,
    event: &Event,
) -> Result<(Reason, Situation), AllocError>
    requires { conf.IsReached (meaning_of version.now) version.now.machines configuration.now }
    ensures { IfOk result (λ found. (log : List Event)
        → refusals.IsRefusedAfter version.now configuration.now event.now log
        → refusals.IsExplanation (meaning_of version.now) log event.now found.0 found.1) }
{
    let subject = event.subject();
    let Some(place) = version.place_of(subject) else {
        return undeclared(subject);
    };
    let other = other_role(event);
    if version.place_of(other).is_none() {
        return undeclared(other);
    }
    let participant = participant_of(version, configuration, place);
    let reason = reason_of(version, configuration, &participant, event);
    let next = next_of(alloc, version, configuration, &participant)?;
    Ok((reason, Situation::Next(next)))
}

// Returns the reason and the situation of an event that names this role, which is not declared.
fn undeclared(role: &Role) -> Result<(Reason, Situation), AllocError>
    ensures { IfOk result (λ found. (found.0 ≡ NotDeclared) × (found.1 ≡ Undeclared role.now)) }
{
    let role = role.copy()?;
    Ok((Reason::NotDeclared, Situation::Undeclared(role)))
}

// Returns the other role of an event than its subject.
fn other_role(event: &Event) -> &Role
    ensures { result.now ≡ spec.other_role event.now }
{
    match event {
        Event::Join { role } => role,
        Event::Sent { to, .. } => to,
        Event::Received { from, .. } => from,
    }
}
