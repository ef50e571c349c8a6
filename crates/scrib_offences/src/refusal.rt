//! The reason why a refused event of declared roles may not follow.

ghost use Rattle.std.specs.Prelude.{◌≡◌, List, IsTrue};
ghost use Rattle.scrib_types.specs.declared.event.Event.{Event};
ghost use Rattle.scrib_types.specs.Logs.{subject_of};
ghost use Rattle.scrib_record.specs.Configurations as conf;
ghost use Rattle.scrib_record.specs.Versions.{meaning_of};
ghost use Rattle.scrib_reasons.specs.Reasons.{names_declared, MayNotFollow};
ghost use Rattle.scrib_offences.specs.Refusals.{IsRefusedAfter};
ghost use Rattle.scrib_offences.specs.Participants as participants;

use crate::oldest::oldest;
use crate::participant::Participant;
use scrib_reasons::reason::Reason;
use scrib_record::configuration::Configuration;
use scrib_record::version::Version;
use scrib_types::event::Event;

/// Returns the reason why the event may not follow the events that lead to the configuration. The participant is that of the
/// event's subject. A refused event is no join of a role that has not joined, no send that the subject may make, and no
/// reception of the oldest message. So no test asks for these.
pub fn reason_of(
    version: &Version,
    configuration: &Configuration,
    participant: &Participant,
    event: &Event,
) -> Reason
    requires reached { conf.IsReached (meaning_of version.now) version.now.machines configuration.now }
    requires is_participant { participants.IsParticipant version.now configuration.now (subject_of event.now) participant.now }
    requires declared { IsTrue (names_declared (meaning_of version.now).roles event.now) }
    ensures { (log : List Event) → IsRefusedAfter version.now configuration.now event.now log
        → MayNotFollow (meaning_of version.now) log event.now result }
{
    if let Event::Join { .. } = event {
        return Reason::JoinedTwice;
    }
    if !participant.state.joined {
        return Reason::NotJoined;
    }
    let edges = participant.machine.edges(participant.state.state);
    if edges.is_empty() {
        return Reason::Done;
    }
    let Event::Received { from, message, .. } = event else {
        return Reason::NotAllowed;
    };
    let step = participant
        .state
        .step_receive(participant.machine, from, message);
    if step.is_none() {
        return Reason::NotAllowed;
    }
    match oldest(version, configuration, from, participant.place) {
        None => Reason::NotSent,
        Some(_) => Reason::OtherFirst,
    }
}
