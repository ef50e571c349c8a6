//! The participants of roles in a configuration.

ghost use Rattle.std.specs.Prelude.{◌≡◌, ℕ, List, Some};
ghost use Rattle.scrib_record.specs.Configurations as conf;
ghost use Rattle.scrib_record.specs.Places.{place_in};
ghost use Rattle.scrib_record.specs.Versions.{meaning_of};
ghost use Rattle.scrib_offences.specs.Participants as spec;

use scrib_machine::machine::Machine;
use scrib_record::configuration::Configuration;
use scrib_record::role_state::RoleState;
use scrib_record::version::Version;

/// A role in a configuration: its place among the roles, its state, and its machine.
#[derive(Clone, Copy)]
pub struct Participant<'a> {
    pub place: usize,
    pub state: RoleState,
    pub machine: &'a Machine,
}

/// Returns the participant of the role that has this place.
pub fn participant_of<'a>(
    version: &'a Version,
    configuration: &Configuration,
    place: usize,
) -> Participant<'a>
    requires reached { conf.IsReached (meaning_of version.now) version.now.machines configuration.now }
    requires declared { (role : List ℕ) × place_in (meaning_of version.now).roles role ≡ Some place }
    ensures { (role : List ℕ) → place_in (meaning_of version.now).roles role ≡ Some place
        → spec.IsParticipant version.now configuration.now role result }
{
    Participant {
        place,
        state: configuration.role_states[place],
        machine: &version.machines()[place],
    }
}
