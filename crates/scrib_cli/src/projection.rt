//! Projects a protocol of module texts on a role.

ghost use Rattle.std.specs.Prelude.{◌≡◌, ◌≤◌, ℕ, false, List, IfOk, IfErr, MatchOption};
ghost use Rattle.scrib_types.specs.WellFormed.{has_role};
ghost use Rattle.scrib_tree.specs.declared.tree.ModuleTree.{ModuleTree};
ghost use Rattle.scrib_static_checks.specs.Elaboration.{nodes};
ghost use Rattle.scrib_elaborate.specs.Meaning.{elaborated_meaning};
ghost use Rattle.scrib_elaborate.specs.Sites.{AreSites};
ghost use Rattle.scrib_script_io.specs.declared.fault.ScriptFault.TheVariants.{OutOfMemory};
ghost use Rattle.scrib_cli.specs.Projections.{IsProjection};
ghost use Rattle.scrib_cli.specs.ProjectionSteps.{IsRoleProjection, IsRefusalPlaced, IsDeclared, HasMachine, StopsReading};

use crate::full_name::full_name_of;
use crate::modules::add_texts;
use scrib_elaborate::elaborate::elaborate;
use scrib_elaborate::elaborated::Elaborated;
use scrib_library::fault::EditFault;
use scrib_project::fault::ProjectFault;
use scrib_project::project::project;
use scrib_script_io::fault::ScriptFault;
use scrib_static_checks::fault::ElaborateFault;
use scrib_static_checks::modules::Modules;
use scrib_types::containers::Items;
use scrib_types::local::Local;
use scrib_types::name::Role;
use scrib_types::profile::Profile;
use std::alloc::Global;

/// The projection of a protocol on a role, or why it has none.
#[derive(Drop)]
pub enum Projection {
    /// The projection.
    Projects(Local),
    /// The protocol's name isn't two or more names joined by dots.
    NoProtocol,
    /// The protocol declares no such role.
    NoRole,
    /// A text is no module, the protocol has no meaning, or it has no projection on the role.
    Refused(EditFault),
}

/// Returns the projection of the protocol on the role under the profile, or the first refusal.
///
/// `protocol` is a full name, and `texts` are module texts. A text that can't be read is given as `None`.
///
/// # Errors
/// - `Read` where the protocol has a full name and the first text that is no module can't be read.
/// - `OutOfMemory` where memory is refused.
pub fn projection_of(
    alloc: Global,
    profile: Profile,
    protocol: &str,
    role: &str,
    texts: &[Option<Items<u8>>],
) -> Result<Projection, ScriptFault>
    ensures ok { IfOk result (IsProjection profile texts.now protocol.now role.now) }
    ensures machine { IfOk result HasMachine }
    ensures fault { IfErr result (StopsReading texts.now protocol.now) }
{
    let Some(name) = full_name_of(alloc, protocol)? else {
        return Ok(Projection::NoProtocol);
    };
    let mut modules = Modules::new(alloc);
    if let Some(fault) = add_texts(alloc, &mut modules, texts)? {
        return Ok(Projection::Refused(fault));
    }
    match elaborate(alloc, &modules, &name.home, &name.protocol) {
        Ok(elaborated) => projection_on(alloc, profile, &elaborated, role),
        Err(ElaborateFault::Broken(fault)) => Ok(Projection::Refused(EditFault::Elaborate(fault))),
        Err(ElaborateFault::OutOfMemory) => Err(ScriptFault::OutOfMemory),
    }
}

// The projection of the elaborated protocol on the role under the profile.
fn projection_on(
    alloc: Global,
    profile: Profile,
    elaborated: &Elaborated,
    role: &str,
) -> Result<Projection, ScriptFault>
    requires { nodes (elaborated_meaning elaborated.now).global ≤ 65536 }
    ensures ok { IfOk result (IsRoleProjection profile (elaborated_meaning elaborated.now) role.now) }
    ensures place { (modules : List ModuleTree) (home : List (List ℕ)) (name : List ℕ)
        → AreSites modules home name elaborated.now
        → IfOk result (IsRefusalPlaced profile modules home name (elaborated_meaning elaborated.now).global) }
    ensures machine { IfOk result HasMachine }
    ensures fault { IfErr result (λ e. e ≡ OutOfMemory) }
{
    let Some(role) = declared_role(elaborated.roles(), role.as_bytes()) else {
        return Ok(Projection::NoRole);
    };
    match project(alloc, elaborated, role, profile) {
        Ok(local) => Ok(Projection::Projects(local)),
        Err(ProjectFault::Unmergeable(fault)) => Ok(Projection::Refused(EditFault::Project(fault))),
        Err(ProjectFault::OutOfMemory) => Err(ScriptFault::OutOfMemory),
    }
}

// The role of this name, if it is declared.
fn declared_role<'a>(roles: &'a [Role], name: &[u8]) -> Option<&'a Role>
    ensures { MatchOption result
        (has_role name.now roles.now ≡ false)
        (λ role. IsDeclared roles.now name.now role.now) }
{
    for role in roles {
        if role.as_bytes() == name {
            return Some(role);
        }
    }
    None
}
