//! Protocols made from elaborated ones.

ghost use Rattle.std.specs.Prelude.{ℕ, List, IfErr};
ghost use Rattle.scrib_tree.specs.declared.tree.ModuleTree.{ModuleTree};
ghost use Rattle.scrib_elaborate.specs.Meaning.{elaborated_meaning};
ghost use Rattle.scrib_elaborate.specs.Sites.{AreSites};
ghost use Rattle.scrib_project.specs.Faults.{Agrees, AgreesWithProjections, IsFaultPlaced};

use crate::fault::ProjectFault;
use crate::project::project;
use crate::projected::ProjectedProtocol;
use scrib_elaborate::elaborated::Elaborated;
use scrib_types::containers::Items;
use scrib_types::profile::Profile;
use scrib_types::protocol::Protocol;
use std::alloc::Global;

/// Returns the protocol, whose type has a projection on each of its roles under the profile. The roles are tried in the
/// order in which they are declared.
///
/// # Errors
/// `Unmergeable` exactly where some role has no projection, with the first such role and the position that `project`
/// returns for it. `OutOfMemory` where memory was refused.
pub fn protocol(
    alloc: Global,
    elaborated: Elaborated,
    profile: Profile,
) -> Result<Protocol, ProjectFault>
    ensures value { Agrees profile (elaborated_meaning elaborated) result }
    ensures place { (modules : List ModuleTree) (home : List (List ℕ)) (name : List ℕ)
        → AreSites modules home name elaborated
        → IfErr result (IsFaultPlaced profile modules home name (elaborated_meaning elaborated).global) }
{
    let projected = protocol_with_projections(alloc, elaborated, profile)?;
    let ProjectedProtocol { protocol, .. } = projected;
    Ok(protocol)
}

/// Returns the protocol with its projections, each of which is computed once.
///
/// # Errors
/// As for `protocol`.
pub fn protocol_with_projections(
    alloc: Global,
    elaborated: Elaborated,
    profile: Profile,
) -> Result<ProjectedProtocol, ProjectFault>
    ensures value { AgreesWithProjections profile (elaborated_meaning elaborated) result }
    ensures place { (modules : List ModuleTree) (home : List (List ℕ)) (name : List ℕ)
        → AreSites modules home name elaborated
        → IfErr result (IsFaultPlaced profile modules home name (elaborated_meaning elaborated).global) }
{
    let mut locals = Vec::with_capacity(alloc, elaborated.roles().len())?;
    for role in elaborated.roles() {
        let local = project(alloc, &elaborated, role, profile)?;
        locals.push(local)?;
    }
    let (roles, global) = elaborated.into_parts();
    Ok(ProjectedProtocol {
        protocol: Protocol::new(roles, global),
        locals: Items::from_vec(locals),
    })
}
