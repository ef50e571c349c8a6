//! The projection of an elaborated protocol.

ghost use Rattle.std.specs.Prelude.{◌≡◌, ℕ, List, Option, slice_get, IfOk, IfErr, option_map, option_and_then};
ghost use Rattle.std.specs.Option.{option_copied};
ghost use Rattle.scrib_tree.specs.declared.tree.ModuleTree.{ModuleTree};
ghost use Rattle.scrib_elaborate.specs.Meaning.{elaborated_meaning};
ghost use Rattle.scrib_elaborate.specs.Sites.{AreSites};
ghost use Rattle.scrib_projection.specs.Surveys.{capped};
ghost use Rattle.scrib_project.specs.Faults.{Projects, IsOfSite, IsFaultPlaced, IsFaultOf};

use crate::fault::{ProjectFault, Unmergeable};
use scrib_elaborate::elaborated::{ChoiceSite, Elaborated};
use scrib_projection::project_role::project_role;
use scrib_types::local::Local;
use scrib_types::name::{Dotted, Role};
use scrib_types::profile::Profile;
use scrib_types::spot::Spot;
use std::alloc::{AllocError, Global};

/// Returns the projection of the protocol on the role, under the profile.
///
/// # Errors
/// `Unmergeable` exactly where the projection is undefined. Its position is that of the first visited choice, in
/// post-order, whose branches do not merge for the role. `OutOfMemory` where memory was refused.
pub fn project(
    alloc: Global,
    elaborated: &Elaborated,
    role: &Role,
    profile: Profile,
) -> Result<Local, ProjectFault>
    ensures value { Projects profile (elaborated_meaning elaborated.now).global role.now result }
    ensures place { (modules : List ModuleTree) (home : List (List ℕ)) (name : List ℕ)
        → AreSites modules home name elaborated.now
        → IfErr result (IsFaultPlaced profile modules home name (elaborated_meaning elaborated.now).global) }
{
    project_among(alloc, elaborated, elaborated.sites(), role, profile)
}

// Returns the projection on the role, where the communications with several branches come from these sites.
fn project_among(
    alloc: Global,
    elaborated: &Elaborated,
    sites: &[ChoiceSite],
    role: &Role,
    profile: Profile,
) -> Result<Local, ProjectFault>
    ensures value { Projects profile (elaborated_meaning elaborated.now).global role.now result }
    ensures place { IfErr result (IsOfSite profile sites.now (elaborated_meaning elaborated.now).global) }
{
    let outcome = project_role(alloc, elaborated.global(), role, profile)?;
    match outcome.local {
        Some(local) => Ok(local),
        None => {
            let site = site_at(sites, outcome.survey.first);
            let fault = unmergeable(alloc, role, site)?;
            Err(ProjectFault::Unmergeable(fault))
        }
    }
}

// Returns the site with this number. Where no site has it, the number is capped.
fn site_at(sites: &[ChoiceSite], number: Option<usize>) -> Option<&ChoiceSite>
    ensures { (n : Option ℕ) → number ≡ option_map capped n
        → option_copied result ≡ option_and_then (slice_get sites.now) n }
{
    let number = number?;
    let count = sites.len();
    if number >= count {
        return None;
    }
    Some(&sites[number])
}

// Returns the fault that the branches of the choice at the site differ for the role. Without a site it is at 0:0, in a
// module with the role's name.
fn unmergeable(
    alloc: Global,
    role: &Role,
    site: Option<&ChoiceSite>,
) -> Result<Unmergeable, AllocError>
    ensures { IfOk result (λ u. IsFaultOf role.now (option_copied site.entry) u) }
{
    match site {
        Some(site) => Ok(Unmergeable {
            role: role.copy()?,
            module: site.module.copy()?,
            spot: site.spot,
        }),
        None => {
            let mut names = Vec::new(alloc);
            names.push(role.copy()?)?;
            Ok(Unmergeable {
                role: role.copy()?,
                module: Dotted::from_vec(alloc, names)?,
                spot: Spot { line: 0, column: 0 },
            })
        }
    }
}
