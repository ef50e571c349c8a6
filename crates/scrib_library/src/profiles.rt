//! Whether the stored versions project under a new profile.

ghost use Rattle.std.specs.Prelude.{◌≡◌, IfOk, IfErr, OnOk};
ghost use Rattle.std.specs.Option.{option_copied};
ghost use Rattle.scrib_types.specs.Meaning.{agreement_of};
ghost use Rattle.scrib_types.specs.WellFormed.{projects};
ghost use Rattle.scrib_library.specs.Listed.{AreInOrder};
ghost use Rattle.scrib_library.specs.Stored.{version_names};
ghost use Rattle.scrib_library.specs.Lacking.{AllVersionsProject, IsFirstLackingOrNone, StopsChange};

use crate::fault::EditFault;
use crate::versions::NamedVersion;
use scrib_projection::projection::project_type;
use scrib_types::name::Dotted;
use scrib_types::profile::Profile;
use scrib_types::protocol::Protocol;
use std::alloc::{AllocError, Global};

/// Checks that the versions project under the wanted profile, given that they do under the held one. Only a change from
/// the reception profile to the plain one tries them, in the order of names.
///
/// # Errors
/// `NeedsReception` with the first name whose version does not project on some role; `OutOfMemory` if memory was
/// refused.
pub fn check_change(
    alloc: Global,
    versions: &[NamedVersion],
    held: Profile,
    wanted: Profile,
) -> Result<(), EditFault>
    requires { AreInOrder (version_names versions.now) }
    ensures ok { OnOk result (AllVersionsProject held versions.now → AllVersionsProject wanted versions.now) }
    ensures fault { IfErr result (StopsChange held wanted versions.now) }
{
    if held == wanted || wanted == Profile::Reception {
        return Ok(());
    }
    if let Some(name) = first_lacking(alloc, versions, wanted)? {
        let name = name.copy()?;
        return Err(EditFault::NeedsReception { name });
    }
    Ok(())
}

// Returns the first name whose version does not project on some role under the profile. Errors: `AllocError` if memory
// was refused.
fn first_lacking<'a>(
    alloc: Global,
    versions: &'a [NamedVersion],
    profile: Profile,
) -> Result<Option<&'a Dotted>, AllocError>
    requires { AreInOrder (version_names versions.now) }
    ensures { IfOk result (λ name. IsFirstLackingOrNone profile versions.now (option_copied name)) }
{
    for named in versions {
        let projected = has_projections(alloc, named.version.protocol(), profile)?;
        if !projected {
            return Ok(Some(&named.name));
        }
    }
    Ok(None)
}

// Whether the protocol projects on each of its roles under the profile. Errors: `AllocError` if memory was refused.
fn has_projections(alloc: Global, protocol: &Protocol, profile: Profile) -> Result<bool, AllocError>
    ensures { IfOk result (λ all. all ≡ projects profile (agreement_of protocol.now).global
        (agreement_of protocol.now).roles) }
{
    for role in protocol.roles() {
        let local = project_type(alloc, protocol.global(), role, profile)?;
        if local.is_none() {
            return Ok(false);
        }
    }
    Ok(true)
}
