//! The projection of a global type.

ghost use Rattle.std.specs.Prelude.{◌≡◌, IfOk, option_map};
ghost use Rattle.scrib_types.specs.GlobalView.{global_of};
ghost use Rattle.scrib_types.specs.LocalView.{local_of};
ghost use Rattle.scrib_types.specs.Projection.{projection};

use crate::project_role::project_role;
use scrib_types::global::GlobalType;
use scrib_types::local::Local;
use scrib_types::name::Role;
use scrib_types::profile::Profile;
use std::alloc::{AllocError, Global};

/// The projection of the global type on the role under the profile, or `None` where it is undefined.
///
/// # Errors
/// `AllocError` where memory is refused.
pub fn project_type(
    alloc: Global,
    global: &GlobalType,
    role: &Role,
    profile: Profile,
) -> Result<Option<Local>, AllocError>
    ensures { IfOk result (λ o. option_map local_of o ≡ projection profile role.now (global_of global.now)) }
{
    let outcome = project_role(alloc, global, role, profile)?;
    Ok(outcome.local)
}
