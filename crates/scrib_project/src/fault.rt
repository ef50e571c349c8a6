//! The errors of projection.

use scrib_types::name::{Dotted, Role};
use scrib_types::spot::Spot;
use std::alloc::{AllocError, AllocFailed};

/// A choice whose branches do not merge for a role without a part in it: the role, the module, and the position in its
/// text.
#[derive(Drop)]
pub struct Unmergeable {
    pub role: Role,
    pub module: Dotted,
    pub spot: Spot,
}

/// The reason for which there is no projection.
#[derive(Drop)]
pub enum ProjectFault {
    /// The branches of a choice between other roles do not merge for the role.
    Unmergeable(Unmergeable),
    /// Memory was refused.
    OutOfMemory,
}

impl From<AllocError> for ProjectFault {
    ghost use Rattle.std.specs.Prelude.{◌≡◌};
    ghost use Rattle.scrib_project.specs.declared.fault.ProjectFault.TheVariants.{OutOfMemory};

    ghost from_gives = { λ _ e. e ≡ OutOfMemory };

    fn from(_e: AllocError) -> ProjectFault {
        ProjectFault::OutOfMemory
    }
}

impl<T: Drop> From<AllocFailed<T>> for ProjectFault {
    ghost use Rattle.std.specs.Prelude.{◌≡◌};
    ghost use Rattle.scrib_project.specs.declared.fault.ProjectFault.TheVariants.{OutOfMemory};

    ghost from_gives = { λ _ e. e ≡ OutOfMemory };

    fn from(_e: AllocFailed<T>) -> ProjectFault {
        ProjectFault::OutOfMemory
    }
}
