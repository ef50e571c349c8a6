//! Why a log is not explained.

use std::alloc::{AllocError, AllocFailed};
use thiserror::Error;

/// Why a log is not explained.
#[derive(Debug, Drop, Error)]
pub enum ExplainFault {
    /// The protocol does not permit the log. The place is that of the first offence, from 1.
    #[error("not permitted at {place}")]
    NotPermitted { place: usize },
    /// Memory was refused.
    #[error("out of memory")]
    OutOfMemory,
}

impl From<AllocError> for ExplainFault {
    ghost use Rattle.std.specs.Prelude.{◌≡◌};
    ghost use Rattle.scrib_global.specs.declared.fault.ExplainFault.TheVariants.{OutOfMemory};

    ghost from_gives = { λ _ e. e ≡ OutOfMemory };

    fn from(_e: AllocError) -> ExplainFault {
        ExplainFault::OutOfMemory
    }
}

impl<T: Drop> From<AllocFailed<T>> for ExplainFault {
    ghost use Rattle.std.specs.Prelude.{◌≡◌};
    ghost use Rattle.scrib_global.specs.declared.fault.ExplainFault.TheVariants.{OutOfMemory};

    ghost from_gives = { λ _ e. e ≡ OutOfMemory };

    fn from(_e: AllocFailed<T>) -> ExplainFault {
        ExplainFault::OutOfMemory
    }
}
