//! The errors of a note.

use std::alloc::AllocError;
use thiserror::Error;

/// The reason for which an event is not noted.
#[derive(Debug, Drop, Error)]
pub enum NoteFault {
    /// The log has the largest number of events.
    #[error("the log is full")]
    LogFull,
    /// Memory was refused.
    #[error("out of memory")]
    OutOfMemory,
}

impl From<AllocError> for NoteFault {
    ghost use Rattle.std.specs.Prelude.{◌≡◌};
    ghost use Rattle.scrib_record.specs.declared.fault.NoteFault.TheVariants.{OutOfMemory};

    ghost from_gives = { λ _ e. e ≡ OutOfMemory };

    fn from(_e: AllocError) -> NoteFault {
        NoteFault::OutOfMemory
    }
}
