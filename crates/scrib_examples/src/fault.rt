//! Why the examples end early.

use scrib_core::reply::Refusal;
use scrib_library::fault::EditFault;
use scrib_script_io::fault::ScriptFault;
use scrib_shards::pass_calls::PassRefusal;
use std::alloc::{AllocError, AllocFailed};
use std::io;
use std::io::ErrorKind;

/// Why the examples end early.
#[derive(Drop)]
pub(crate) enum RowsFault {
    /// An example, or a command line, without a known command.
    BadRow,
    /// An answer isn't the example's, a call was refused that is not to be, or something changed that was to stay.
    Wrong,
    /// Memory was refused.
    Memory,
    /// Memory was refused again, to what was done because it was refused before.
    Again,
    /// The reader or the writer failed.
    Io,
}

impl From<AllocError> for RowsFault {
    fn from(_e: AllocError) -> RowsFault {
        RowsFault::Memory
    }
}

impl<T: Drop> From<AllocFailed<T>> for RowsFault {
    fn from(_e: AllocFailed<T>) -> RowsFault {
        RowsFault::Memory
    }
}

impl From<io::Error> for RowsFault {
    fn from(error: io::Error) -> RowsFault {
        match error.kind() {
            ErrorKind::OutOfMemory => RowsFault::Memory,
            _ => RowsFault::Io,
        }
    }
}

impl From<ScriptFault> for RowsFault {
    fn from(fault: ScriptFault) -> RowsFault {
        match fault {
            ScriptFault::OutOfMemory => RowsFault::Memory,
            _ => RowsFault::Wrong,
        }
    }
}

impl From<Refusal> for RowsFault {
    fn from(refusal: Refusal) -> RowsFault {
        match refusal {
            Refusal::OutOfMemory | Refusal::Edit(EditFault::OutOfMemory) => RowsFault::Memory,
            _ => RowsFault::Wrong,
        }
    }
}

impl From<PassRefusal> for RowsFault {
    fn from(refusal: PassRefusal) -> RowsFault {
        match refusal {
            PassRefusal::Step(refusal) => RowsFault::from(refusal),
            PassRefusal::Mismatch { .. } => RowsFault::Wrong,
        }
    }
}

/// The answer of what was done because memory was refused before, where it isn't to be done once more.
pub(crate) fn second<T>(answer: Result<T, RowsFault>) -> Result<T, RowsFault> {
    match answer {
        Err(RowsFault::Memory) => Err(RowsFault::Again),
        answer => answer,
    }
}

/// Refuses the example where this doesn't hold.
pub(crate) fn check(holds: bool) -> Result<(), RowsFault> {
    if holds { Ok(()) } else { Err(RowsFault::Wrong) }
}
