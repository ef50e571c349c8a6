//! Why a script ended early.

use scrib_script_reader::fault::SpellFault;
use std::alloc::{AllocError, AllocFailed};
use thiserror::Error;

/// Why a script ended early. What was written is then a prefix of its output.
#[derive(Debug, Drop, PartialEq, Eq, Error)]
pub enum ScriptFault {
    /// The reader failed, or the script passes its limits.
    #[error("the script was not read to its end")]
    Read,
    /// The writer failed.
    #[error("the output was not written")]
    Write,
    /// The passes of a service's connections did not account for each event of its logs. Only `run` returns it.
    #[error("the service did not settle")]
    Settle,
    /// Memory for a line or a reply's text is refused.
    #[error("out of memory")]
    OutOfMemory,
}

impl From<AllocError> for ScriptFault {
    ghost use Rattle.std.specs.Prelude.{◌≡◌};
    ghost use Rattle.scrib_script_io.specs.declared.fault.ScriptFault.TheVariants.{OutOfMemory};

    ghost from_gives = { λ _ e. e ≡ OutOfMemory };

    fn from(_e: AllocError) -> ScriptFault {
        ScriptFault::OutOfMemory
    }
}

impl<T: Drop> From<AllocFailed<T>> for ScriptFault {
    ghost use Rattle.std.specs.Prelude.{◌≡◌};
    ghost use Rattle.scrib_script_io.specs.declared.fault.ScriptFault.TheVariants.{OutOfMemory};

    ghost from_gives = { λ _ e. e ≡ OutOfMemory };

    fn from(_e: AllocFailed<T>) -> ScriptFault {
        ScriptFault::OutOfMemory
    }
}

impl From<SpellFault> for ScriptFault {
    ghost use Rattle.std.specs.Prelude.{◌≡◌};
    ghost use Rattle.scrib_script_io.specs.Faults.{fault_of};

    ghost from_gives = { λ e f. f ≡ fault_of e };

    fn from(e: SpellFault) -> ScriptFault {
        match e {
            SpellFault::TooLong => ScriptFault::Read,
            SpellFault::OutOfMemory => ScriptFault::OutOfMemory,
        }
    }
}
