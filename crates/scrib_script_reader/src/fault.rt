//! Why reading a script ended early.

use std::alloc::AllocError;

/// Why reading a script ended early.
#[derive(Debug, Drop, PartialEq, Eq)]
pub enum SpellFault {
    /// The script passes its limits.
    TooLong,
    /// Memory for a line, a text or a step is refused.
    OutOfMemory,
}

impl From<AllocError> for SpellFault {
    ghost use Rattle.std.specs.Prelude.{◌≡◌};
    ghost use Rattle.scrib_script_reader.specs.declared.fault.SpellFault.TheVariants.{OutOfMemory};

    ghost from_gives = { λ _ e. e ≡ OutOfMemory };

    fn from(_e: AllocError) -> SpellFault {
        SpellFault::OutOfMemory
    }
}
