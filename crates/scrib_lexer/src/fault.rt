//! Why a text has no tokens.

use scrib_types::spot::Spot;
use std::alloc::{AllocError, AllocFailed};
use thiserror::Error;

/// Why a text has no tokens.
#[derive(Debug, Drop, Error)]
pub enum LexFault {
    /// The text is longer than a module text may be.
    #[error("the text is too long")]
    TextTooLong,
    /// A byte that starts no token, or the first byte of an invalid UTF-8 sequence in a closed string.
    #[error("bad byte")]
    BadByte { at: Spot },
    /// A `/*` that has no `*/`.
    #[error("open comment")]
    OpenComment { at: Spot },
    /// A double quote that its line doesn't close.
    #[error("open string")]
    OpenString { at: Spot },
    /// A name of more than 128 bytes.
    #[error("long name")]
    LongName { at: Spot },
    /// Memory was refused.
    #[error("out of memory")]
    OutOfMemory,
}

impl From<AllocError> for LexFault {
    ghost use Rattle.std.specs.Prelude.{◌≡◌};
    ghost use Rattle.scrib_lexer.specs.declared.fault.LexFault.TheVariants.{OutOfMemory};

    ghost from_gives = { λ _ e. e ≡ OutOfMemory };

    fn from(_e: AllocError) -> LexFault {
        LexFault::OutOfMemory
    }
}

impl<T: Drop> From<AllocFailed<T>> for LexFault {
    ghost use Rattle.std.specs.Prelude.{◌≡◌};
    ghost use Rattle.scrib_lexer.specs.declared.fault.LexFault.TheVariants.{OutOfMemory};

    ghost from_gives = { λ _ e. e ≡ OutOfMemory };

    fn from(_e: AllocFailed<T>) -> LexFault {
        LexFault::OutOfMemory
    }
}
