//! Why tokens are no module.

ghost use Rattle.std.specs.Prelude.{◌≡◌};
ghost use Rattle.scrib_parser.specs.LeftOut as left_out;

use scrib_types::spot::Spot;
use std::alloc::{AllocError, AllocFailed};
use thiserror::Error;

/// A word of the Scribble language whose form this grammar leaves out.
#[derive(Clone, Copy, Debug)]
pub enum LeftOutWord {
    Local,
    Sig,
    Aux,
    Explicit,
    From,
    Par,
    Interruptible,
    Connect,
    Disconnect,
}

impl LeftOutWord {
    /// The word's text.
    pub fn text(self) -> &'static str
        ensures { result.now ≡ left_out.spelling self }
    {
        match self {
            LeftOutWord::Local => "local",
            LeftOutWord::Sig => "sig",
            LeftOutWord::Aux => "aux",
            LeftOutWord::Explicit => "explicit",
            LeftOutWord::From => "from",
            LeftOutWord::Par => "par",
            LeftOutWord::Interruptible => "interruptible",
            LeftOutWord::Connect => "connect",
            LeftOutWord::Disconnect => "disconnect",
        }
    }
}

/// Why tokens are no module.
#[derive(Debug, Drop, Error)]
pub enum ParseFault {
    /// The first token that no module can have after the tokens before it.
    #[error("unexpected token")]
    Unexpected { at: Spot },
    /// The tokens are the beginning of a module, but no module.
    #[error("the text ends early")]
    EndOfText,
    /// A form of the language that is left out, by its word and the word's place.
    #[error("left out")]
    LeftOut { word: LeftOutWord, at: Spot },
    /// The brace that opens a 65th level of blocks.
    #[error("too deep")]
    TooDeep { at: Spot },
    /// Memory was refused.
    #[error("out of memory")]
    OutOfMemory,
}

impl From<AllocError> for ParseFault {
    ghost use Rattle.std.specs.Prelude.{◌≡◌};
    ghost use Rattle.scrib_parser.specs.declared.fault.ParseFault.TheVariants.{OutOfMemory};

    ghost from_gives = { λ _ e. e ≡ OutOfMemory };

    fn from(_e: AllocError) -> ParseFault {
        ParseFault::OutOfMemory
    }
}

impl<T: Drop> From<AllocFailed<T>> for ParseFault {
    ghost use Rattle.std.specs.Prelude.{◌≡◌};
    ghost use Rattle.scrib_parser.specs.declared.fault.ParseFault.TheVariants.{OutOfMemory};

    ghost from_gives = { λ _ e. e ≡ OutOfMemory };

    fn from(_e: AllocFailed<T>) -> ParseFault {
        ParseFault::OutOfMemory
    }
}
