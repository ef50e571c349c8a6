//! Why an edit was refused.

use scrib_lexer::fault::LexFault;
use scrib_parser::fault::ParseFault;
use scrib_project::fault::{ProjectFault, Unmergeable};
use scrib_static_checks::fault::{ElaborateFault, Fault};
use scrib_types::name::Dotted;
use std::alloc::{AllocError, AllocFailed};

/// Why an edit was refused. A refused edit changes nothing.
#[derive(Drop)]
pub enum EditFault {
    /// The text has no token sequence.
    Lex(LexFault),
    /// The tokens do not form a module.
    Parse(ParseFault),
    /// No module has this name.
    UnknownModule,
    /// The edit would make more than 256 modules.
    TooManyModules,
    /// Another module imports this one: the first such module by name, in byte order.
    StillImported { by: Dotted },
    /// The module imports this one, which does not exist. It is the first such import.
    ImportMissing { module: Dotted },
    /// The edit would make more than 1,024 protocols.
    TooManyProtocols,
    /// A declared protocol has no meaning: the first such protocol by name, in byte order.
    Elaborate(Fault),
    /// The type of a declared protocol does not project on some role under the library's profile. It is the first such
    /// protocol by name, in byte order.
    Project(Unmergeable),
    /// The edit would use more than 65,536 versions.
    VersionsFull,
    /// The plain profile does not project this protocol: the first such name, in byte order.
    NeedsReception { name: Dotted },
    /// Memory was refused.
    OutOfMemory,
}

impl From<LexFault> for EditFault {
    ghost use Rattle.std.specs.Prelude.{◌≡◌};
    ghost use Rattle.scrib_library.specs.FaultConversions.{edit_fault_of_lex};

    ghost from_gives = { λ f e. e ≡ edit_fault_of_lex f };

    fn from(fault: LexFault) -> EditFault {
        match fault {
            LexFault::OutOfMemory => EditFault::OutOfMemory,
            fault => EditFault::Lex(fault),
        }
    }
}

impl From<ParseFault> for EditFault {
    ghost use Rattle.std.specs.Prelude.{◌≡◌};
    ghost use Rattle.scrib_library.specs.FaultConversions.{edit_fault_of_parse};

    ghost from_gives = { λ f e. e ≡ edit_fault_of_parse f };

    fn from(fault: ParseFault) -> EditFault {
        match fault {
            ParseFault::OutOfMemory => EditFault::OutOfMemory,
            fault => EditFault::Parse(fault),
        }
    }
}

impl From<ElaborateFault> for EditFault {
    ghost use Rattle.std.specs.Prelude.{◌≡◌};
    ghost use Rattle.scrib_library.specs.FaultConversions.{edit_fault_of_elaborate};

    ghost from_gives = { λ f e. e ≡ edit_fault_of_elaborate f };

    fn from(fault: ElaborateFault) -> EditFault {
        match fault {
            ElaborateFault::OutOfMemory => EditFault::OutOfMemory,
            ElaborateFault::Broken(fault) => EditFault::Elaborate(fault),
        }
    }
}

impl From<ProjectFault> for EditFault {
    ghost use Rattle.std.specs.Prelude.{◌≡◌};
    ghost use Rattle.scrib_library.specs.FaultConversions.{edit_fault_of_project};

    ghost from_gives = { λ f e. e ≡ edit_fault_of_project f };

    fn from(fault: ProjectFault) -> EditFault {
        match fault {
            ProjectFault::OutOfMemory => EditFault::OutOfMemory,
            ProjectFault::Unmergeable(fault) => EditFault::Project(fault),
        }
    }
}

impl From<AllocError> for EditFault {
    ghost use Rattle.std.specs.Prelude.{◌≡◌};
    ghost use Rattle.scrib_library.specs.declared.fault.EditFault.TheVariants.{OutOfMemory};

    ghost from_gives = { λ _ e. e ≡ OutOfMemory };

    fn from(_e: AllocError) -> EditFault {
        EditFault::OutOfMemory
    }
}

impl<T: Drop> From<AllocFailed<T>> for EditFault {
    ghost use Rattle.std.specs.Prelude.{◌≡◌};
    ghost use Rattle.scrib_library.specs.declared.fault.EditFault.TheVariants.{OutOfMemory};

    ghost from_gives = { λ _ e. e ≡ OutOfMemory };

    fn from(_e: AllocFailed<T>) -> EditFault {
        EditFault::OutOfMemory
    }
}
