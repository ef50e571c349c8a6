//! The faults of elaboration.

use scrib_types::name::Dotted;
use scrib_types::spot::Spot;
use std::alloc::{AllocError, AllocFailed};

/// The rule that a protocol, or one that it calls, breaks.
#[derive(Clone, Copy, Debug, PartialEq, Eq)]
pub enum FaultKind {
    /// The part before the last dot of a call is no import, or there is no such module.
    NoModule,
    /// The module has no protocol of this name.
    NoProtocol,
    /// Two imports of a module are known by one name, or two of its protocols or two roles of a protocol have one name.
    /// The fault is at the second.
    TwiceDeclared,
    /// A statement names a role that the protocol does not declare.
    NoRole,
    /// A call passes one role twice.
    RepeatedRole,
    /// A call passes another number of roles than the called protocol has.
    WrongCount,
    /// A message goes from a role to itself.
    SelfMessage,
    /// The called protocol calls, directly or not, the protocol with the call.
    DoCycle,
    /// A `continue` names no recursion around it.
    NoRec,
    /// A recursion's body, with what follows, begins with no communication.
    Unguarded,
    /// The statement before this one in its block has no exit.
    Unreachable,
    /// A branch of a choice, with what follows, has no communication. A choice without a branch, which no text
    /// contains, has this fault at the choice.
    EmptyBranch,
    /// A branch of a choice begins with a `continue`.
    ContinueHead,
    /// A branch of a choice begins with a recursion.
    RecHead,
    /// A branch of a choice begins with a communication from another role than the chooser.
    NotChooser,
    /// A branch of a choice begins with a communication to another receiver than the first branch's.
    TwoReceivers,
    /// A branch of a choice begins with an operator that an earlier branch begins with.
    SameOperator,
    /// The protocol has more than 64 roles. The fault is at the 65th.
    TooManyRoles,
    /// The global type would have more than 65,536 nodes, or a path of more than 4,096 nodes from its root to an end or
    /// variable. The fault is at the protocol.
    TooLarge,
}

/// A broken rule, its module, and the position in its text. If the requested protocol does not exist, it is the
/// requested module, with line 0 and column 0.
#[derive(Drop)]
pub struct Fault {
    pub kind: FaultKind,
    pub module: Dotted,
    pub spot: Spot,
}

/// The reason for which a protocol has no elaboration.
#[derive(Drop)]
pub enum ElaborateFault {
    /// A rule is broken.
    Broken(Fault),
    /// Memory was refused.
    OutOfMemory,
}

impl From<AllocError> for ElaborateFault {
    ghost use Rattle.std.specs.Prelude.{◌≡◌};
    ghost use Rattle.scrib_static_checks.specs.declared.fault.ElaborateFault.TheVariants.{OutOfMemory};

    ghost from_gives = { λ _ e. e ≡ OutOfMemory };

    fn from(_e: AllocError) -> ElaborateFault {
        ElaborateFault::OutOfMemory
    }
}

impl<T: Drop> From<AllocFailed<T>> for ElaborateFault {
    ghost use Rattle.std.specs.Prelude.{◌≡◌};
    ghost use Rattle.scrib_static_checks.specs.declared.fault.ElaborateFault.TheVariants.{OutOfMemory};

    ghost from_gives = { λ _ e. e ≡ OutOfMemory };

    fn from(_e: AllocFailed<T>) -> ElaborateFault {
        ElaborateFault::OutOfMemory
    }
}
