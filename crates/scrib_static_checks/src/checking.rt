//! The context of a walk over statements, and the reasons for which it stops.

use crate::declared::Declaration;
use crate::effect::CallEffect;
use crate::fault::FaultKind;
use crate::protocol_index::ProtocolIndex;
use crate::size_bound::SizeBound;
use scrib_tree::tree::ModuleTree;
use scrib_types::name::Name;
use scrib_types::spot::Spot;
use std::alloc::{AllocError, AllocFailed};

/// The state of the walk for one protocol.
#[derive(Clone, Copy, Drop)]
pub enum State {
    /// No call of it was found.
    Unwalked,
    /// The walk is in it, or in a protocol that it calls.
    Walking,
    /// It follows the rules, and so does each protocol that it calls.
    Walked(Summary),
}

/// The result of the walk over a protocol: whether its block has an exit, its size, and what its block adds to a type.
#[derive(Clone, Copy, Drop)]
pub struct Summary {
    pub exits: bool,
    pub size: SizeBound,
    pub effect: CallEffect,
}

/// A recursion around a statement.
#[derive(Clone, Copy, Drop)]
pub struct EnclosingRec<'a> {
    pub name: &'a Name,
}

/// The modules, all their declared protocols in order, and the index of these by name.
#[derive(Clone, Copy, Drop)]
pub struct SymbolTable<'a, 'k> {
    pub modules: &'a [ModuleTree],
    pub declared: &'k [Declaration<'a>],
    pub protocol_index: &'k ProtocolIndex,
}

/// The protocol whose statements are checked, with all declared protocols of the modules, their index and the states of
/// the walk.
#[derive(Clone, Copy, Drop)]
pub struct CheckContext<'a> {
    pub modules: &'a [ModuleTree],
    pub declared: &'a [Declaration<'a>],
    pub protocol_index: &'a ProtocolIndex,
    pub states: &'a [State],
    pub at: Declaration<'a>,
}

/// A rule that is broken, and the position in the module's text.
#[derive(Clone, Copy, Drop)]
pub struct BrokenRule {
    pub kind: FaultKind,
    pub spot: Spot,
}

/// Why the check of a protocol stops.
#[derive(Drop)]
pub enum CheckError {
    /// A rule is broken.
    Broken(BrokenRule),
    /// The protocol at this index of the table must be walked first.
    Call(usize),
    /// Memory was refused.
    OutOfMemory,
}

impl From<AllocError> for CheckError {
    ghost use Rattle.std.specs.Prelude.{◌≡◌};
    ghost use Rattle.scrib_static_checks.specs.declared.checking.CheckError.TheVariants.{OutOfMemory};

    ghost from_gives = { λ _ e. e ≡ OutOfMemory };

    fn from(_e: AllocError) -> CheckError {
        CheckError::OutOfMemory
    }
}

impl<T: Drop> From<AllocFailed<T>> for CheckError {
    ghost use Rattle.std.specs.Prelude.{◌≡◌};
    ghost use Rattle.scrib_static_checks.specs.declared.checking.CheckError.TheVariants.{OutOfMemory};

    ghost from_gives = { λ _ e. e ≡ OutOfMemory };

    fn from(_e: AllocFailed<T>) -> CheckError {
        CheckError::OutOfMemory
    }
}
