//! The errors of building the type of a protocol.

ghost use Rattle.std.specs.Prelude.{◌≡◌, ◌+◌, IfOk};
ghost use Rattle.scrib_type_builder.specs.declared.build_error.BuildError.TheVariants.{Broken};

use scrib_static_checks::checking::BrokenRule;
use scrib_static_checks::fault::{ElaborateFault, FaultKind};
use scrib_tree::tree::ModuleTree;
use scrib_types::spot::Spot;
use std::alloc::{AllocError, AllocFailed};

/// Memory was refused, or recursions are nested more deeply than a 32-bit number can count.
#[derive(Drop)]
pub struct Refused;

/// The reason for which a type is not built.
#[derive(Drop)]
pub enum BuildError<'a> {
    /// A rule is broken in this module.
    Broken(&'a ModuleTree, BrokenRule),
    /// Memory was refused.
    OutOfMemory,
}

impl From<AllocError> for Refused {
    fn from(_e: AllocError) -> Refused {
        Refused
    }
}

impl<T: Drop> From<AllocFailed<T>> for Refused {
    fn from(_e: AllocFailed<T>) -> Refused {
        Refused
    }
}

impl<'a> From<Refused> for BuildError<'a> {
    ghost use Rattle.std.specs.Prelude.{◌≡◌};
    ghost use Rattle.scrib_type_builder.specs.declared.build_error.BuildError.TheVariants.{OutOfMemory};

    ghost from_gives = { λ _ e. e ≡ OutOfMemory };

    fn from(_e: Refused) -> BuildError<'a> {
        BuildError::OutOfMemory
    }
}

impl From<Refused> for ElaborateFault {
    ghost use Rattle.std.specs.Prelude.{◌≡◌};
    ghost use Rattle.scrib_static_checks.specs.declared.fault.ElaborateFault.TheVariants.{OutOfMemory};

    ghost from_gives = { λ _ e. e ≡ OutOfMemory };

    fn from(_e: Refused) -> ElaborateFault {
        ElaborateFault::OutOfMemory
    }
}

impl<'a> From<AllocError> for BuildError<'a> {
    ghost use Rattle.std.specs.Prelude.{◌≡◌};
    ghost use Rattle.scrib_type_builder.specs.declared.build_error.BuildError.TheVariants.{OutOfMemory};

    ghost from_gives = { λ _ e. e ≡ OutOfMemory };

    fn from(_e: AllocError) -> BuildError<'a> {
        BuildError::OutOfMemory
    }
}

impl<'a, T: Drop> From<AllocFailed<T>> for BuildError<'a> {
    ghost use Rattle.std.specs.Prelude.{◌≡◌};
    ghost use Rattle.scrib_type_builder.specs.declared.build_error.BuildError.TheVariants.{OutOfMemory};

    ghost from_gives = { λ _ e. e ≡ OutOfMemory };

    fn from(_e: AllocFailed<T>) -> BuildError<'a> {
        BuildError::OutOfMemory
    }
}

/// Returns the depth plus one.
///
/// # Errors
/// `Refused` where the number does not fit.
pub fn next_depth(depth: u32) -> Result<u32, Refused>
    ensures { IfOk result (λ more. more ≡ depth + 1) }
{
    match depth.checked_add(1) {
        Some(more) => Ok(more),
        None => Err(Refused),
    }
}

/// Returns the error that the rule of this kind is broken at this position.
pub fn broken<'a>(home: &'a ModuleTree, kind: FaultKind, spot: Spot) -> BuildError<'a>
    ensures { result ≡ Broken home.entry (record { kind = kind; spot = spot }) }
{
    BuildError::Broken(home, BrokenRule { kind, spot })
}
