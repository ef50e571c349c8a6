//! Versions: compiled protocols with a number.

ghost use Rattle.std.specs.Prelude.{◌≡◌};
ghost use Rattle.scrib_types.specs.Meaning.{agreement_of};
ghost use Rattle.scrib_record.specs.Flat.{flat_form};

use crate::compilation::{Compilation, Compiled};
use crate::long_bytes::same_long_bytes;
use crate::role_hints::RoleHints;
use crate::role_state::place_of;
use scrib_machine::machine::Machine;
use scrib_types::containers::Items;
use scrib_types::name::Role;
use scrib_types::protocol::Protocol;
use std::alloc::{AllocError, Global};
use std::marker::Model;
use std::sync::Arc;

/// The part of a version that its copies share. It is a protocol with the machine of each role, in the order in which
/// the roles are declared, and the number of its stamp. It also has the flat form of its meaning, and hints for its
/// roles' places.
#[derive(Drop)]
pub struct Edition {
    protocol: Protocol,
    machines: Items<Machine>,
    number: u32,
    flat: Items<u8>,
    hints: RoleHints,
    pub ghost flattened: { flat ≡ flat_form (agreement_of protocol) },
}

/// A version of a protocol. Its copies share one edition, to which contracts refer.
#[derive(Drop)]
pub struct Version {
    edition: Arc<Edition>,
}

impl Model for Version {
    ghost use Rattle.scrib_record.specs.declared.version.Edition.{Edition};
    ghost use Rattle.scrib_record.specs.contracts.version.Edition as shared;
    ghost use Rattle.scrib_types.specs.Meaning.{agreement_of};
    ghost use Rattle.scrib_record.specs.RoleMachines.{AreMachinesOf};

    ghost Value = { Edition };

    ghost coded = { shared.the_row.coded };

    ghost view = { λ version. version.edition.value };

    ghost invariant = { λ version. AreMachinesOf (agreement_of version.edition.value.protocol)
        version.edition.value.machines };
}

impl Version {
    ghost use Rattle.std.specs.Prelude.{◌≡◌, ◌↔◌, IfOk, IsTrue, position};
    ghost use Rattle.std.specs.Str.{bytes_eq};
    ghost use Rattle.scrib_types.specs.Meaning.{agreement_of};
    ghost use Rattle.scrib_types.specs.WellFormed.{is_protocol};
    ghost use Rattle.scrib_record.specs.RoleMachines.{AreMachinesOf};
    ghost use Rattle.scrib_record.specs.Versions.{meaning_of, number_of, HaveSameStamp};

    /// Returns the version of a compiled protocol with this number.
    ///
    /// # Errors
    /// `AllocError` where memory was refused.
    pub fn new(alloc: Global, compiled: Compiled, number: u32) -> Result<Version, AllocError>
        ensures meaning { IfOk result (λ version. meaning_of version ≡ agreement_of compiled.protocol) }
        ensures number { IfOk result (λ version. number_of version ≡ number) }
    {
        let Compiled { compilation } = compiled;
        let Compilation {
            protocol,
            machines,
            flat,
            hints,
            ..
        } = compilation;
        let edition = Edition {
            protocol,
            machines,
            number,
            flat,
            hints,
        };
        let edition = Arc::new(alloc, edition)?;
        Ok(Version { edition })
    }

    /// Returns a copy that shares the edition.
    ///
    /// # Errors
    /// `AllocError` where the reference count cannot rise.
    pub fn share(&self) -> Result<Version, AllocError>
        ensures { IfOk result (λ version. version ≡ self.now) }
    {
        let edition = self.edition.clone()?;
        Ok(Version { edition })
    }

    /// Returns the protocol.
    pub fn protocol(&self) -> &Protocol
        ensures { agreement_of result.now ≡ meaning_of self.now }
    {
        &self.edition.protocol
    }

    /// Returns the place of the role among the protocol's roles. It first tries the place that the role's name hints
    /// at.
    pub fn place_of(&self, role: &Role) -> Option<usize>
        ensures place { result ≡ position (bytes_eq role.now) (meaning_of self.now).roles }
        ensures valid { IsTrue (is_protocol (meaning_of self.now).roles (meaning_of self.now).global) }
    {
        let roles = self.protocol().roles();
        let hint = self.edition.hints.hint(role);
        match roles.get(hint) {
            Some(other) if role.equal(other) => Some(hint),
            _ => place_of(roles, role),
        }
    }

    /// Returns the machine of each role's projection, in the order in which the roles are declared.
    pub fn machines(&self) -> &[Machine]
        ensures machines { result.now ≡ self.now.machines }
        ensures follow { AreMachinesOf (meaning_of self.now) self.now.machines }
    {
        self.edition.machines.as_slice()
    }

    /// Returns the number of the stamp.
    pub fn number(&self) -> u32
        ensures { result ≡ number_of self.now }
    {
        self.edition.number
    }

    /// Returns whether the two have the same meaning: the same roles, in order, and the same global type.
    pub fn same_meaning(&self, other: &Version) -> bool
        ensures { IsTrue result ↔ (meaning_of self.now ≡ meaning_of other.now) }
    {
        same_long_bytes(self.edition.flat.as_slice(), other.edition.flat.as_slice())
    }

    /// Returns whether the stamps are equal: first the numbers are compared, and then the meanings.
    pub fn same_stamp(&self, other: &Version) -> bool
        ensures { IsTrue result ↔ HaveSameStamp self.now other.now }
    {
        self.number() == other.number() && self.same_meaning(other)
    }
}
