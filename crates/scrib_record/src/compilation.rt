//! Protocols with the machines of their roles.

ghost use Rattle.std.specs.Prelude.{◌≡◌};
ghost use Rattle.scrib_types.specs.Meaning.{agreement_of};
ghost use Rattle.scrib_record.specs.Flat.{flat_form};

use crate::flat::flat_form;
use crate::machines::machines_of;
use crate::role_hints::RoleHints;
use scrib_machine::machine::Machine;
use scrib_types::containers::Items;
use scrib_types::local::Local;
use scrib_types::protocol::Protocol;
use std::alloc::{AllocError, Global};
use std::marker::Model;

/// A version without its number: a protocol with a machine for each role, in the order in which the roles are declared.
/// It also has the flat form of its meaning, and hints for its roles' places.
#[derive(Drop)]
pub struct Compilation {
    pub(crate) protocol: Protocol,
    pub(crate) machines: Items<Machine>,
    pub(crate) flat: Items<u8>,
    pub(crate) hints: RoleHints,
    pub ghost flattened: { flat ≡ flat_form (agreement_of protocol) },
}

/// A protocol whose machines follow its projections. Contracts refer to the compilation.
#[derive(Drop)]
pub struct Compiled {
    pub(crate) compilation: Compilation,
}

impl Model for Compiled {
    ghost use Rattle.scrib_record.specs.declared.compilation.Compilation.{Compilation};
    ghost use Rattle.scrib_record.specs.contracts.compilation.Compilation as whole;
    ghost use Rattle.scrib_types.specs.Meaning.{agreement_of};
    ghost use Rattle.scrib_record.specs.RoleMachines.{AreMachinesOf};

    ghost Value = { Compilation };

    ghost coded = { whole.the_row.coded };

    ghost view = { λ compiled. compiled.compilation };

    ghost invariant = { λ compiled. AreMachinesOf (agreement_of compiled.compilation.protocol)
        compiled.compilation.machines };
}

impl Compiled {
    ghost use Rattle.std.specs.Prelude.{◌≡◌, ◌≤◌, IfOk, IsTrue};
    ghost use Rattle.scrib_types.specs.Meaning.{agreement_of};
    ghost use Rattle.scrib_machine.specs.Compilable.{max_nodes};
    ghost use Rattle.scrib_machine.specs.Projected.{global_nodes};
    ghost use Rattle.scrib_projection.specs.Projections.{are_projections};

    /// Returns the protocol with the machines of its projections, which are `locals`.
    ///
    /// # Errors
    /// `AllocError` where memory was refused.
    pub fn new(alloc: Global, protocol: Protocol, locals: &[Local]) -> Result<Compiled, AllocError>
        requires projections { IsTrue (are_projections (agreement_of protocol).global (agreement_of protocol).roles locals.now) }
        requires small { global_nodes (agreement_of protocol).global ≤ max_nodes }
        ensures { IfOk result (λ compiled. agreement_of compiled.protocol ≡ agreement_of protocol) }
    {
        let flat = flat_form(alloc, &protocol)?;
        let machines = machines_of(alloc, &protocol, locals)?;
        let hints = RoleHints::new(protocol.roles());
        Ok(Compiled {
            compilation: Compilation {
                protocol,
                machines,
                flat,
                hints,
            },
        })
    }

    /// Returns the protocol.
    pub fn protocol(&self) -> &Protocol
        ensures { agreement_of result.now ≡ agreement_of self.now.protocol }
    {
        &self.compilation.protocol
    }
}
