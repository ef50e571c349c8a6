//! The machines of a protocol's roles.

ghost use Rattle.std.specs.Prelude.{◌≡◌, ◌≤◌, IsTrue, IfOk, All};
ghost use Rattle.std.specs.List.{AllZip};
ghost use Rattle.scrib_types.specs.LocalView.{local_of};
ghost use Rattle.scrib_types.specs.Meaning.{agreement_of};
ghost use Rattle.scrib_projection.specs.Projections.{are_projections};
ghost use Rattle.scrib_machine.specs.Compilable.{IsCompilable, max_nodes};
ghost use Rattle.scrib_machine.specs.Machines.{IsMachine, HasTracesOf};
ghost use Rattle.scrib_machine.specs.Projected.{global_nodes};
ghost use Rattle.scrib_record.specs.RoleMachines as roles;

use scrib_machine::compile::compile;
use scrib_machine::machine::Machine;
use scrib_types::containers::Items;
use scrib_types::local::Local;
use scrib_types::protocol::Protocol;
use std::alloc::{AllocError, Global};

/// Returns the machine of each of the protocol's projections, which are `locals`.
///
/// # Errors
/// `AllocError` where memory was refused.
pub fn machines_of(
    alloc: Global,
    protocol: &Protocol,
    locals: &[Local],
) -> Result<Items<Machine>, AllocError>
    requires projections { IsTrue (are_projections (agreement_of protocol.now).global (agreement_of protocol.now).roles locals.now) }
    requires small { global_nodes (agreement_of protocol.now).global ≤ max_nodes }
    ensures { IfOk result (roles.AreMachinesOf (agreement_of protocol.now)) }
{
    // For its contract, which has what holds of each protocol.
    let _roles = protocol.roles();
    let machines = compile_all(alloc, locals)?;
    Ok(Items::from_vec(machines))
}

// Returns the machine of each local type, in order.
fn compile_all(alloc: Global, locals: &[Local]) -> Result<Vec<Machine>, AllocError>
    requires { All (λ local. IsCompilable (local_of local)) locals.now }
    ensures { IfOk result (λ machines. AllZip roles.IsCompiled locals.now machines.items) }
{
    let mut machines = Vec::with_capacity(alloc, locals.len())?;
    for local in locals {
        let machine = compile_one(alloc, local)?;
        machines.push(machine)?;
    }
    Ok(machines)
}

// Returns the machine of the local type.
fn compile_one(alloc: Global, local: &Local) -> Result<Machine, AllocError>
    requires { IsCompilable (local_of local.now) }
    ensures { IfOk result (roles.IsCompiled local.now) }
{
    let machine = compile(alloc, local)?;
    // For its contract, which has what holds of each machine.
    let _start = machine.start();
    Ok(machine)
}
