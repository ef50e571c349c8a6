//! The line of a protocol.

ghost use Rattle.std.specs.Prelude.{◌≡◌, ◌++◌, OnOk};
ghost use Rattle.scrib_types.specs.Texts.{after_each};
ghost use Rattle.scrib_list.specs.Protocols as protocols;

use scrib_tree::tree::{ProtocolDeclaration, RoleDeclaration};
use scrib_types::name::{Dotted, Name};
use scrib_types::text::{push_bytes, push_dotted};
use std::alloc::AllocError;

// Appends the full name of the protocol of this name in the module `home`, as `orders.Order`. It fails where memory is
// refused, as do the functions below.
pub(crate) fn push_full_name(
    out: &mut Vec<u8>,
    home: &Dotted,
    name: &Name,
) -> Result<(), AllocError>
    ensures { OnOk result (out.new.items ≡ out.old.items ++ protocols.full_name home.now name.now) }
{
    push_dotted(out, home)?;
    push_bytes(out, b".")?;
    push_bytes(out, name.as_bytes())
}

// Appends a blank and the role's name, for each of the roles.
fn push_roles(out: &mut Vec<u8>, roles: &[RoleDeclaration]) -> Result<(), AllocError>
    ensures { OnOk result (out.new.items ≡ out.old.items ++ after_each 32 (protocols.role_names roles.now)) }
{
    for role in roles {
        push_bytes(out, b" ")?;
        push_bytes(out, role.name.as_bytes())?;
    }
    Ok(())
}

// Appends the protocol's full name, its roles as they are declared, and an LF: `orders.Order Client Orders`.
#[tactic(auto, unfolding(crate::specs::Protocols::protocol_line))]
pub(crate) fn push_protocol_line(
    out: &mut Vec<u8>,
    home: &Dotted,
    protocol: &ProtocolDeclaration,
) -> Result<(), AllocError>
    ensures { OnOk result (out.new.items ≡ out.old.items ++ protocols.protocol_line home.now protocol.now) }
{
    push_full_name(out, home, &protocol.name)?;
    push_roles(out, protocol.roles.as_slice())?;
    push_bytes(out, b"\n")
}
