//! The JSON object of a protocol.

ghost use Rattle.std.specs.Prelude.{◌≡◌, ◌++◌, ◌∷◌, [], IfOk, OnOk};
ghost use Rattle.serde_json.specs.Data.{string};
ghost use Rattle.serde_json.specs.View.{view};
ghost use Rattle.serde_json.specs.Written.{compact_text};
ghost use Rattle.scrib_list.specs.Protocols as protocols;

use crate::protocol_line::push_full_name;
use scrib_tree::tree::{ProtocolDeclaration, RoleDeclaration};
use scrib_types::name::{Dotted, Name};
use scrib_types::text::push_bytes;
use serde_json::{Value, json};
use std::alloc::{AllocError, Global};

// A text as a JSON string. Each text here is ASCII, since names are. No contract of a name has that fact, so the text
// is checked to be UTF-8. It fails where memory is refused, as do the functions below.
fn text_value(text: Vec<u8>) -> Result<Value, AllocError>
    ensures { IfOk result (λ value. view value ≡ string text.items) }
{
    match String::from_utf8(text) {
        Ok(text) => Ok(Value::String(text)),
        Err(_) => Err(AllocError),
    }
}

fn full_name_value(alloc: Global, home: &Dotted, name: &Name) -> Result<Value, AllocError>
    ensures { IfOk result (λ value. view value ≡ string (protocols.full_name home.now name.now)) }
{
    let mut text = Vec::new(alloc);
    push_full_name(&mut text, home, name)?;
    text_value(text)
}

fn role_value(alloc: Global, role: &RoleDeclaration) -> Result<Value, AllocError>
    ensures { IfOk result (λ value. view value ≡ protocols.role_item role.now) }
{
    text_value(Vec::from_slice(alloc, role.name.as_bytes())?)
}

fn roles_value(alloc: Global, roles: &[RoleDeclaration]) -> Result<Value, AllocError>
    ensures { IfOk result (λ value. view value ≡ protocols.roles_array roles.now) }
{
    let mut values = Vec::new(alloc);
    for role in roles {
        values.push(role_value(alloc, role)?)?;
    }
    Ok(Value::Array(values))
}

#[tactic(auto, unfolding(crate::specs::Protocols::protocol_object))]
fn protocol_value(
    alloc: Global,
    home: &Dotted,
    protocol: &ProtocolDeclaration,
) -> Result<Value, AllocError>
    ensures { IfOk result (λ value. view value ≡ protocols.protocol_object home.now protocol.now) }
{
    let name = full_name_value(alloc, home, &protocol.name)?;
    let roles = roles_value(alloc, protocol.roles.as_slice())?;
    json!(in alloc; {"protocol": name, "roles": roles})
}

#[tactic(auto, using(crate::proofs::NoFloats::protocol_has_no_float))]
fn protocol_json(
    alloc: Global,
    home: &Dotted,
    protocol: &ProtocolDeclaration,
) -> Result<Vec<u8>, AllocError>
    ensures { IfOk result (λ text. text.items ≡ compact_text (protocols.protocol_object home.now protocol.now)) }
{
    protocol_value(alloc, home, protocol)?.to_vec(alloc)
}

// Appends the protocol's object and an LF: `{"protocol":"orders.Order","roles":["Client","Orders"]}`.
pub(crate) fn push_protocol_object(
    out: &mut Vec<u8>,
    home: &Dotted,
    protocol: &ProtocolDeclaration,
) -> Result<(), AllocError>
    ensures { OnOk result (out.new.items
        ≡ out.old.items ++ (compact_text (protocols.protocol_object home.now protocol.now) ++ 10 ∷ [])) }
{
    let text = protocol_json(*out.allocator(), home, protocol)?;
    push_bytes(out, text.as_slice())?;
    push_bytes(out, b"\n")
}
