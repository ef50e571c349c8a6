//! The names that are checked when the walk enters a protocol.

ghost use Rattle.std.specs.Prelude.{◌≡◌, ◌≤◌, true, length, MatchResult};
ghost use Rattle.scrib_static_checks.specs.declared.fault.FaultKind.TheVariants.{TwiceDeclared};
ghost use Rattle.scrib_types.specs.WellFormed.{has_role, distinct_roles};
ghost use Rattle.scrib_static_checks.specs.Names.{HasOwnNames, has_name, distinct_names, has_checked_names, known_by, import_names, protocol_names, role_names};
ghost use Rattle.scrib_static_checks.specs.Table.{IsImportAgain, IsProtocolAgain, FailsRoles, FailsNames};

use crate::checking::BrokenRule;
use crate::fault::FaultKind;
use crate::names::{has_role, same_names};
use scrib_tree::tree::{Import, ModuleTree, ProtocolDeclaration};
use scrib_types::name::Name;
use scrib_types::spot::Spot;

/// The largest number of roles of a protocol.
pub const MAX_ROLES: usize = 64;

/// The largest number of imports, and of protocols, of a module whose names are compared when it is added.
pub const MAX_CHECKED: usize = 1024;

/// Returns whether the module's imports are known by different names, and its protocols have different names. A module
/// with more than `MAX_CHECKED` of either is not compared here, so that refusing it for another reason is cheap.
pub fn has_checked_names(home: &ModuleTree) -> bool
    ensures { result ≡ has_checked_names home.now }
{
    if home.imports.len() > MAX_CHECKED || home.protocols.len() > MAX_CHECKED {
        return false;
    }
    check_imports(home).is_ok() && check_protocols(home).is_ok()
}

/// Checks the names of the module's imports and protocols and of the protocol's roles, in this order. If the module's
/// names are already checked, it checks only those of the roles.
///
/// # Errors
/// `TwiceDeclared` at the first name that occurs twice, and `TooManyRoles` at the 65th role.
pub fn check_own_names(
    home: &ModuleTree,
    protocol: &ProtocolDeclaration,
    names_checked: bool,
) -> Result<(), BrokenRule>
    requires { names_checked ≡ has_checked_names home.now }
    ensures { MatchResult result
        (λ _. HasOwnNames (record { home = home.now; protocol = protocol.now }))
        (FailsNames (record { home = home.now; protocol = protocol.now })) }
{
    if names_checked {
        return check_roles(protocol);
    }
    if let Err(spot) = check_imports(home) {
        return Err(twice(spot));
    }
    if let Err(spot) = check_protocols(home) {
        return Err(twice(spot));
    }
    check_roles(protocol)
}

fn twice(spot: Spot) -> BrokenRule
    ensures { result ≡ record { kind = TwiceDeclared; spot = spot } }
{
    BrokenRule {
        kind: FaultKind::TwiceDeclared,
        spot,
    }
}

fn check_imports(home: &ModuleTree) -> Result<(), Spot>
    ensures { MatchResult result
        (λ _. distinct_names (import_names home.now.imports) ≡ true)
        (IsImportAgain home.now) }
{
    let imports = home.imports.as_slice();
    for (i, import) in imports.iter().enumerate() {
        if has_import(&imports[..i], known_by(import)) {
            return Err(import.spot);
        }
    }
    Ok(())
}

fn check_protocols(home: &ModuleTree) -> Result<(), Spot>
    ensures { MatchResult result
        (λ _. distinct_roles (protocol_names home.now.protocols) ≡ true)
        (IsProtocolAgain home.now) }
{
    let protocols = home.protocols.as_slice();
    for (i, protocol) in protocols.iter().enumerate() {
        if has_protocol(&protocols[..i], &protocol.name) {
            return Err(protocol.spot);
        }
    }
    Ok(())
}

fn check_roles(protocol: &ProtocolDeclaration) -> Result<(), BrokenRule>
    ensures { MatchResult result
        (λ _. (length protocol.now.roles ≤ 64) × (distinct_roles (role_names protocol.now.roles) ≡ true))
        (FailsRoles protocol.now) }
{
    let roles = protocol.roles.as_slice();
    for (i, role) in roles.iter().enumerate() {
        if i >= MAX_ROLES {
            return Err(BrokenRule {
                kind: FaultKind::TooManyRoles,
                spot: role.spot,
            });
        }
        if has_role(&roles[..i], &role.name) {
            return Err(twice(role.spot));
        }
    }
    Ok(())
}

// The name by which the module knows the import.
fn known_by(import: &Import) -> &[Name]
    ensures { result.now ≡ known_by import.now }
{
    match &import.known_as {
        Some(name) => std::slice::from_ref(name),
        None => import.module.as_slice(),
    }
}

fn has_import(imports: &[Import], name: &[Name]) -> bool
    ensures { result ≡ has_name name.now (import_names imports.now) }
{
    for import in imports {
        if same_names(name, known_by(import)) {
            return true;
        }
    }
    false
}

fn has_protocol(protocols: &[ProtocolDeclaration], name: &Name) -> bool
    ensures { result ≡ has_role name.now (protocol_names protocols.now) }
{
    for protocol in protocols {
        if name.equal(&protocol.name) {
            return true;
        }
    }
    false
}
