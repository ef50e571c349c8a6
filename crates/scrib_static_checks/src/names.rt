//! Comparison and look-up of names.

ghost use Rattle.std.specs.Prelude.{◌≡◌};
ghost use Rattle.scrib_types.specs.WellFormed.{has_role, distinct_roles};
ghost use Rattle.scrib_static_checks.specs.Names.{dotted_eq, has_name, module_names, role_names};
ghost use Rattle.scrib_static_checks.specs.Statements.{are_roles};

use scrib_tree::tree::{ModuleTree, RoleDeclaration};
use scrib_types::name::{Dotted, Name, Role, names_equal};

/// Returns whether the two are equal.
pub fn same_name(a: &Dotted, b: &Dotted) -> bool
    ensures { result ≡ dotted_eq a.now b.now }
{
    a.equal(b)
}

/// Returns whether the two lists of names are equal.
pub fn same_names(a: &[Name], b: &[Name]) -> bool
    ensures { result ≡ dotted_eq a.now b.now }
{
    names_equal(a, b)
}

/// Returns whether there is a module of this name.
pub fn has_module(modules: &[ModuleTree], name: &Dotted) -> bool
    ensures { result ≡ has_name name.now (module_names modules.now) }
{
    for tree in modules {
        if same_name(name, &tree.name) {
            return true;
        }
    }
    false
}

/// Returns whether a role of this name is declared.
pub fn has_role(roles: &[RoleDeclaration], name: &Role) -> bool
    ensures { result ≡ has_role name.now (role_names roles.now) }
{
    for role in roles {
        if name.equal(&role.name) {
            return true;
        }
    }
    false
}

/// Returns whether roles of all these names are declared.
pub fn are_roles(names: &[Role], roles: &[RoleDeclaration]) -> bool
    ensures { result ≡ are_roles names.now (role_names roles.now) }
{
    for name in names {
        if !has_role(roles, name) {
            return false;
        }
    }
    true
}

/// Returns whether the name is one of these.
pub fn is_among(names: &[Role], name: &Role) -> bool
    ensures { result ≡ has_role name.now names.now }
{
    for other in names {
        if name.equal(other) {
            return true;
        }
    }
    false
}

/// Returns whether all names are different.
pub fn are_different(names: &[Role]) -> bool
    ensures { result ≡ distinct_roles names.now }
{
    for (i, name) in names.iter().enumerate() {
        if is_among(&names[i + 1..], name) {
            return false;
        }
    }
    true
}
