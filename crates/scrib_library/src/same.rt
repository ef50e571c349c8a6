//! Whether two modules are equal, their positions in the text included. The contracts promise only that modules
//! reported equal are equal.

ghost use Rattle.std.specs.Prelude.{◌≡◌, IsTrue};

use scrib_tree::tree::{
    Block, Import, ModuleTree, ProtocolDeclaration, RoleDeclaration, Statement,
};
use scrib_types::message::operators_equal;
use scrib_types::name::names_equal;

/// Whether the two modules are equal.
pub fn same_module(a: &ModuleTree, b: &ModuleTree) -> bool
    ensures { IsTrue result → a.now ≡ b.now }
{
    a.name.equal(&b.name)
        && same_imports(a.imports.as_slice(), b.imports.as_slice())
        && same_protocols(a.protocols.as_slice(), b.protocols.as_slice())
}

fn same_imports(a: &[Import], b: &[Import]) -> bool
    ensures { IsTrue result → a.now ≡ b.now }
{
    if a.len() != b.len() {
        return false;
    }
    for i in 0..a.len() {
        if !same_import(&a[i], &b[i]) {
            return false;
        }
    }
    true
}

fn same_import(a: &Import, b: &Import) -> bool
    ensures { IsTrue result → a.now ≡ b.now }
{
    a.spot == b.spot && a.module.equal(&b.module) && operators_equal(&a.known_as, &b.known_as)
}

fn same_protocols(a: &[ProtocolDeclaration], b: &[ProtocolDeclaration]) -> bool
    ensures { IsTrue result → a.now ≡ b.now }
{
    if a.len() != b.len() {
        return false;
    }
    for i in 0..a.len() {
        if !same_protocol(&a[i], &b[i]) {
            return false;
        }
    }
    true
}

fn same_protocol(a: &ProtocolDeclaration, b: &ProtocolDeclaration) -> bool
    ensures { IsTrue result → a.now ≡ b.now }
{
    a.spot == b.spot
        && a.name.equal(&b.name)
        && same_roles(a.roles.as_slice(), b.roles.as_slice())
        && same_statements(a.body.as_slice(), b.body.as_slice())
}

fn same_roles(a: &[RoleDeclaration], b: &[RoleDeclaration]) -> bool
    ensures { IsTrue result → a.now ≡ b.now }
{
    if a.len() != b.len() {
        return false;
    }
    for i in 0..a.len() {
        if a[i].spot != b[i].spot || !a[i].name.equal(&b[i].name) {
            return false;
        }
    }
    true
}

#[cycle(same)]
fn same_statements(a: &[Statement], b: &[Statement]) -> bool
    ensures { IsTrue result → a.now ≡ b.now }
{
    if a.len() != b.len() {
        return false;
    }
    for i in 0..a.len() {
        if !same_statement(&a[i], &b[i]) {
            return false;
        }
    }
    true
}

#[cycle(same)]
fn same_blocks(a: &[Block], b: &[Block]) -> bool
    ensures { IsTrue result → a.now ≡ b.now }
{
    if a.len() != b.len() {
        return false;
    }
    for i in 0..a.len() {
        let x = &a[i];
        let y = &b[i];
        if x.spot != y.spot {
            return false;
        }
        if !same_statements(x.body.as_slice(), y.body.as_slice()) {
            return false;
        }
    }
    true
}

#[cycle(same)]
fn same_statement(a: &Statement, b: &Statement) -> bool
    ensures { IsTrue result → a.now ≡ b.now }
{
    match (a, b) {
        (
            Statement::Message {
                message: m,
                from: p,
                to: ps,
                spot: s,
            },
            Statement::Message {
                message: n,
                from: q,
                to: qs,
                spot: t,
            },
        ) => s == t && m.equal(n) && p.equal(q) && names_equal(ps.as_slice(), qs.as_slice()),
        (
            Statement::Choice {
                at: p,
                branches: bs,
                spot: s,
            },
            Statement::Choice {
                at: q,
                branches: cs,
                spot: t,
            },
        ) => {
            if s != t || !p.equal(q) {
                return false;
            }
            same_blocks(bs.as_slice(), cs.as_slice())
        }
        (
            Statement::Rec {
                name: x,
                body: b,
                spot: s,
            },
            Statement::Rec {
                name: y,
                body: c,
                spot: t,
            },
        ) => {
            if s != t || !x.equal(y) {
                return false;
            }
            same_statements(b.as_slice(), c.as_slice())
        }
        (Statement::Continue { name: x, spot: s }, Statement::Continue { name: y, spot: t }) => {
            s == t && x.equal(y)
        }
        (
            Statement::Do {
                protocol: d,
                roles: ps,
                spot: s,
            },
            Statement::Do {
                protocol: e,
                roles: qs,
                spot: t,
            },
        ) => s == t && d.equal(e) && names_equal(ps.as_slice(), qs.as_slice()),
        _ => false,
    }
}
