//! The scopes of statements while the type of a protocol is built.

ghost use Rattle.std.specs.Prelude.{◌≡◌, ◌∷◌, map, IfOk};
ghost use Rattle.scrib_static_checks.specs.Names.{role_names};
ghost use Rattle.scrib_static_checks.specs.Elaboration.{role_in, level_of};
ghost use Rattle.scrib_static_checks.specs.Table.{declaration_of};
ghost use Rattle.scrib_type_builder.specs.Renaming.{named};
ghost use Rattle.scrib_elaborate.specs.Scope.{scope_of, levels_of, IsStart, IsSameScope, IsInsideRecursion, IsInsideCall};

use scrib_static_checks::declared::Declaration;
use scrib_tree::tree::RoleDeclaration;
use scrib_type_builder::build_error::{Refused, next_depth};
use scrib_type_builder::renamed::given_for;
use scrib_types::name::{Name, Role};
use std::alloc::{AllocError, Global};

/// A recursion around statements, and the number of recursions around it in the type.
#[derive(Clone, Copy, Drop)]
pub struct Level<'a> {
    pub name: &'a Name,
    pub level: u32,
}

/// The scope of statements: their protocol, and the roles that are passed for its roles by position. It also has the
/// recursions around them in the protocol, the innermost first, and the number of recursions around them in the type.
#[derive(Drop)]
pub struct Scope<'a> {
    pub within: Declaration<'a>,
    pub given: Vec<&'a Role>,
    pub recs: Vec<Level<'a>>,
    pub depth: u32,
}

impl<'a> Scope<'a> {
    /// Returns the scope of the requested protocol's statements.
    ///
    /// # Errors
    /// `AllocError` where memory was refused.
    pub fn start(alloc: Global, root: Declaration<'a>) -> Result<Scope<'a>, AllocError>
        ensures { IfOk result (IsStart (declaration_of root.entry)) }
    {
        let given = role_names(alloc, root.protocol.roles.as_slice())?;
        Ok(Scope {
            within: root,
            given,
            recs: Vec::new(alloc),
            depth: 0,
        })
    }

    /// Returns a copy.
    ///
    /// # Errors
    /// `AllocError` where memory was refused.
    pub fn copy(&self, alloc: Global) -> Result<Scope<'a>, AllocError>
        ensures { IfOk result (IsSameScope self.now) }
    {
        let given = Vec::from_slice(alloc, &self.given)?;
        let recs = Vec::from_slice(alloc, &self.recs)?;
        Ok(Scope {
            within: self.within,
            given,
            recs,
            depth: self.depth,
        })
    }

    /// Returns the scope inside a recursion of this name.
    ///
    /// # Errors
    /// `Refused` where memory was refused.
    pub fn inside(&self, alloc: Global, name: &'a Name) -> Result<Scope<'a>, Refused>
        ensures { IfOk result (IsInsideRecursion self.now name.now) }
    {
        let given = Vec::from_slice(alloc, &self.given)?;
        let recs = one_more(alloc, &self.recs, name, self.depth)?;
        let depth = next_depth(self.depth)?;
        Ok(Scope {
            within: self.within,
            given,
            recs,
            depth,
        })
    }

    /// Returns the scope inside a protocol that is called with these roles.
    ///
    /// # Errors
    /// `AllocError` where memory was refused.
    pub fn inside_call(
        &self,
        alloc: Global,
        callee: Declaration<'a>,
        roles: &'a [Role],
    ) -> Result<Scope<'a>, AllocError>
        ensures { IfOk result (IsInsideCall self.now (declaration_of callee.entry) roles.now) }
    {
        let given = self.roles(alloc, roles)?;
        Ok(Scope {
            within: callee,
            given,
            recs: Vec::new(alloc),
            depth: self.depth,
        })
    }

    /// Returns the roles that are passed for these.
    ///
    /// # Errors
    /// `AllocError` where memory was refused.
    pub fn roles(&self, alloc: Global, roles: &'a [Role]) -> Result<Vec<&'a Role>, AllocError>
        ensures { IfOk result (λ given. named given.items ≡ map (role_in (scope_of self.now)) roles.now) }
    {
        let mut given = Vec::with_capacity(alloc, roles.len())?;
        for role in roles {
            given.push(self.role(role))?;
        }
        Ok(given)
    }

    /// Returns the role that is passed for this one.
    pub fn role(&self, role: &'a Role) -> &'a Role
        ensures { result.now ≡ role_in (scope_of self.now) role.now }
    {
        given_for(self.within.protocol.roles.as_slice(), &self.given, role)
    }

    /// Returns how many recursions are around the one of this name.
    pub fn level_of(&self, name: &Name) -> Option<u32>
        ensures { result ≡ level_of name.now (scope_of self.now).recs }
    {
        for rec in &self.recs {
            if name.equal(rec.name) {
                return Some(rec.level);
            }
        }
        None
    }
}

// Returns the names of roles, in order.
fn role_names<'a>(alloc: Global, roles: &'a [RoleDeclaration]) -> Result<Vec<&'a Role>, AllocError>
    ensures { IfOk result (λ names. named names.items ≡ role_names roles.now) }
{
    let mut names = Vec::with_capacity(alloc, roles.len())?;
    for role in roles {
        names.push(&role.name)?;
    }
    Ok(names)
}

// Returns the recursions with one more inside them.
fn one_more<'a>(
    alloc: Global,
    recs: &[Level<'a>],
    name: &'a Name,
    level: u32,
) -> Result<Vec<Level<'a>>, AllocError>
    ensures { IfOk result (λ more. levels_of more.items ≡ (name.now, level) ∷ levels_of recs.now) }
{
    let mut more = Vec::new(alloc);
    more.push(Level { name, level })?;
    for rec in recs {
        more.push(*rec)?;
    }
    Ok(more)
}
