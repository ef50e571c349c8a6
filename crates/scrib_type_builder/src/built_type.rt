//! Types of statements, built from the last statement to the first.

ghost use Rattle.std.specs.Prelude.{◌≡◌, ◌-◌, [], ◌∷◌, IfOk, MatchResult};
ghost use Rattle.scrib_types.specs.GlobalView.{global_of};
ghost use Rattle.scrib_types.specs.Trees.{GlobalEnd, GlobalVar, Comm, Branch, NoBranch};
ghost use Rattle.scrib_types.specs.WellFormed.{leads_to_communication};
ghost use Rattle.scrib_static_checks.specs.Names.{role_names};
ghost use Rattle.scrib_static_checks.specs.Elaboration.{given_for, prefix_message};
ghost use Rattle.scrib_type_builder.specs.Shifting.{shifted};
ghost use Rattle.scrib_type_builder.specs.Renaming.{renamed, named};
ghost use Rattle.scrib_type_builder.specs.BuiltType.{type_of, add_no_origins, with_origin};
ghost use Rattle.scrib_type_builder.specs.Rules.{IsClosed, IsUnguardedBody};

use crate::build_error::{BuildError, Refused, broken};
use crate::renamed::renamed;
use crate::shift::shifted;
use scrib_static_checks::fault::FaultKind;
use scrib_tree::tree::{ModuleTree, RoleDeclaration};
use scrib_types::containers::{Boxed, Items};
use scrib_types::global::GlobalType;
use scrib_types::name::Role;
use scrib_types::shared_message::SharedMessage;
use scrib_types::spot::Spot;
use std::alloc::{AllocError, Global};

/// A choice: its module, and its position in the module's text.
#[derive(Clone, Copy, Drop)]
pub struct Origin<'a> {
    pub home: &'a ModuleTree,
    pub spot: Spot,
}

/// The type of statements. For each of its communications with several branches, in post-order, it has the outermost
/// choice that the communication comes from.
#[derive(Drop)]
pub struct BuiltType<'a> {
    pub global: GlobalType,
    pub origins: Vec<Option<Origin<'a>>>,
}

impl<'a> BuiltType<'a> {
    /// Returns the type of no statement.
    #[tactic(auto, using(scrib_types::specs::GlobalView::global_views))]
    pub fn end(alloc: Global) -> BuiltType<'a>
        ensures global { type_of result ≡ GlobalEnd }
        ensures origins { result.origins.items ≡ [] }
    {
        BuiltType {
            global: GlobalType::End,
            origins: Vec::new(alloc),
        }
    }

    /// Returns the type of a `continue`.
    #[tactic(auto, using(scrib_types::specs::GlobalView::global_views))]
    pub fn variable(alloc: Global, index: u32) -> BuiltType<'a>
        ensures global { type_of result ≡ GlobalVar index }
        ensures origins { result.origins.items ≡ [] }
    {
        BuiltType {
            global: GlobalType::Var(index),
            origins: Vec::new(alloc),
        }
    }

    /// Returns a copy.
    ///
    /// # Errors
    /// `AllocError` where memory was refused.
    pub fn copy(&self, alloc: Global) -> Result<BuiltType<'a>, AllocError>
        ensures global { IfOk result (λ t. type_of t ≡ type_of self.now) }
        ensures origins { IfOk result (λ t. t.origins.items ≡ self.now.origins.items) }
    {
        let global = GlobalType::copy(alloc, &self.global)?;
        let origins = Vec::from_slice(alloc, &self.origins)?;
        Ok(BuiltType { global, origins })
    }

    /// Returns the type under one more recursion (a de Bruijn shift).
    ///
    /// # Errors
    /// `Refused` where memory was refused.
    pub fn shifted(&self, alloc: Global) -> Result<BuiltType<'a>, Refused>
        ensures global { IfOk result (λ t. type_of t ≡ shifted 0 (type_of self.now)) }
        ensures origins { IfOk result (λ t. t.origins.items ≡ self.now.origins.items) }
    {
        let global = shifted(alloc, &self.global, 0)?;
        let origins = Vec::from_slice(alloc, &self.origins)?;
        Ok(BuiltType { global, origins })
    }

    /// Returns the type with each declared role replaced by the role that is passed for it.
    ///
    /// # Errors
    /// `AllocError` where memory was refused.
    pub fn renamed(
        &self,
        alloc: Global,
        declared: &[RoleDeclaration],
        given: &[&Role],
    ) -> Result<BuiltType<'a>, AllocError>
        ensures global { IfOk result (λ t. type_of t
            ≡ renamed (given_for (role_names declared.now) (named given.now)) (type_of self.now)) }
        ensures origins { IfOk result (λ t. t.origins.items ≡ self.now.origins.items) }
    {
        let global = renamed(alloc, declared, given, &self.global)?;
        let origins = Vec::from_slice(alloc, &self.origins)?;
        Ok(BuiltType { global, origins })
    }

    /// Returns the recursion at this position whose body has this type.
    ///
    /// # Errors
    /// `Broken` with `Unguarded` where the body does not begin with a communication, after recursions. `OutOfMemory`
    /// where memory was refused.
    #[tactic(auto, using(scrib_types::specs::GlobalView::global_views))]
    pub fn close_recursion(
        self,
        alloc: Global,
        home: &'a ModuleTree,
        spot: Spot,
    ) -> Result<BuiltType<'a>, BuildError<'a>>
        ensures { MatchResult result (IsClosed self.entry) (IsUnguardedBody home.now spot (type_of self.entry)) }
    {
        if !leads_to_communication(&self.global) {
            return Err(broken(home, FaultKind::Unguarded, spot));
        }
        let BuiltType { global, origins } = self;
        let global = GlobalType::Rec(Boxed::new(alloc, global)?);
        Ok(BuiltType { global, origins })
    }

    /// Returns the same type, with this choice as the origin of the communication in front, if that has several
    /// branches.
    pub fn with_origin(self, origin: Origin<'a>) -> BuiltType<'a>
        ensures global { type_of result ≡ type_of self.entry }
        ensures origins { result.origins.items ≡ with_origin origin.entry self.entry.origins.items }
    {
        let BuiltType {
            global,
            mut origins,
        } = self;
        if !origins.is_empty() {
            let front = origins.len() - 1;
            if origins[front].is_some() {
                origins[front] = Some(origin);
            }
        }
        BuiltType { global, origins }
    }

    /// Returns the type with one message in front.
    ///
    /// # Errors
    /// `AllocError` where memory was refused.
    pub fn prefix_message(
        self,
        alloc: Global,
        message: &SharedMessage,
        from: &Role,
        to: &Role,
    ) -> Result<BuiltType<'a>, AllocError>
        ensures global { IfOk result (λ t. type_of t
            ≡ prefix_message message.now from.now (to.now ∷ []) (type_of self.entry)) }
        ensures origins { IfOk result (λ t. t.origins.items ≡ add_no_origins (to.now ∷ []) self.entry.origins.items) }
    {
        let BuiltType {
            global,
            mut origins,
        } = self;
        let global = communication(alloc, message, from, to, global)?;
        origins.push(None)?;
        Ok(BuiltType { global, origins })
    }
}

// Returns whether the type begins with a communication, after recursions.
#[tactic(auto, using(scrib_types::specs::GlobalView::global_views))]
fn leads_to_communication(global: &GlobalType) -> bool
    ensures { result ≡ leads_to_communication (global_of global.now) }
{
    match global {
        GlobalType::End => false,
        GlobalType::Var(_) => false,
        GlobalType::Rec(body) => leads_to_communication(body.get()),
        GlobalType::Comm { .. } => true,
    }
}

fn communication(
    alloc: Global,
    message: &SharedMessage,
    from: &Role,
    to: &Role,
    follows: GlobalType,
) -> Result<GlobalType, AllocError>
    ensures { IfOk result (λ g. global_of g ≡ Comm from.now to.now (Branch message.now (global_of follows) NoBranch)) }
{
    let from = from.copy()?;
    let to = to.copy()?;
    let message = message.copy()?;
    let mut branches = Vec::with_capacity(alloc, 1)?;
    branches.push((message, follows))?;
    let branches = Items::from_vec(branches);
    Ok(GlobalType::Comm { from, to, branches })
}
