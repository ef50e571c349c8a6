//! The branches of a choice, which its blocks contribute one after the other.

ghost use Rattle.std.specs.Prelude.{◌≡◌, ◌↔◌, IsTrue, IfErr, OnOk};
ghost use Rattle.scrib_types.specs.GlobalView.{global_branches};
ghost use Rattle.scrib_static_checks.specs.Faults.{share_operator};
ghost use Rattle.scrib_type_builder.specs.Operators.{AreIndexed};
ghost use Rattle.scrib_type_builder.specs.BuiltType.{type_of};
ghost use Rattle.scrib_type_builder.specs.Rules.{AddsOrigins, IsFirst, IsAdded, IsBranchFault};

use crate::build_error::{BuildError, broken};
use crate::built_type::{BuiltType, Origin};
use crate::operators::Operators;
use scrib_static_checks::fault::FaultKind;
use scrib_tree::tree::ModuleTree;
use scrib_types::containers::Items;
use scrib_types::global::GlobalType;
use scrib_types::name::Role;
use scrib_types::shared_message::SharedMessage;
use scrib_types::spot::Spot;

/// The branches of the first blocks of a choice, and their common receiver. It also has an index of the branches by
/// operator, and the origins of the communications inside.
#[derive(Drop)]
pub struct ChoiceBranches<'a> {
    pub receiver: Option<Role>,
    pub branches: Items<(SharedMessage, GlobalType)>,
    pub operators: Operators,
    pub origins: Vec<Option<Origin<'a>>>,
}

/// Adds the branches of the next block, which is at `spot` and has the type `typed`.
///
/// # Errors
/// `Broken` at `spot`, with the first of these that applies. `EmptyBranch`, `ContinueHead` or `RecHead`: the type does
/// not begin with a communication. `NotChooser`: that has another sender than the chooser. `TwoReceivers` or
/// `SameOperator`: it does not fit the blocks so far. `OutOfMemory` where memory was refused. After an error, `so_far`
/// is not specified.
pub fn add_branch<'a>(
    home: &'a ModuleTree,
    chooser: &Role,
    spot: Spot,
    so_far: &mut ChoiceBranches<'a>,
    typed: BuiltType<'a>,
) -> Result<(), BuildError<'a>>
    requires { AreIndexed so_far.old.branches so_far.old.operators.latest.items so_far.old.operators.earlier.items }
    ensures ok { OnOk result (IsAdded chooser.now so_far.old.receiver so_far.new.receiver
        (global_branches so_far.old.branches) (global_branches so_far.new.branches) (type_of typed.entry)) }
    ensures indexed { OnOk result (AreIndexed so_far.new.branches so_far.new.operators.latest.items
        so_far.new.operators.earlier.items) }
    ensures origins { OnOk result (AddsOrigins so_far.old.origins.items so_far.new.origins.items typed.entry.origins.items) }
    ensures fault { IfErr result (IsBranchFault home.now spot chooser.now so_far.old.receiver
        (global_branches so_far.old.branches) (type_of typed.entry)) }
{
    let BuiltType {
        global,
        mut origins,
    } = typed;
    match global {
        GlobalType::End => Err(broken(home, FaultKind::EmptyBranch, spot)),
        GlobalType::Var(_) => Err(broken(home, FaultKind::ContinueHead, spot)),
        GlobalType::Rec(_) => Err(broken(home, FaultKind::RecHead, spot)),
        GlobalType::Comm { from, to, branches } => {
            if !from.equal(chooser) {
                return Err(broken(home, FaultKind::NotChooser, spot));
            }
            if !is_first(&so_far.receiver, &to) {
                return Err(broken(home, FaultKind::TwoReceivers, spot));
            }
            if share_operator(so_far, branches.as_slice()) {
                return Err(broken(home, FaultKind::SameOperator, spot));
            }
            so_far.branches.append(branches)?;
            so_far.operators.add_new(so_far.branches.as_slice())?;
            so_far.receiver = Some(to);
            // The choice as a whole has one origin, which its last step adds.
            origins.pop();
            so_far.origins.append(&mut origins)?;
            Ok(())
        }
    }
}

// Returns whether there is no receiver so far, or it is this one.
fn is_first(receiver: &Option<Role>, to: &Role) -> bool
    ensures { IsTrue result ↔ IsFirst receiver.now to.now }
{
    match receiver {
        None => true,
        Some(first) => first.equal(to),
    }
}

// Returns whether these branches share an operator with those so far.
fn share_operator(first: &ChoiceBranches, other: &[(SharedMessage, GlobalType)]) -> bool
    requires { AreIndexed first.now.branches first.now.operators.latest.items first.now.operators.earlier.items }
    ensures { result ≡ share_operator (global_branches first.now.branches) (global_branches other.now) }
{
    for (message, _) in other {
        if first
            .operators
            .has(&message.get().op, first.branches.as_slice())
        {
            return true;
        }
    }
    false
}
