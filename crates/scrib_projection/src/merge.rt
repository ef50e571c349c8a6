//! The merge of a communication's branches, for a role that is neither its sender nor its receiver.

ghost use Rattle.std.specs.Prelude.{◌≡◌, Option, Some, IfOk, option_map};
ghost use Rattle.scrib_types.specs.declared.message.Message.{Message};
ghost use Rattle.scrib_types.specs.Trees.{LocalBranches, NoChoice};
ghost use Rattle.scrib_types.specs.LocalView.{local_of, local_branches};
ghost use Rattle.scrib_types.specs.Projection.{merged_from, merged_receptions, merged_two, with_choice};
ghost use Rattle.scrib_types.specs.Same.{same_local};
ghost use Rattle.scrib_projection.specs.Merging.{merged_after, differ_after};

use crate::alternatives::{merged_alternatives, same};
use scrib_types::containers::Items;
use scrib_types::local::Local;
use scrib_types::name::Role;
use scrib_types::profile::Profile;
use scrib_types::shared_message::SharedMessage;
use std::alloc::{AllocError, Global};

/// The merge of some branches.
#[derive(Drop)]
pub enum Merge {
    /// There is no branch.
    Empty,
    /// They merge to this type.
    One(Local),
    /// Each has a projection, and they don't merge.
    Differ,
    /// Some branch has no projection.
    Undefined,
}

impl Merge {
    ghost use Rattle.std.specs.Prelude.{◌≡◌, Option, Some, IfOk, option_map};
    ghost use Rattle.scrib_types.specs.declared.message.Message.{Message};
    ghost use Rattle.scrib_types.specs.declared.profile.Profile.{Profile};
    ghost use Rattle.scrib_types.specs.Trees.{LocalBranches, NoChoice};
    ghost use Rattle.scrib_types.specs.LocalView.{local_of};
    ghost use Rattle.scrib_types.specs.Projection.{with_choice};
    ghost use Rattle.scrib_projection.specs.Merging.{merge_of, merged_after, differ_after};

    /// The merge of one branch, which has this projection, or none.
    pub fn of(branch: Option<Local>) -> Merge
        ensures { result ≡ merge_of branch }
    {
        match branch {
            Some(local) => Merge::One(local),
            None => Merge::Undefined,
        }
    }

    /// The merge with one more branch, which has this projection, or none.
    ///
    /// # Errors
    /// `AllocError` where memory is refused.
    pub fn with(
        self,
        alloc: Global,
        profile: Profile,
        branch: Option<Local>,
    ) -> Result<Merge, AllocError>
        ensures merged { IfOk result (λ now. (m : Message) (rest : Option LocalBranches) → merged_after profile now rest
            ≡ merged_after profile self (with_choice m (option_map local_of branch) rest)) }
        ensures differ { IfOk result (λ now. (m : Message) (rest : Option LocalBranches) → differ_after profile now rest
            ≡ differ_after profile self (with_choice m (option_map local_of branch) rest)) }
    {
        match (self, branch) {
            (Merge::Undefined, _) | (_, None) => Ok(Merge::Undefined),
            (Merge::Empty, Some(local)) => Ok(Merge::One(local)),
            (Merge::One(first), Some(local)) => {
                let both = merged_two(alloc, profile, first, &local)?;
                match both {
                    Some(merged) => Ok(Merge::One(merged)),
                    None => Ok(Merge::Differ),
                }
            }
            (Merge::Differ, Some(_)) => Ok(Merge::Differ),
        }
    }

    /// Whether each branch has a projection, and they don't merge.
    pub fn differs(&self) -> bool
        ensures { (profile : Profile) → result ≡ differ_after profile self.now (Some NoChoice) }
    {
        matches!(self, Merge::Differ)
    }

    /// The one type of all branches, if there is one.
    pub fn into_local(self) -> Option<Local>
        ensures { (profile : Profile) → option_map local_of result ≡ merged_after profile self (Some NoChoice) }
    {
        match self {
            Merge::One(local) => Some(local),
            _ => None,
        }
    }
}

// The merge of two branches, if they merge.
fn merged_two(
    alloc: Global,
    profile: Profile,
    first: Local,
    second: &Local,
) -> Result<Option<Local>, AllocError>
    ensures { IfOk result (λ o. option_map local_of o ≡ merged_two profile (local_of first) (local_of second.now)) }
{
    if same(&first, second) {
        return Ok(Some(first));
    }
    match profile {
        Profile::Plain => Ok(None),
        Profile::Reception => merged_receptions(alloc, first, second),
    }
}

// The merge of two receptions from the same sender, if their alternatives fit.
#[tactic(auto, using(scrib_types::specs::LocalView::local_views))]
fn merged_receptions(
    alloc: Global,
    first: Local,
    second: &Local,
) -> Result<Option<Local>, AllocError>
    ensures { IfOk result (λ o. option_map local_of o ≡ merged_receptions (local_of first) (local_of second.now)) }
{
    match first {
        Local::Recv { from, branches } => {
            let merged = merged_from(alloc, from, branches, second)?;
            Ok(merged)
        }
        Local::End | Local::Var(_) | Local::Rec(_) | Local::Send { .. } => Ok(None),
    }
}

// The merge of a reception from this role, with these alternatives, and another type.
#[tactic(auto, using(scrib_types::specs::LocalView::local_views))]
fn merged_from(
    alloc: Global,
    from: Role,
    branches: Items<(SharedMessage, Local)>,
    second: &Local,
) -> Result<Option<Local>, AllocError>
    ensures { IfOk result (λ o. option_map local_of o
        ≡ merged_from from (local_branches branches) (local_of second.now)) }
{
    match second {
        Local::Recv {
            from: sender,
            branches: more,
        } => {
            if !from.equal(sender) {
                return Ok(None);
            }
            let merged = merged_alternatives(alloc, branches, more.as_slice())?;
            match merged {
                Some(branches) => Ok(Some(Local::Recv { from, branches })),
                None => Ok(None),
            }
        }
        Local::End | Local::Var(_) | Local::Rec(_) | Local::Send { .. } => Ok(None),
    }
}
