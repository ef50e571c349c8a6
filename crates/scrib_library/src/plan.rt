//! Plans an edit of a module.

ghost use Rattle.std.specs.Prelude.{◌≡◌, ◌+◌, ◌≤◌, Some, IsTrue, IfOk, IfErr, vec_len, vec_capacity};
ghost use Rattle.std.specs.Option.{option_copied};
ghost use Rattle.scrib_library.specs.Listed.{AreInOrder};
ghost use Rattle.scrib_library.specs.Stored.{version_names};
ghost use Rattle.scrib_library.specs.Elaborated.{meaning_names};
ghost use Rattle.scrib_library.specs.Drafts.{StopsDraft};
ghost use Rattle.scrib_library.specs.Edits.{HasRoom};
ghost use Rattle.scrib_library.specs.Plans.{IsPlanFor, IsPlan, Covers, StopsMeanings, StopsPut};
ghost use Rattle.scrib_library.specs.Withdrawals.{IsRemovalPlan};
ghost use Rattle.scrib_library.specs.declared.fault.EditFault.TheVariants.{OutOfMemory};

use crate::affected::affected;
use crate::changes::Changes;
use crate::declared::affected_entries;
use crate::draft::{Draft, changes_in, draft_of};
use crate::fault::EditFault;
use crate::hints::Hints;
use crate::meanings::{NamedMeaning, meanings_of, withdrawn_meanings};
use crate::module_store::ModuleStore;
use crate::reaching::reaching;
use crate::room::check_room;
use crate::same::same_module;
use crate::versions::{NamedVersion, VersionEdit};
use scrib_tree::tree::ModuleTree;
use scrib_types::name::Dotted;
use scrib_types::profile::Profile;
use std::alloc::Global;

/// An accepted edit: the edits of the versions, the number of versions ever used after it, and the changes.
#[derive(Drop)]
pub struct Plan {
    pub edits: Vec<VersionEdit>,
    pub used: u32,
    pub changes: Changes,
}

/// Plans the put of the module `new`, which is already among `modules`, in place of `gone`. `versions` are those of the
/// library before the put. Only the protocols of this module and of those that reach it by imports are checked. They
/// must project under the profile. On success `versions` has room for the new versions.
///
/// # Errors
/// The first fault of the list of `EditFault`, from `TooManyModules` on, that applies; `OutOfMemory` if memory was
/// refused.
pub fn plan_put(
    alloc: Global,
    profile: Profile,
    modules: &ModuleStore,
    new: &ModuleTree,
    gone: Option<&ModuleTree>,
    versions: &mut Vec<NamedVersion>,
    hints: &Hints,
    used: u32,
) -> Result<Plan, EditFault>
    requires sorted { AreInOrder (version_names versions.old.items) }
    requires few { used ≤ 65536 }
    ensures ok { IfOk result (IsPlan profile new.now modules.now (option_copied gone.entry) versions.old.items used) }
    ensures fault { IfErr result (StopsPut profile new.now modules.now (option_copied gone.entry) versions.old.items
        used) }
    ensures room { IfOk result (λ p. vec_len versions.new + vec_len p.edits ≤ vec_capacity versions.new) }
    ensures kept { versions.new.items ≡ versions.old.items }
{
    check_room(alloc, modules.as_slice(), modules.summaries(), new)?;
    let meanings = meanings_after(alloc, profile, modules, new, gone)?;
    plan_edits(alloc, &new.name, versions, hints, meanings, used)
}

// Returns the meanings, in the order of names, that putting `new` in place of `gone` can have changed. There are none
// if the two modules are equal. Errors: `Elaborate` or `Project`, the first that applies; `OutOfMemory` if memory was
// refused.
fn meanings_after(
    alloc: Global,
    profile: Profile,
    modules: &ModuleStore,
    new: &ModuleTree,
    gone: Option<&ModuleTree>,
) -> Result<Vec<NamedMeaning>, EditFault>
    requires { HasRoom new.now modules.now }
    ensures sorted { IfOk result (λ ys. AreInOrder (meaning_names ys.items)) }
    ensures ok { IfOk result (λ ys. Covers profile new.now modules.now (option_copied gone.entry) ys.items) }
    ensures fault { IfErr result (StopsMeanings profile new.now modules.now (option_copied gone.entry)) }
{
    if is_same(new, gone) {
        return Ok(Vec::new(alloc));
    }
    let trees = modules.as_slice();
    let summaries = modules.summaries();
    let affected = affected(alloc, trees, summaries, &new.name)?;
    let entries = affected_entries(alloc, trees, summaries, &affected, gone)?;
    let reached = reaching(alloc, &new.name, entries)?;
    meanings_of(alloc, profile, modules.as_modules(), reached)
}

// Whether the replaced module equals the new one.
fn is_same(new: &ModuleTree, gone: Option<&ModuleTree>) -> bool
    ensures { IsTrue result → option_copied gone.entry ≡ Some new.now }
{
    match gone {
        Some(gone) => same_module(gone, new),
        None => false,
    }
}

/// Plans the withdrawal of the module. `versions` are those of the library before it.
///
/// # Errors
/// `OutOfMemory` if memory was refused.
pub fn plan_withdrawal(
    alloc: Global,
    gone: &ModuleTree,
    versions: &mut Vec<NamedVersion>,
    hints: &Hints,
    used: u32,
) -> Result<Plan, EditFault>
    requires sorted { AreInOrder (version_names versions.old.items) }
    requires few { used ≤ 65536 }
    ensures ok { IfOk result (IsRemovalPlan gone.now versions.old.items used) }
    ensures fault { IfErr result (λ f. f ≡ OutOfMemory) }
    ensures room { IfOk result (λ p. vec_len versions.new + vec_len p.edits ≤ vec_capacity versions.new) }
    ensures kept { versions.new.items ≡ versions.old.items }
{
    let meanings = withdrawn_meanings(alloc, gone)?;
    plan_edits(alloc, &gone.name, versions, hints, meanings, used)
}

// Plans the edits that give the names these meanings, where `name` is that of the edited module. On success `versions`
// has room for the new versions.
fn plan_edits(
    alloc: Global,
    name: &Dotted,
    versions: &mut Vec<NamedVersion>,
    hints: &Hints,
    meanings: Vec<NamedMeaning>,
    used: u32,
) -> Result<Plan, EditFault>
    requires sorted { AreInOrder (version_names versions.old.items) }
    requires meanings { AreInOrder (meaning_names meanings.items) }
    requires few { used ≤ 65536 }
    ensures ok { IfOk result (IsPlanFor versions.old.items meanings.items used name.now) }
    ensures fault { IfErr result (StopsDraft versions.old.items meanings.items used) }
    ensures room { IfOk result (λ p. vec_len versions.new + vec_len p.edits ≤ vec_capacity versions.new) }
    ensures kept { versions.new.items ≡ versions.old.items }
{
    let Draft { edits, used } = draft_of(alloc, versions, hints, meanings, used)?;
    let list = changes_in(alloc, &edits)?;
    let module = name.copy()?;
    versions.reserve(edits.len())?;
    Ok(Plan {
        edits,
        used,
        changes: Changes { module, list },
    })
}
