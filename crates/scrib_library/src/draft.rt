//! Which versions an edit creates.

ghost use Rattle.std.specs.Prelude.{◌≡◌, ◌+◌, ◌≤◌, ◌<◌, cond, is_some, IfOk, IfErr, Some};
ghost use Rattle.std.specs.Option.{option_copied};
ghost use Rattle.scrib_record.specs.declared.version.Version as version;
ghost use Rattle.scrib_library.specs.Listed.{AreInOrder};
ghost use Rattle.scrib_library.specs.Stored.{version_names};
ghost use Rattle.scrib_library.specs.Elaborated.{meaning_names};
ghost use Rattle.scrib_library.specs.Drafts.{shown_changes, IsNewVersionEdit, IsEdit, LacksVersion, LacksNumber, IsDraft, StopsDraft};

use crate::changes::{Change, ChangeKind};
use crate::fault::EditFault;
use crate::hints::Hints;
use crate::library::MAX_VERSIONS;
use crate::meanings::NamedMeaning;
use crate::versions::{NamedVersion, VersionEdit, version_at_hint};
use scrib_record::compilation::Compiled;
use scrib_record::version::Version;
use scrib_types::containers::Items;
use scrib_types::name::Dotted;
use scrib_types::protocol::Protocol;
use std::alloc::{AllocError, Global};

/// The edits of the versions, and the number of versions ever used after them.
#[derive(Drop)]
pub struct Draft {
    pub edits: Vec<VersionEdit>,
    pub used: u32,
}

/// Returns the edits that give each name a version of its meaning, in the same order. A name keeps its version if the
/// meaning is unchanged. New versions are numbered from `used` on.
///
/// # Errors
/// `VersionsFull` if the numbers run out; `OutOfMemory` if memory was refused.
pub fn draft_of(
    alloc: Global,
    versions: &[NamedVersion],
    hints: &Hints,
    meanings: Vec<NamedMeaning>,
    used: u32,
) -> Result<Draft, EditFault>
    requires versions { AreInOrder (version_names versions.now) }
    requires meanings { AreInOrder (meaning_names meanings.items) }
    requires few { used ≤ 65536 }
    ensures ok { IfOk result (λ d. IsDraft versions.now meanings.items used d.edits.items d.used) }
    ensures fault { IfErr result (StopsDraft versions.now meanings.items used) }
{
    let mut edits = Vec::new(alloc);
    let mut next = used;
    for named in meanings {
        let hint = hints.place_of(&named.name);
        let before = version_at_hint(versions, hint, &named.name);
        if let Some(edit) = edit_of(alloc, before, named, next)? {
            next = used_after(&edit, next);
            edits.push(edit)?;
        }
    }
    Ok(Draft { edits, used: next })
}

// Returns the number of used versions, counting the new version of the edit if it has one.
fn used_after(edit: &VersionEdit, used: u32) -> u32
    requires { (v : version.Version) → edit.now.version ≡ Some v → used < 65536 }
    ensures { result ≡ used + cond (is_some edit.now.version) 1 0 }
{
    if edit.version.is_some() {
        used + 1
    } else {
        used
    }
}

/// Returns the edits as changes to report.
///
/// # Errors
/// `AllocError` if memory was refused.
pub fn changes_in(alloc: Global, edits: &[VersionEdit]) -> Result<Items<Change>, AllocError>
    ensures { IfOk result (λ changes. changes ≡ shown_changes edits.now) }
{
    let mut changes = Vec::with_capacity(alloc, edits.len())?;
    for edit in edits {
        let name = edit.name.copy()?;
        changes.push(Change {
            kind: edit.kind,
            name,
        })?;
    }
    Ok(Items::from_vec(changes))
}

// Returns the edit of a name whose version is `before`, or `None` if the meaning is unchanged.
fn edit_of(
    alloc: Global,
    before: Option<&Version>,
    named: NamedMeaning,
    used: u32,
) -> Result<Option<VersionEdit>, EditFault>
    ensures ok { IfOk result (IsEdit (option_copied before.entry) named used) }
    ensures fault { IfErr result (LacksVersion (option_copied before.entry) named used) }
{
    let NamedMeaning { name, compiled } = named;
    match (before, compiled) {
        (None, None) => Ok(None),
        (Some(_), None) => Ok(Some(VersionEdit {
            kind: ChangeKind::Withdrawn,
            name,
            version: None,
        })),
        (None, Some(compiled)) => {
            let edit = new_version_edit(alloc, ChangeKind::Added, name, compiled, used)?;
            Ok(Some(edit))
        }
        (Some(before), Some(compiled)) => {
            if Protocol::same_meaning(before.protocol(), compiled.protocol()) {
                return Ok(None);
            }
            let edit = new_version_edit(alloc, ChangeKind::Replaced, name, compiled, used)?;
            Ok(Some(edit))
        }
    }
}

// Returns the edit that gives the name a new version with this number.
fn new_version_edit(
    alloc: Global,
    kind: ChangeKind,
    name: Dotted,
    compiled: Compiled,
    number: u32,
) -> Result<VersionEdit, EditFault>
    ensures ok { IfOk result (IsNewVersionEdit kind name compiled number) }
    ensures fault { IfErr result (LacksNumber number) }
{
    if number >= MAX_VERSIONS {
        return Err(EditFault::VersionsFull);
    }
    let version = Version::new(alloc, compiled, number)?;
    Ok(VersionEdit {
        kind,
        name,
        version: Some(version),
    })
}
