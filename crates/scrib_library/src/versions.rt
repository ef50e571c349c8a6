//! The stored versions, by full name, and their edits.

ghost use Rattle.std.specs.Prelude.{◌≡◌, ◌+◌, ◌<◌, ◌≤◌, IfOk, IfErr, IfSome, vec_len, vec_capacity};
ghost use Rattle.std.specs.Option.{option_copied, option_map};
ghost use Rattle.scrib_library.specs.Listed.{AreInOrder, IsAt, IsGap};
ghost use Rattle.scrib_record.specs.Versions.{number_of};
ghost use Rattle.scrib_library.specs.Stored.{version_names, IsVersion, IsStored};
ghost use Rattle.scrib_library.specs.Drafts.{edit_names, IsApplied, AreApplied};

use crate::changes::ChangeKind;
use crate::hints::{Hints, hint_slot};
use crate::names::compare;
use crate::numberings::Numberings;
use scrib_record::version::Version;
use scrib_types::name::Dotted;
use std::mem::replace;

/// A version of a protocol, with the protocol's full name.
#[derive(Drop)]
pub struct NamedVersion {
    pub name: Dotted,
    pub version: Version,
}

/// The edit of a name: its new version, or `None` if the name loses its version.
#[derive(Drop)]
pub struct VersionEdit {
    pub kind: ChangeKind,
    pub name: Dotted,
    pub version: Option<Version>,
}

/// Returns the version of the protocol of this name. The index `hint` is tried first.
pub fn version_at_hint<'a>(
    versions: &'a [NamedVersion],
    hint: usize,
    name: &Dotted,
) -> Option<&'a Version>
    requires { AreInOrder (version_names versions.now) }
    ensures { IsVersion versions.now name.now (option_copied result) }
{
    let (_, version) = found_at_hint(versions, hint, name);
    version
}

/// Returns the version of the protocol of this name, and the index at which it is or would be. The index `hint` is
/// tried first.
pub fn found_at_hint<'a>(
    versions: &'a [NamedVersion],
    hint: usize,
    name: &Dotted,
) -> (usize, Option<&'a Version>)
    requires { AreInOrder (version_names versions.now) }
    ensures { IsVersion versions.now name.now (option_copied result.1) }
{
    match place_at_hint(versions, hint, name) {
        Ok(at) => (at, Some(&versions[at].version)),
        Err(at) => (at, None),
    }
}

/// Returns the stored name and the version of the protocol of this name. The index `hint` is tried first.
pub fn named_at_hint<'a>(
    versions: &'a [NamedVersion],
    hint: usize,
    name: &Dotted,
) -> Option<(&'a Dotted, &'a Version)>
    requires { AreInOrder (version_names versions.now) }
    ensures name { IfSome result (λ found. found.0.now ≡ name.now) }
    ensures version { IsVersion versions.now name.now (option_map (λ found. found.1.now) result) }
{
    match place_at_hint(versions, hint, name) {
        Ok(at) => {
            let named = &versions[at];
            Some((&named.name, &named.version))
        }
        Err(_) => None,
    }
}

/// Returns the version at this index, if it has this number.
pub fn numbered_at(versions: &[NamedVersion], place: usize, number: u32) -> Option<&Version>
    ensures numbered { IfSome result (λ version. number_of version.now ≡ number) }
    ensures stored { IfSome result (λ version. IsStored versions.now version.now) }
{
    let named = versions.get(place)?;
    if named.version.number() == number {
        Some(&named.version)
    } else {
        None
    }
}

/// Applies the edits, which are of different names. There must be room for the new versions. The hints are renewed, and
/// a new version has no numbering yet.
pub fn apply_edits(
    versions: &mut Vec<NamedVersion>,
    hints: &mut Hints,
    numberings: &mut Numberings,
    edits: Vec<VersionEdit>,
)
    requires versions { AreInOrder (version_names versions.old.items) }
    requires edits { AreInOrder (edit_names edits.items) }
    requires room { vec_len versions.old + vec_len edits ≤ vec_capacity versions.old }
    ensures { AreApplied versions.old.items edits.items versions.new.items }
{
    for edit in edits {
        apply_edit(versions, hints, numberings, edit);
    }
    hints.renew();
}

// Applies the edit. There must be room for one more version. The index that the hints give is tried first.
fn apply_edit(
    versions: &mut Vec<NamedVersion>,
    hints: &mut Hints,
    numberings: &mut Numberings,
    edit: VersionEdit,
)
    requires versions { AreInOrder (version_names versions.old.items) }
    requires room { vec_len versions.old < vec_capacity versions.old }
    ensures made { IsApplied versions.old.items edit versions.new.items }
    ensures length { vec_len versions.new ≤ vec_len versions.old + 1 }
    ensures room { vec_capacity versions.new ≡ vec_capacity versions.old }
{
    let VersionEdit { name, version, .. } = edit;
    let slot = hint_slot(&name);
    match (
        place_at_hint(versions, hints.place_in(slot), &name),
        version,
    ) {
        (Ok(at), Some(version)) => {
            let _before = replace(&mut versions[at], NamedVersion { name, version });
            numberings.renew(at);
        }
        (Ok(at), None) => {
            let _before = versions.remove(at);
            hints.remove(at);
            numberings.remove(at);
        }
        (Err(at), Some(version)) => {
            let _ = versions.insert(at, NamedVersion { name, version });
            hints.insert(at, slot);
            numberings.insert(at);
        }
        (Err(_), None) => {}
    }
}

// Returns the index of the version of this name, or the index at which to insert it. The index `hint` is tried first.
fn place_at_hint(versions: &[NamedVersion], hint: usize, name: &Dotted) -> Result<usize, usize>
    requires { AreInOrder (version_names versions.now) }
    ensures found { IfOk result (IsAt (version_names versions.now) name.now) }
    ensures gap { IfErr result (IsGap (version_names versions.now) name.now) }
{
    match versions.get(hint) {
        Some(named) if named.name.equal(name) => Ok(hint),
        _ => place_of(versions, name),
    }
}

// Returns the index of the version of this name, or the index at which to insert it.
fn place_of(versions: &[NamedVersion], name: &Dotted) -> Result<usize, usize>
    requires { AreInOrder (version_names versions.now) }
    ensures found { IfOk result (IsAt (version_names versions.now) name.now) }
    ensures gap { IfErr result (IsGap (version_names versions.now) name.now) }
{
    versions.binary_search_by(|named| compare(&named.name, name))
}
