//! The protocols whose meaning an edit can change, by full name.

ghost use Rattle.std.specs.Prelude.{◌≡◌, ◌<◌, ◌↔◌, IsTrue, IfOk, IfErr, OnOk, Contains};
ghost use Rattle.std.specs.Option.{option_copied};
ghost use Rattle.scrib_library.specs.Listed.{AreInOrder, IsAt, IsGap};
ghost use Rattle.scrib_library.specs.Affected.{names_now};
ghost use Rattle.scrib_library.specs.NameFilter.{IsFilterOfNames, filter_bit};
ghost use Rattle.scrib_library.specs.Summaries.{summaries_of};
ghost use Rattle.scrib_library.specs.Entries.{entry_names, AreEntries, AreEntered, AreAffectedEntries};

use crate::affected::is_one_of;
use crate::name_filter::{filter_of_names, may_contain};
use crate::names::{compare, full_name};
use crate::summaries::ModuleSummary;
use scrib_tree::tree::{ModuleTree, ProtocolDeclaration};
use scrib_types::name::Dotted;
use std::alloc::{AllocError, Global};

/// A protocol: its module, its declaration there, its full name, and whether a module still declares it.
#[derive(Drop)]
pub struct Entry<'a> {
    pub home: &'a ModuleTree,
    pub protocol: &'a ProtocolDeclaration,
    pub name: Dotted,
    pub is_declared: bool,
}

/// Returns the protocols that the modules of these names declare, in the order of their full names. Protocols that only
/// the replaced module declared are among them, marked as no longer declared. A name that is declared twice is listed
/// once.
///
/// # Errors
/// `AllocError` if memory was refused.
pub fn affected_entries<'a>(
    alloc: Global,
    modules: &'a [ModuleTree],
    summaries: &[ModuleSummary],
    affected: &[&Dotted],
    gone: Option<&'a ModuleTree>,
) -> Result<Vec<Entry<'a>>, AllocError>
    requires { summaries.now ≡ summaries_of modules.now }
    ensures { IfOk result (λ entries. AreAffectedEntries modules.now (names_now affected.now)
        (option_copied gone.entry) entries.items) }
{
    let mut entries = entries_of(alloc, modules, summaries, affected)?;
    if let Some(tree) = gone {
        enter(alloc, &mut entries, tree, false)?;
    }
    Ok(entries)
}

// Returns the protocols that the modules of these names declare, in the order of their full names.
fn entries_of<'a>(
    alloc: Global,
    modules: &'a [ModuleTree],
    summaries: &[ModuleSummary],
    affected: &[&Dotted],
) -> Result<Vec<Entry<'a>>, AllocError>
    requires { summaries.now ≡ summaries_of modules.now }
    ensures { IfOk result (λ entries. AreEntries modules.now (names_now affected.now) entries.items) }
{
    let name_filter = filter_of_names(affected);
    let mut entries = Vec::new(alloc);
    for (at, tree) in modules.iter().enumerate() {
        if is_among(affected, name_filter, summaries[at].bit, &tree.name) {
            enter(alloc, &mut entries, tree, true)?;
        }
    }
    Ok(entries)
}

// Whether `name` is among `names`. `bit` is the filter bit of `name`, and `name_filter` the filter of `names`; they
// avoid most comparisons.
fn is_among(names: &[&Dotted], name_filter: u64, bit: u32, name: &Dotted) -> bool
    requires name_filter { IsFilterOfNames (names_now names.now) name_filter }
    requires bit { bit ≡ filter_bit name.now }
    requires within { bit < 64 }
    ensures { IsTrue result ↔ Contains (names_now names.now) name.now }
{
    may_contain(name_filter, bit) && is_one_of(names, name)
}

/// Inserts the protocols of the module at their places, except those whose names are already listed.
///
/// # Errors
/// `AllocError` if memory was refused.
pub fn enter<'a>(
    alloc: Global,
    entries: &mut Vec<Entry<'a>>,
    tree: &'a ModuleTree,
    is_declared: bool,
) -> Result<(), AllocError>
    requires { AreInOrder (entry_names entries.old.items) }
    ensures { OnOk result (AreEntered tree.now is_declared entries.old.items tree.now.protocols entries.new.items) }
{
    for declaration in tree.protocols.as_slice() {
        let name = full_name(alloc, &tree.name, &declaration.name)?;
        if let Err(place) = place_of(entries, &name) {
            let entry = Entry {
                home: tree,
                protocol: declaration,
                name,
                is_declared,
            };
            entries.insert(place, entry)?;
        }
    }
    Ok(())
}

/// Returns the index of the entry with this name, or the index at which to insert it.
pub fn place_of(entries: &[Entry], name: &Dotted) -> Result<usize, usize>
    requires { AreInOrder (entry_names entries.now) }
    ensures found { IfOk result (IsAt (entry_names entries.now) name.now) }
    ensures gap { IfErr result (IsGap (entry_names entries.now) name.now) }
{
    entries.binary_search_by(|entry| compare(&entry.name, name))
}
