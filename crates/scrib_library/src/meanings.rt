//! The meanings of protocols, with their projections.

ghost use Rattle.std.specs.Prelude.{◌≡◌, IfOk, IfErr};
ghost use Rattle.scrib_types.specs.declared.profile.Profile as held;
ghost use Rattle.scrib_types.specs.Meaning.{agreement_of};
ghost use Rattle.scrib_library.specs.Listed.{AreInOrder};
ghost use Rattle.scrib_library.specs.Entries.{entry_names, AreDeclared};
ghost use Rattle.scrib_library.specs.Elaborated.{IsFoundFor, IsBrokenEntry, AreElaborated, AreMeanings, IsProjected, StopsNamed, AreProjected, IsEntryRefusal, StopsProjection};
ghost use Rattle.scrib_library.specs.Withdrawals.{AreNothing, AreWithdrawnMeanings};

use crate::declared::{Entry, enter};
use crate::fault::EditFault;
use scrib_elaborate::elaborate::Elaborator;
use scrib_elaborate::elaborated::Elaborated;
use scrib_project::projected::ProjectedProtocol;
use scrib_project::protocol::protocol_with_projections;
use scrib_record::compilation::Compiled;
use scrib_static_checks::modules::Modules;
use scrib_tree::tree::ModuleTree;
use scrib_types::name::Dotted;
use scrib_types::profile::Profile;
use std::alloc::{AllocError, Global};

/// The elaborated type of a name, if it has a meaning.
#[derive(Drop)]
pub struct NamedElaborated {
    pub name: Dotted,
    pub elaborated: Option<Elaborated>,
}

/// The compiled type of a name with its projections, if it has a meaning.
#[derive(Drop)]
pub struct NamedMeaning {
    pub name: Dotted,
    pub compiled: Option<Compiled>,
}

/// Returns the meaning of the protocol of each entry, in the same order; `None` if it is no longer declared.
///
/// # Errors
/// `Elaborate` with a fault of the first protocol, in that order, that has no meaning. Else `Project` with the fault of
/// the first that does not project on some role under the profile. `OutOfMemory` if memory was refused.
pub fn meanings_of(
    alloc: Global,
    profile: Profile,
    modules: &Modules,
    entries: Vec<Entry>,
) -> Result<Vec<NamedMeaning>, EditFault>
    requires sorted { AreInOrder (entry_names entries.items) }
    requires stand { AreDeclared modules.now entries.items }
    ensures ok { IfOk result (λ meanings. AreMeanings profile modules.now entries.entry.items meanings.items) }
    ensures fault { IfErr result (IsEntryRefusal profile modules.now entries.entry.items) }
{
    let elaborated = elaborate_all(alloc, modules, entries)?;
    let meanings = project_all(alloc, profile, elaborated)?;
    Ok(meanings)
}

/// Returns the names of the module's protocols, each without a meaning, in the order of full names. A name that is
/// declared twice is listed once.
///
/// # Errors
/// `AllocError` if memory was refused.
pub fn withdrawn_meanings(alloc: Global, gone: &ModuleTree) -> Result<Vec<NamedMeaning>, AllocError>
    ensures { IfOk result (λ meanings. AreWithdrawnMeanings gone.now meanings.items) }
{
    let mut entries = Vec::new(alloc);
    enter(alloc, &mut entries, gone, false)?;
    without_meanings(alloc, entries)
}

// Returns the entries' names, each without a meaning, in the same order.
fn without_meanings(alloc: Global, entries: Vec<Entry>) -> Result<Vec<NamedMeaning>, AllocError>
    ensures { IfOk result (λ meanings. AreNothing entries.entry.items meanings.items) }
{
    let mut meanings = Vec::with_capacity(alloc, entries.len())?;
    for entry in entries {
        let Entry { name, .. } = entry;
        meanings.push(NamedMeaning {
            name,
            compiled: None,
        })?;
    }
    Ok(meanings)
}

fn elaborate_all(
    alloc: Global,
    modules: &Modules,
    entries: Vec<Entry>,
) -> Result<Vec<NamedElaborated>, EditFault>
    requires { AreDeclared modules.now entries.items }
    ensures ok { IfOk result (λ all. AreElaborated modules.now entries.entry.items all.items) }
    ensures fault { IfErr result (λ f. (profile : held.Profile) → IsEntryRefusal profile modules.now entries.entry.items f) }
{
    let mut elaborator = Elaborator::new(alloc, modules)?;
    let mut all = Vec::with_capacity(alloc, entries.len())?;
    for entry in entries {
        let named = elaborate_entry(&mut elaborator, entry)?;
        all.push(named)?;
    }
    Ok(all)
}

fn elaborate_entry(elaborator: &mut Elaborator, entry: Entry) -> Result<NamedElaborated, EditFault>
    ensures ok { IfOk result (IsFoundFor elaborator.old entry.entry) }
    ensures fault { IfErr result (IsBrokenEntry elaborator.old entry.entry) }
    ensures same { elaborator.new ≡ elaborator.old }
{
    let Entry {
        home,
        protocol,
        name,
        is_declared,
    } = entry;
    let mut elaborated = None;
    if is_declared {
        elaborated = Some(elaborator.elaborate(&home.name, &protocol.name)?);
    }
    Ok(NamedElaborated { name, elaborated })
}

// Returns the projections of each under the profile, in the same order.
fn project_all(
    alloc: Global,
    profile: Profile,
    elaborated: Vec<NamedElaborated>,
) -> Result<Vec<NamedMeaning>, EditFault>
    ensures ok { IfOk result (λ meanings. AreProjected profile elaborated.items meanings.items) }
    ensures fault { IfErr result (StopsProjection profile elaborated.items) }
{
    let mut meanings = Vec::with_capacity(alloc, elaborated.len())?;
    for named in elaborated {
        let meaning = project_named(alloc, profile, named)?;
        meanings.push(meaning)?;
    }
    Ok(meanings)
}

fn project_named(
    alloc: Global,
    profile: Profile,
    named: NamedElaborated,
) -> Result<NamedMeaning, EditFault>
    ensures ok { IfOk result (IsProjected profile named) }
    ensures fault { IfErr result (StopsNamed profile named) }
{
    let NamedElaborated { name, elaborated } = named;
    let compiled = match elaborated {
        Some(elaborated) => {
            let projected = protocol_with_projections(alloc, elaborated, profile)?;
            Some(compiled_of(alloc, projected)?)
        }
        None => None,
    };
    Ok(NamedMeaning { name, compiled })
}

// Compiles the protocol. This follows its projection at once: the projections, which are large, are still in the cache
// and need not be kept.
fn compiled_of(alloc: Global, projected: ProjectedProtocol) -> Result<Compiled, AllocError>
    ensures { IfOk result (λ c. agreement_of c.protocol ≡ agreement_of projected.protocol) }
{
    let ProjectedProtocol {
        protocol,
        locals,
        ..
    } = projected;
    Compiled::new(alloc, protocol, locals.as_slice())
}
