//! The modules whose protocols an edit can change: the edited one, and those that reach it by imports.

ghost use Rattle.std.specs.Prelude.{◌≡◌, ◌<◌, length, MatchOption, IfOk, IsTrue, Contains, ◌↔◌};
ghost use Rattle.scrib_tree.specs.declared.tree.ModuleTree as parsed;
ghost use Rattle.scrib_library.specs.Summaries.{summaries_of};
ghost use Rattle.scrib_library.specs.NameFilter.{IsFilterOfNames};
ghost use Rattle.scrib_library.specs.Affected.{names_now, waiting_trees, ImportsSome, AreAffected};

use crate::name_filter::{FilteredModule, filter_of_names, may_overlap};
use crate::names::same;
use crate::summaries::ModuleSummary;
use scrib_tree::tree::ModuleTree;
use scrib_types::name::Dotted;
use std::alloc::{AllocError, Global};

/// Returns the name of the edited module and the names of the modules that reach it by imports.
///
/// # Errors
/// `AllocError` if memory was refused.
pub fn affected<'a>(
    alloc: Global,
    modules: &'a [ModuleTree],
    summaries: &[ModuleSummary],
    edited: &'a Dotted,
) -> Result<Vec<&'a Dotted>, AllocError>
    requires { summaries.now ≡ summaries_of modules.now }
    ensures { IfOk result (λ names. AreAffected modules.now edited.now (names_now names.items)) }
{
    let mut waiting = filtered(alloc, modules, summaries)?;
    let mut names = Vec::new(alloc);
    names.push(edited)?;
    // The names from `at` on are compared, all at once, with the imports of the waiting modules. The loop ends once no
    // waiting module imports one of them. Each search begins where the last importer was, and so most of them end soon.
    let mut at = 0;
    let mut first = 0;
    while at < names.len() {
        match place_of_importer(&waiting, first, &names[at..]) {
            Some(place) => {
                let importer = waiting.remove(place);
                names.push(&importer.tree.name)?;
                first = place;
            }
            None => at = names.len(),
        }
    }
    Ok(names)
}

// Pairs each module with its name filter.
fn filtered<'a>(
    alloc: Global,
    modules: &'a [ModuleTree],
    summaries: &[ModuleSummary],
) -> Result<Vec<FilteredModule<'a>>, AllocError>
    requires { summaries.now ≡ summaries_of modules.now }
    ensures { IfOk result (λ all. waiting_trees all.items ≡ modules.now) }
{
    let mut all = Vec::with_capacity(alloc, modules.len())?;
    for (at, tree) in modules.iter().enumerate() {
        let name_filter = summaries[at].name_filter;
        all.push(FilteredModule { tree, name_filter })?;
    }
    Ok(all)
}

// Returns the index of a module that imports one of these names. Those from `first` on are searched before the others.
fn place_of_importer(waiting: &[FilteredModule], first: usize, names: &[&Dotted]) -> Option<usize>
    ensures { MatchOption result
        ((m : parsed.ModuleTree) → Contains (waiting_trees waiting.now) m → ImportsSome (names_now names.now) m → ⊥)
        (λ at. at < length waiting.now) }
{
    let name_filter = filter_of_names(names);
    let middle = first.min(waiting.len());
    if let Some(at) = first_importer(&waiting[middle..], name_filter, names) {
        return Some(middle + at);
    }
    first_importer(&waiting[..middle], name_filter, names)
}

// Returns the index of the first module that imports one of these names, which have this filter. The filters avoid most
// comparisons. Not inlined: this loop, the hottest of an edit, then keeps its few values in registers.
#[inline(never)]
fn first_importer(waiting: &[FilteredModule], name_filter: u64, names: &[&Dotted]) -> Option<usize>
    requires { IsFilterOfNames (names_now names.now) name_filter }
    ensures { MatchOption result
        ((m : parsed.ModuleTree) → Contains (waiting_trees waiting.now) m → ImportsSome (names_now names.now) m → ⊥)
        (λ at. at < length waiting.now) }
{
    for (at, one) in waiting.iter().enumerate() {
        if may_overlap(one.name_filter, name_filter) && imports_some(one.tree, names) {
            return Some(at);
        }
    }
    None
}

/// Whether the module imports one of these names.
pub fn imports_some(tree: &ModuleTree, names: &[&Dotted]) -> bool
    ensures { IsTrue result ↔ ImportsSome (names_now names.now) tree.now }
{
    for import in tree.imports.as_slice() {
        if is_one_of(names, &import.module) {
            return true;
        }
    }
    false
}

/// Whether the name is one of these.
pub fn is_one_of(names: &[&Dotted], name: &Dotted) -> bool
    ensures { IsTrue result ↔ Contains (names_now names.now) name.now }
{
    for other in names {
        if same(name, other) {
            return true;
        }
    }
    false
}
