//! Whether a module can be withdrawn.

ghost use Rattle.std.specs.Prelude.{◌≡◌, ◌↔◌, IfOk, IfErr, IsTrue, Contains};
ghost use Rattle.std.specs.Option.{option_copied};
ghost use Rattle.scrib_tree.specs.declared.tree.ModuleTree as parsed;
ghost use Rattle.scrib_library.specs.Edits.{WithdrawFails};
ghost use Rattle.scrib_library.specs.Stored.{IsSpelled};
ghost use Rattle.scrib_library.specs.Withdrawals.{Imports, IsFreePlace, IsFirstImporterOrNone, IsLesserName};

use crate::affected::imports_some;
use crate::fault::EditFault;
use crate::module_store::ModuleStore;
use crate::names::compare;
use scrib_tree::tree::ModuleTree;
use scrib_types::name::Dotted;
use std::cmp::Ordering;

/// Returns the index of the module of this name, if no other module imports it.
///
/// # Errors
/// `UnknownModule` if no module has the name; else `StillImported` with the first module by name that imports it.
/// `OutOfMemory` if that name could not be copied.
pub fn free_place(modules: &ModuleStore, name: &Dotted) -> Result<usize, EditFault>
    requires { (m : parsed.ModuleTree) → Contains modules.now m → IsSpelled m }
    ensures ok { IfOk result (IsFreePlace modules.now name.now) }
    ensures fault { IfErr result (WithdrawFails modules.now name.now) }
{
    let Some(at) = modules.place_of(name) else {
        return Err(EditFault::UnknownModule);
    };
    if let Some(by) = first_importer(modules.as_slice(), name) {
        let by = by.copy()?;
        return Err(EditFault::StillImported { by });
    }
    Ok(at)
}

// Returns the first, in the order of names, of the other modules that import the one of this name.
fn first_importer<'a>(modules: &'a [ModuleTree], name: &Dotted) -> Option<&'a Dotted>
    ensures { IsFirstImporterOrNone modules.now name.now (option_copied result) }
{
    let mut first = None;
    for tree in modules {
        if is_importer(tree, name) {
            first = Some(first_of(first, &tree.name));
        }
    }
    first
}

// Whether the module has another name than this one and imports it.
fn is_importer(tree: &ModuleTree, name: &Dotted) -> bool
    ensures { IsTrue result ↔ Imports tree.now name.now }
{
    !name.equal(&tree.name) && imports_some(tree, &[name])
}

// Returns the lesser of two names; the second if the first is missing.
fn first_of<'a>(name: Option<&'a Dotted>, second: &'a Dotted) -> &'a Dotted
    ensures { IsLesserName (option_copied name.entry) second.entry.now result.now }
{
    let Some(name) = name else {
        return second;
    };
    if compare(name, second) == Ordering::Greater {
        second
    } else {
        name
    }
}
