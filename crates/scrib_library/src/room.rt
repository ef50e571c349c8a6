//! Whether a module fits into the library.

ghost use Rattle.std.specs.Prelude.{◌≡◌, ◌<◌, ℕ, List, nat_lt, IfErr, OnOk};
ghost use Rattle.std.specs.Option.{option_map};
ghost use Rattle.scrib_types.specs.declared.profile.Profile.{Profile};
ghost use Rattle.scrib_tree.specs.declared.tree.ModuleTree as parsed;
ghost use Rattle.scrib_library.specs.Modules as spec;
ghost use Rattle.scrib_library.specs.Summaries.{summaries_of, declared_count};
ghost use Rattle.scrib_library.specs.Edits.{HasRoom, ModuleFails};

use crate::fault::EditFault;
use crate::library::{MAX_MODULES, MAX_PROTOCOLS};
use crate::summaries::{ModuleSummary, place_of};
use scrib_tree::tree::{Import, ModuleTree};
use std::alloc::Global;

/// Checks the limits after a put, where `new` is already among `modules`. The modules and protocols must be few enough,
/// and each imported module must exist.
///
/// # Errors
/// The first of `TooManyModules`, `ImportMissing` and `TooManyProtocols` that applies. `OutOfMemory` if the missing
/// module's name could not be copied.
pub fn check_room(
    alloc: Global,
    modules: &[ModuleTree],
    summaries: &[ModuleSummary],
    new: &ModuleTree,
) -> Result<(), EditFault>
    requires { summaries.now ≡ summaries_of modules.now }
    ensures ok { OnOk result (HasRoom new.now modules.now) }
    ensures fault { IfErr result (λ f. (profile : Profile) (before : List parsed.ModuleTree) (used : ℕ)
        → ModuleFails profile before used new.now modules.now f) }
{
    if modules.len() > MAX_MODULES {
        return Err(EditFault::TooManyModules);
    }
    if let Some(import) = missing_import(modules, summaries, new.imports.as_slice()) {
        let module = import.module.copy()?;
        return Err(EditFault::ImportMissing { module });
    }
    if declares_too_many(summaries) {
        return Err(EditFault::TooManyProtocols);
    }
    Ok(())
}

// Returns the first import whose module does not exist.
fn missing_import<'a>(
    modules: &[ModuleTree],
    summaries: &[ModuleSummary],
    imports: &'a [Import],
) -> Option<&'a Import>
    requires { summaries.now ≡ summaries_of modules.now }
    ensures { option_map (λ i. i.now) result ≡ spec.missing_import modules.now imports.now }
{
    for import in imports {
        if place_of(modules, summaries, &import.module).is_none() {
            return Some(import);
        }
    }
    None
}

// Whether the summarised modules declare more than 1,024 protocols.
fn declares_too_many(summaries: &[ModuleSummary]) -> bool
    ensures { result ≡ nat_lt MAX_PROTOCOLS (declared_count summaries.now) }
{
    let mut left = MAX_PROTOCOLS;
    for summary in summaries {
        let declared = summary.protocols;
        if declared > left {
            return true;
        }
        left -= declared;
    }
    false
}
