//! Summaries of modules. They answer most questions about all modules without a look at the modules themselves, which
//! lie far apart in memory.

ghost use Rattle.std.specs.Prelude.{◌≡◌, false, MatchOption};
ghost use Rattle.scrib_static_checks.specs.Names.{has_name, module_names};
ghost use Rattle.scrib_static_checks.specs.Table.{IsPlace};
ghost use Rattle.scrib_library.specs.Summaries as spec;

use crate::name_filter::{filter_bit, filter_of};
use crate::names::same;
use scrib_tree::tree::ModuleTree;
use scrib_types::name::Dotted;

/// The summary of a module: the filter bit of its name, the filter of the module names that it imports, and the number
/// of its protocols.
#[derive(Clone, Copy, Drop)]
pub struct ModuleSummary {
    pub bit: u32,
    pub name_filter: u64,
    pub protocols: usize,
}

/// Returns the summary of the module.
pub fn summary_of(tree: &ModuleTree) -> ModuleSummary
    ensures { result ≡ spec.summary tree.now }
{
    ModuleSummary {
        bit: filter_bit(&tree.name),
        name_filter: filter_of(tree.imports.as_slice()),
        protocols: tree.protocols.len(),
    }
}

/// Returns the index of the first module with this name. The summaries avoid most comparisons.
pub fn place_of(modules: &[ModuleTree], summaries: &[ModuleSummary], name: &Dotted) -> Option<usize>
    requires { summaries.now ≡ spec.summaries_of modules.now }
    ensures { MatchOption result (has_name name.now (module_names modules.now) ≡ false) (IsPlace modules.now name.now) }
{
    let bit = filter_bit(name);
    for (at, summary) in summaries.iter().enumerate() {
        if summary.bit == bit && same(name, &modules[at].name) {
            return Some(at);
        }
    }
    None
}
