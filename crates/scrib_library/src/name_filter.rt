//! Name filters: Bloom filters of 64 bits. They rule out most names that are not in a set without a comparison.

ghost use Rattle.std.specs.Prelude.{◌≡◌, ◌<◌, ◌⊎◌, ℕ, false};
ghost use Rattle.scrib_library.specs.NameFilter as spec;

use scrib_tree::tree::{Import, ModuleTree};
use scrib_types::hashing::{hash_bytes, slot_of};
use scrib_types::name::Dotted;

// The number of bits of a filter.
const FILTER_BITS: usize = 64;

/// A module, with the filter of the module names that it imports.
#[derive(Drop)]
pub struct FilteredModule<'a> {
    pub tree: &'a ModuleTree,
    pub name_filter: u64,
    pub ghost filtered: { spec.IsNameFilter tree.now.imports name_filter },
}

/// Returns the filter bit of the name, a hash of the bytes of its last part.
pub fn filter_bit(name: &Dotted) -> u32
    ensures bit { result ≡ spec.filter_bit name.now }
    ensures within { result < 64 }
{
    let parts = name.as_slice();
    let last = &parts[parts.len() - 1];
    slot_of(hash_bytes(0, last.as_bytes()), FILTER_BITS) as u32
}

/// Returns the filter of the imported modules' names.
pub fn filter_of(imports: &[Import]) -> u64
    ensures { result ≡ spec.filter_of imports.now }
{
    let mut name_filter = 0;
    for import in imports {
        name_filter |= 1 << filter_bit(&import.module);
    }
    name_filter
}

/// Returns the filter of the names.
pub fn filter_of_names(names: &[&Dotted]) -> u64
    ensures { spec.IsFilterOfNames (spec.names_now names.now) result }
{
    let mut name_filter = 0;
    for name in names {
        name_filter |= 1 << filter_bit(name);
    }
    name_filter
}

/// Whether the filter has the bit.
pub fn may_contain(name_filter: u64, bit: u32) -> bool
    requires { bit < 64 }
    ensures { result ≡ false → spec.LacksBit name_filter bit }
{
    (name_filter >> bit) % 2 == 1
}

/// Whether the filters have a bit in common.
pub fn may_overlap(a: u64, b: u64) -> bool
    ensures { result ≡ false → (bit : ℕ) → spec.LacksBit a bit ⊎ spec.LacksBit b bit }
{
    a & b != 0
}
