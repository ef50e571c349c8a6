//! The index of a shard: the ids of its conversations, by the full name of their protocol.

ghost use Rattle.std.specs.Prelude.{◌≡◌, ◌∷◌, ℕ, List, OnOk, OnErr, IfSome, None, Some, Contains, IsPermutation, slice_get};
ghost use Rattle.scrib_locked_steps.specs.Indexing.{listed_ids, IsListed, IsUnlisted};

use indexmap::IndexMap;
use scrib_types::name::Dotted;
use std::alloc::{AllocError, Global};
use std::hash::{Hash, Hasher};

/// The full name of a protocol, as a key of a map.
#[derive(Drop)]
pub struct ProtocolName {
    pub name: Dotted,
}

impl PartialEq for ProtocolName {
    ghost use Rattle.std.specs.Cmp.{partial_equiv_from_equiv};
    ghost use Rattle.std.proofs.lemmas.Cmp.{on_equiv, lists_equiv, nat_list_eq_equiv};
    ghost use Rattle.scrib_static_checks.specs.Names.{dotted_eq};
    ghost use Rattle.scrib_locked_steps.specs.Indexing.{key_name};

    ghost eq = { λ a b. dotted_eq a.name b.name };

    ghost laws = { partial_equiv_from_equiv (on_equiv key_name (lists_equiv nat_list_eq_equiv)) };

    fn eq(&self, other: &ProtocolName) -> bool {
        self.name.equal(&other.name)
    }
}

impl Eq for ProtocolName {
    ghost use Rattle.std.proofs.lemmas.Cmp.{on_equiv, lists_equiv, nat_list_eq_equiv};
    ghost use Rattle.scrib_locked_steps.specs.Indexing.{key_name};

    ghost laws = { on_equiv key_name (lists_equiv nat_list_eq_equiv) };
}

impl Hash for ProtocolName {
    ghost use Rattle.std.specs.List.{flat_map};
    ghost use Rattle.std.specs.Hash as fed;
    ghost use Rattle.scrib_static_checks.specs.Names.{dotted_eq};
    ghost use Rattle.scrib_locked_steps.specs.Indexing.{same_named};

    ghost hash_input = { λ a. flat_map (fed.slice fed.u8) a.name };

    ghost respects_eq = { same_named };

    fn hash<H: Hasher>(&self, state: &mut H) {
        for part in self.name.as_slice() {
            part.as_bytes().hash(state);
        }
    }
}

/// Adds the id to the list of the name, last. Returns its place there, from 0.
///
/// # Errors
/// `AllocError` if memory was refused. The lists are unchanged then.
pub(crate) fn list(
    index: &mut IndexMap<ProtocolName, Vec<u32>>,
    alloc: Global,
    name: &Dotted,
    id: u32,
) -> Result<usize, AllocError>
    ensures ok { OnOk result (IsListed name.now id index.old.entries index.new.entries) }
    ensures err { OnErr result ((n : List (List ℕ)) → listed_ids n index.new.entries ≡ listed_ids n index.old.entries) }
{
    let key = ProtocolName { name: name.copy()? };
    match index.get_mut(&key) {
        Some(ids) => {
            let place = ids.len();
            ids.push(id)?;
            Ok(place)
        }
        None => {
            let ids = vec![in alloc; id]?;
            index.insert(key, ids)?;
            Ok(0)
        }
    }
}

/// Takes the id out of the list of the name, and drops a name without ids. `hint` is where the id is looked up first.
/// The last id of the list takes the place; returns it, and the place, unless the id was the last itself.
pub(crate) fn unlist(
    index: &mut IndexMap<ProtocolName, Vec<u32>>,
    key: &ProtocolName,
    id: u32,
    hint: usize,
) -> Option<(u32, usize)>
    ensures { IsUnlisted key.now.name id index.old.entries index.new.entries }
{
    let Some(ids) = index.get_mut(key) else {
        return None;
    };
    let moved = take_id(ids, id, hint);
    if ids.is_empty() {
        index.swap_remove(key);
    }
    moved
}

// Takes the id out of the list, whose last id takes the place. Returns that id, and the place, unless the id was the
// last itself or isn't in the list.
fn take_id(ids: &mut Vec<u32>, id: u32, hint: usize) -> Option<(u32, usize)>
    ensures { Contains ids.old.items id → IsPermutation ids.old.items (id ∷ ids.new.items) }
{
    let Some(place) = place_in(ids, id, hint) else {
        return None;
    };
    ids.swap_remove(place);
    match ids.get(place) {
        Some(moved) => Some((*moved, place)),
        None => None,
    }
}

// Returns the place of the id in the list. `hint` may be any place and is tried first.
fn place_in(ids: &[u32], id: u32, hint: usize) -> Option<usize>
    ensures found { IfSome result (λ place. slice_get ids.now place ≡ Some id) }
    ensures absent { result ≡ None → Contains ids.now id → ⊥ }
{
    match ids.get(hint) {
        Some(found) if *found == id => Some(hint),
        _ => ids.iter().position(|other| *other == id),
    }
}
