//! The directory of a shard: its conversations by protocol, where each is listed, and the number of its opening.

ghost use Rattle.std.specs.Prelude.{◌≡◌, [], ℕ, List, OnOk, OnErr};
ghost use Rattle.scrib_locked_steps.specs.Indexing.{IsListed, IsUnlisted, listed_ids};
ghost use Rattle.scrib_locked_steps.specs.Openings.{opening_of, is_current, IsNumbered, IsUnnumbered};

use crate::index::{ProtocolName, list, unlist};
use crate::pass::Pass;
use indexmap::IndexMap;
use scrib_types::name::Dotted;
use std::alloc::{AllocError, Global};

/// The ids of a shard's conversations by the full name of their protocol, and the place that each id had in its list
/// when it was last moved. A place is only a hint: who uses it compares the id found there. Each opening has a number,
/// which no other opening in the shard has.
#[derive(Drop)]
pub struct Directory {
    pub(crate) index: IndexMap<ProtocolName, Vec<u32>>,
    pub(crate) places: IndexMap<u32, usize>,
    pub(crate) openings: IndexMap<u32, u64>,
    // How many openings there were so far.
    pub(crate) opened: u64,
}

impl Directory {
    /// Returns a directory without conversations.
    pub(crate) fn new(alloc: Global) -> Directory
        ensures index { result.index.entries ≡ [] }
        ensures openings { result.openings.entries ≡ [] }
        ensures opened { result.opened ≡ 0 }
    {
        Directory {
            index: IndexMap::new(alloc),
            places: IndexMap::new(alloc),
            openings: IndexMap::new(alloc),
            opened: 0,
        }
    }

    /// Adds the id to the list of the name, last, and gives its opening the next number.
    ///
    /// # Errors
    /// `AllocError` if memory was refused, and after 2^64 - 1 openings. The lists and the numbers are unchanged then.
    pub(crate) fn list(&mut self, alloc: Global, name: &Dotted, id: u32) -> Result<(), AllocError>
        ensures ok { OnOk result (IsListed name.now id self.old.index.entries self.new.index.entries) }
        ensures err { OnErr result ((n : List (List ℕ))
            → listed_ids n self.new.index.entries ≡ listed_ids n self.old.index.entries) }
        ensures number { OnOk result (IsNumbered self.old.openings.entries self.old.opened id
            self.new.openings.entries self.new.opened) }
        ensures openings { OnErr result (self.new.openings.entries ≡ self.old.openings.entries) }
        ensures opened { OnErr result (self.new.opened ≡ self.old.opened) }
    {
        let Some(number) = self.opened.checked_add(1) else {
            return Err(AllocError);
        };
        self.openings.reserve(1)?;
        self.places.insert(id, 0)?;
        match list(&mut self.index, alloc, name, id) {
            Ok(place) => self.set_place(id, place),
            Err(error) => {
                self.places.swap_remove(&id);
                return Err(error);
            }
        }
        // There is room for it.
        let _ = self.openings.insert(id, number);
        self.opened = number;
        Ok(())
    }

    /// Takes the id out of the list of the name, in a time that does not depend on the number of conversations. Its
    /// opening has no number any more. Returns the name.
    pub(crate) fn unlist(&mut self, name: Dotted, id: u32) -> Dotted
        ensures name { result ≡ name }
        ensures unlisted { IsUnlisted name id self.old.index.entries self.new.index.entries }
        ensures openings { IsUnnumbered self.old.openings.entries id self.new.openings.entries }
        ensures opened { self.new.opened ≡ self.old.opened }
    {
        self.openings.swap_remove(&id);
        let hint = self.places.swap_remove(&id).unwrap_or(0);
        let key = ProtocolName { name };
        if let Some((moved, place)) = unlist(&mut self.index, &key, id, hint) {
            self.set_place(moved, place);
        }
        key.name
    }

    /// Returns the number of the opening of the id, or 0 where the id isn't open.
    pub(crate) fn opening(&self, id: u32) -> u64
        ensures { result ≡ opening_of self.now.openings.entries id }
    {
        match self.openings.get(&id) {
            Some(number) => *number,
            None => 0,
        }
    }

    /// Returns whether the pass is of the present opening of its conversation. The number is looked up at the pass's
    /// hint first, since openings have the order of the records.
    #[inline(always)]
    pub(crate) fn is_current(&self, pass: &Pass) -> bool
        ensures { result ≡ is_current self.now.openings.entries pass.now }
    {
        self.opening_at_hint(pass.hint(), pass.conversation()) == pass.opening()
    }

    // As `opening`. `hint` may be any index and is tried first.
    #[inline(always)]
    fn opening_at_hint(&self, hint: usize, id: u32) -> u64
        ensures { result ≡ opening_of self.now.openings.entries id }
    {
        match self.openings.get_index(hint) {
            Some((key, number)) if *key == id => *number,
            _ => self.opening(id),
        }
    }

    // Sets where the id is looked up first in its list, if the conversation is there.
    fn set_place(&mut self, id: u32, place: usize)
        ensures index { self.new.index ≡ self.old.index }
        ensures openings { self.new.openings ≡ self.old.openings }
        ensures opened { self.new.opened ≡ self.old.opened }
    {
        if let Some(hint) = self.places.get_mut(&id) {
            *hint = place;
        }
    }
}
