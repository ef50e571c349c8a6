//! The numbers that stand for the names of conversations.

ghost use Rattle.std.specs.Prelude.{◌≡◌, ℕ, List, Some, true};
ghost use Rattle.std.specs.HashMap.{get_by_text};
ghost use Rattle.scrib_labels.specs.SessionNames.{is_session_name};
ghost use Rattle.scrib_labels.specs.NameSlots.{name_at};

use crate::name_slot::name_slot;
use indexmap::IndexMap;
use scrib_types::bytes::same_bytes;
use slab::Slab;
use std::alloc::{AllocError, Global};

// How many hints there are at first. There is always a power of two of them, or none.
const FIRST_HINTS: usize = 256;

// How many hints there are for each name at least, so that few names share one.
const HINTS_OF_A_NAME: usize = 4;

/// Names of conversations, each with a number of its own. A name's number stays the same until the name is removed.
#[derive(Drop)]
pub struct SessionNames {
    alloc: Global,
    // The name of each number in use.
    names: Slab<String>,
    numbers: IndexMap<String, u32>,
    // The number of a name by the low bits of its hash. The name of what is found is compared, so no contract speaks of it.
    hints: Vec<u32>,
    ghost kept: { (name : List ℕ) (number : ℕ) → get_by_text numbers name ≡ Some number
        → name_at names number ≡ Some name },
    ghost named: { (name : List ℕ) (number : ℕ) → get_by_text numbers name ≡ Some number
        → is_session_name name ≡ true },
    ghost found: { (name : List ℕ) (number : ℕ) → name_at names number ≡ Some name
        → get_by_text numbers name ≡ Some number },
}

impl SessionNames {
    ghost use Rattle.std.specs.Prelude.{◌≡◌, ℕ, List, None, Some, true, IfNone, IfOk, IfSome, OnOk, OnErr};
    ghost use Rattle.std.specs.Map.{update};
    ghost use Rattle.std.specs.Str.{bytes_eq};
    ghost use Rattle.scrib_labels.specs.Naming.{IsNumberFor, IsVacant, next_number, number_of};

    /// Returns no names.
    pub fn new(alloc: Global) -> SessionNames
        ensures { (name : List ℕ) → number_of result name ≡ None }
    {
        SessionNames {
            alloc,
            names: Slab::new(alloc),
            numbers: IndexMap::new(alloc),
            hints: Vec::new(alloc),
        }
    }

    /// Returns the number of the name, if it has one.
    pub fn number_of(&self, name: &str) -> Option<u32>
        ensures { result ≡ number_of self.now name.now }
    {
        self.numbers.get(name).copied()
    }

    /// Returns the name that has the number. None exactly where no name has it.
    pub fn name_of(&self, number: u32) -> Option<&str>
        ensures named { IfSome result (λ name. number_of self.now name.now ≡ Some number) }
        ensures vacant { IfNone result (IsVacant self.now number) }
    {
        Some(self.names.get(number as usize)?.as_str())
    }

    /// Returns the number of the name, where its hash leads to it. None where it has none, and where another name of that
    /// hash came later.
    #[inline(always)]
    pub fn find(&self, name: &[u8]) -> Option<u32>
        ensures { IfSome result (λ number. number_of self.now name.now ≡ Some number) }
    {
        let number = *self.hints.get(self.slot_of(name))?;
        let found = self.names.get(number as usize)?;
        if !same_bytes(found.as_bytes(), name) {
            return None;
        }
        Some(number)
    }

    // The slot of the name among the hints.
    #[inline(always)]
    fn slot_of(&self, name: &[u8]) -> usize {
        name_slot(name, self.hints.len())
    }

    /// Returns a number that no name has. None where 4,294,967,296 names have one.
    pub fn vacant(&self) -> Option<u32>
        ensures vacant { IfSome result (IsVacant self.now) }
        ensures next { IfSome result (λ number. number ≡ next_number self.now) }
    {
        match u32::try_from(self.names.vacant_key()) {
            Ok(number) => Some(number),
            Err(_) => None,
        }
    }

    /// Gives the name a number that no name had, and returns it.
    ///
    /// # Errors
    /// `AllocError` where memory is refused, or 4,294,967,296 names have a number. Each name keeps what it had.
    pub fn add(&mut self, name: &str) -> Result<u32, AllocError>
        requires new { number_of self.old name.now ≡ None }
        requires named { is_session_name name.now ≡ true }
        ensures given { IfOk result (λ number. (other : List ℕ)
            → number_of self.new other ≡ update bytes_eq (number_of self.old) name.now (Some number) other) }
        ensures vacant { IfOk result (IsVacant self.old) }
        ensures next { IfOk result (λ number. number ≡ next_number self.old) }
        ensures err { OnErr result ((other : List ℕ) → number_of self.new other ≡ number_of self.old other) }
    {
        let Some(number) = self.vacant() else {
            return Err(AllocError);
        };
        let key = String::from_str(self.alloc, name)?;
        let at = self.names.insert(String::from_str(self.alloc, name)?)?;
        let Ok(_) = self.numbers.insert(key, number) else {
            self.names.try_remove(at);
            return Err(AllocError);
        };
        self.hint(name.as_bytes(), number);
        Ok(number)
    }

    // Notes where the name is. Where memory for more hints is refused, there are as many as before.
    fn hint(&mut self, name: &[u8], number: u32)
        ensures { self.new ≡ record self.old { hints = self.new.hints } }
    {
        if self.hints.len() / HINTS_OF_A_NAME < self.numbers.len() {
            let _ = self.more_hints();
        }
        let slot = self.slot_of(name);
        if let Some(hint) = self.hints.get_mut(slot) {
            *hint = number;
        }
    }

    // Makes room for twice as many hints, and notes each name anew.
    fn more_hints(&mut self) -> Result<(), AllocError>
        ensures { self.new ≡ record self.old { hints = self.new.hints } }
    {
        let count = self.hints.len().saturating_mul(2).max(FIRST_HINTS);
        self.hints.resize(count, 0)?;
        for (name, number) in self.numbers.iter() {
            let slot = name_slot(name.as_bytes(), self.hints.len());
            if let Some(hint) = self.hints.get_mut(slot) {
                *hint = *number;
            }
        }
        Ok(())
    }

    /// Returns the number that stands for the name: its own, or the next one where it has none.
    ///
    /// # Errors
    /// `AllocError` where the name has no number, and 4,294,967,296 names have one.
    pub fn number_for(&self, name: &str) -> Result<u32, AllocError>
        ensures { IfOk result (IsNumberFor self.now name.now) }
    {
        match self.number_of(name) {
            Some(number) => Ok(number),
            None => self.vacant().ok_or(AllocError),
        }
    }

    /// Keeps the number that stands for the name, as [`SessionNames::number_for`] returned it.
    ///
    /// # Errors
    /// `AllocError` where memory is refused. Each name keeps what it had.
    pub fn keep(&mut self, name: &str, number: u32) -> Result<(), AllocError>
        requires number { IsNumberFor self.old name.now number }
        requires named { is_session_name name.now ≡ true }
        ensures kept { OnOk result ((other : List ℕ)
            → number_of self.new other ≡ update bytes_eq (number_of self.old) name.now (Some number) other) }
        ensures err { OnErr result ((other : List ℕ) → number_of self.new other ≡ number_of self.old other) }
    {
        if self.number_of(name).is_some() {
            return Ok(());
        }
        self.add(name)?;
        Ok(())
    }

    /// Takes the number of the name away, if it has one. The number may be given to another name then.
    pub fn remove(&mut self, name: &str)
        ensures { (other : List ℕ)
            → number_of self.new other ≡ update bytes_eq (number_of self.old) name.now None other }
    {
        if let Some(number) = self.numbers.swap_remove(name) {
            self.names.try_remove(number as usize);
        }
    }
}
