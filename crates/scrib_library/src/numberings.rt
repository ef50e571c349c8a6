//! Numberings of versions, for the conversations to share. Correctness does not depend on them: the user of a numbering
//! compares its version.

use crate::library::MAX_PROTOCOLS;
use once_cell::race::OnceBox;
use scrib_record::numbering::Numbering;
use scrib_record::version::Version;
use std::alloc::{AllocError, Global};

/// For each version a cell, in the order of the versions. The cell is filled when a conversation first needs the
/// numbering, and filled once: threads that fill it at the same time share the numbering of the first.
#[derive(Drop)]
pub struct Numberings {
    alloc: Global,
    cells: Vec<OnceBox<Numbering>>,
}

impl Numberings {
    /// Returns an empty list, without allocating.
    pub fn new(alloc: Global) -> Numberings {
        Numberings {
            alloc,
            cells: Vec::new(alloc),
        }
    }

    /// Allocates room for the cells of all versions, once.
    ///
    /// # Errors
    /// `AllocError` if memory was refused.
    pub fn make_room(&mut self) -> Result<(), AllocError> {
        if self.cells.capacity() == 0 {
            self.cells = Vec::with_capacity(self.alloc, MAX_PROTOCOLS)?;
        }
        Ok(())
    }

    /// Records that a version was inserted at this index.
    pub fn insert(&mut self, at: usize) {
        if at <= self.cells.len() {
            let cell = OnceBox::new(self.alloc);
            let _ = self.cells.insert(at, cell);
        }
    }

    /// Records that the version at this index was replaced. Its numbering is dropped.
    pub fn renew(&mut self, at: usize) {
        let empty = OnceBox::new(self.alloc);
        if let Some(cell) = self.cells.get_mut(at) {
            *cell = empty;
        }
    }

    /// Records that the version at this index was removed.
    pub fn remove(&mut self, at: usize) {
        if at < self.cells.len() {
            let _ = self.cells.remove(at);
        }
    }

    /// Returns the numbering of the version at this index, shared. It is made first if the cell is empty. Returns none
    /// if there is no cell or if memory was refused.
    pub fn share(&self, at: usize, version: &Version) -> Option<Numbering> {
        let cell = self.cells.get(at)?;
        let alloc = self.alloc;
        match cell.get_or_try_init(move || make_numbering(alloc, version)) {
            Ok(numbering) => numbering.share().ok(),
            Err(_) => None,
        }
    }
}

// Returns the numbering of the version, in a box. Errors: `AllocError` if memory was refused.
fn make_numbering(alloc: Global, version: &Version) -> Result<Box<Numbering>, AllocError> {
    let numbering = Numbering::new(alloc, version)?;
    Ok(Box::new(alloc, numbering)?)
}
