//! The lines of entries whose items wait.

use indexmap::IndexMap;
use std::alloc::{AllocError, Global};

/// What is kept of an entry.
#[derive(Drop)]
pub(crate) struct KeptLines {
    /// What is written for it.
    pub(crate) lines: Vec<u8>,
    /// The name of the conversation that it closes, if it has one.
    pub(crate) closes: Option<String>,
}

/// The lines of entries whose items wait, by the numbers of the entries.
#[derive(Drop)]
pub(crate) struct WaitingLines {
    kept: IndexMap<u64, KeptLines>,
}

impl WaitingLines {
    ghost use Rattle.std.specs.Prelude.{◌≡◌, ℕ, None, Some, OnOk, OnErr, nat_eq};
    ghost use Rattle.std.specs.Map.{update};
    ghost use Rattle.scrib_hold_labelled.specs.WaitingLines.{kept_at};

    /// Returns no lines.
    pub(crate) fn new(alloc: Global) -> WaitingLines
        ensures { (n : ℕ) → kept_at result n ≡ None }
    {
        WaitingLines {
            kept: IndexMap::new(alloc),
        }
    }

    /// Keeps the lines of the entry of this number.
    ///
    /// # Errors
    /// `AllocError` where memory is refused. What is kept is then as it was.
    pub(crate) fn put(&mut self, number: u64, lines: KeptLines) -> Result<(), AllocError>
        ensures ok { OnOk result ((n : ℕ)
            → kept_at self.new n ≡ update nat_eq (kept_at self.old) number (Some lines) n) }
        ensures err { OnErr result ((n : ℕ) → kept_at self.new n ≡ kept_at self.old n) }
    {
        self.kept.insert(number, lines)?;
        Ok(())
    }

    /// Takes the lines of the entry of this number away, and returns them, if they are kept.
    pub(crate) fn take(&mut self, number: u64) -> Option<KeptLines>
        ensures found { result ≡ kept_at self.old number }
        ensures rest { (n : ℕ) → kept_at self.new n ≡ update nat_eq (kept_at self.old) number None n }
    {
        self.kept.swap_remove(&number)
    }
}
