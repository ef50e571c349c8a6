//! Readers that remember whether a read failed.

use std::io;
use std::io::{ErrorKind, Read};

/// A reader that remembers whether a read failed. A read fault then comes from the reader, else from a script's limits.
#[derive(Drop)]
pub struct Observed<R> {
    reader: R,
    failed: bool,
}

impl<R: Read> Observed<R> {
    ghost use Rattle.std.specs.Prelude.{◌≡◌};

    /// Wraps a reader. No read has failed yet.
    pub fn new(reader: R) -> Observed<R>
        ensures { result.reader ≡ reader }
    {
        Observed {
            reader,
            failed: false,
        }
    }

    /// Returns whether a read failed for another reason than an interruption.
    pub fn has_failed(&self) -> bool {
        self.failed
    }
}

impl<R: Read> Read for Observed<R> {
    ghost remaining = { λ o. R.remaining o.reader };

    fn read(&mut self, buf: &mut [u8]) -> io::Result<usize> {
        let result = self.reader.read(buf);
        if let Err(e) = &result
            && e.kind() != ErrorKind::Interrupted
        {
            self.failed = true;
        }
        result
    }
}
