//! Outputs whose reader may go away, as the next program of a pipe.

use std::io;
use std::io::{ErrorKind, Write};

/// A writer that remembers whether its pipe broke.
#[derive(Drop)]
pub struct PipeOutput<W> {
    writer: W,
    lost_reader: bool,
}

impl<W: Write> PipeOutput<W> {
    ghost use Rattle.std.specs.Prelude.{◌≡◌};

    /// Wraps a writer. No pipe has broken yet.
    pub fn new(writer: W) -> PipeOutput<W>
        ensures { result.writer ≡ writer }
    {
        PipeOutput {
            writer,
            lost_reader: false,
        }
    }

    /// Returns whether a write or a flush failed because the reader of the output has gone.
    pub fn has_lost_reader(&self) -> bool {
        self.lost_reader
    }
}

impl<W: Write> Write for PipeOutput<W> {
    ghost contents = { λ o. W.contents o.writer };

    fn write(&mut self, buf: &[u8]) -> io::Result<usize> {
        let written = self.writer.write(buf);
        if let Err(e) = &written
            && e.kind() == ErrorKind::BrokenPipe
        {
            self.lost_reader = true;
        }
        written
    }

    fn flush(&mut self) -> io::Result<()> {
        let flushed = self.writer.flush();
        if let Err(e) = &flushed
            && e.kind() == ErrorKind::BrokenPipe
        {
            self.lost_reader = true;
        }
        flushed
    }
}
