//! Counts the lines and bytes of a script, within its limits.

ghost use Rattle.std.specs.Prelude.{◌≤◌, ◌<◌, ◌+◌, ◌^◌};

use scrib_script_reader::limits::Limits;

/// How many lines of a script have ended, and how many bytes were consumed.
#[derive(Drop)]
pub(crate) struct LineCount {
    limits: Limits,
    lines: u64,
    bytes: u64,
    ghost few: { limits.lines + 1 < 2 ^ 64 },
    ghost numbered: { lines ≤ limits.lines },
    ghost counted: { bytes ≤ limits.bytes },
}

impl LineCount {
    ghost use Rattle.std.specs.Prelude.{◌≡◌, ◌<◌, ◌≤◌, ◌+◌, ◌^◌, IsFalse, IsTrue};

    /// Returns the count before the first byte of a script of these limits.
    pub(crate) fn new(limits: Limits) -> LineCount
        requires { limits.lines + 1 < 2 ^ 64 }
        ensures limits { result.limits ≡ limits }
        ensures lines { result.lines ≡ 0 }
        ensures bytes { result.bytes ≡ 0 }
    {
        LineCount {
            limits,
            lines: 0,
            bytes: 0,
        }
    }

    /// Returns the number of the current line, from 1.
    #[inline(always)]
    pub(crate) fn number(&self) -> u64
        ensures { result ≡ self.now.lines + 1 }
    {
        self.lines + 1
    }

    /// Counts bytes of the current line, if they are within the limits. Returns whether they are.
    pub(crate) fn take(&mut self, bytes: usize) -> bool
        ensures limits { self.new.limits ≡ self.old.limits }
        ensures lines { self.new.lines ≡ self.old.lines }
        ensures counted { IsTrue result → self.new.bytes ≡ self.old.bytes + bytes }
        ensures few_bytes { IsTrue result → self.new.bytes ≤ self.old.limits.bytes }
        ensures few_lines { IsTrue result → self.old.lines < self.old.limits.lines }
    {
        if self.lines >= self.limits.lines {
            return false;
        }
        let room = self.limits.bytes - self.bytes;
        if bytes as u64 > room {
            return false;
        }
        self.bytes += bytes as u64;
        true
    }

    /// Counts the end of the current line.
    pub(crate) fn end_line(&mut self)
        requires { self.old.lines < self.old.limits.lines }
        ensures limits { self.new.limits ≡ self.old.limits }
        ensures lines { self.new.lines ≡ self.old.lines + 1 }
        ensures bytes { self.new.bytes ≡ self.old.bytes }
    {
        self.lines += 1;
    }
}
