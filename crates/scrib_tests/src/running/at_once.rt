//! Replies that are flushed before the next line is waited for.

use super::DEMO;
use scrib_cli::run_script::{Format, run_script};
use std::cell::Cell;
use std::io;
use std::io::{Read, Write};
use std::test::Fail;

// Gives a line at each read, and notes how many bytes had been flushed before it.
#[derive(Drop)]
struct Lines<'a> {
    script: &'a [u8],
    flushed: &'a Cell<usize>,
    before: Vec<usize>,
}

impl Read for Lines<'_> {
    fn read(&mut self, buf: &mut [u8]) -> io::Result<usize> {
        self.before.push(self.flushed.get())?;
        let line = match self.script.iter().position(|byte| *byte == b'\n') {
            Some(at) => &self.script[..at + 1],
            None => self.script,
        };
        let n = line.len().min(buf.len());
        let (now, later) = self.script.split_at(n);
        buf[..n].copy_from_slice(now);
        self.script = later;
        Ok(n)
    }
}

// Counts what is written, and shows the count at each flush.
#[derive(Drop)]
struct Count<'a> {
    written: usize,
    flushed: &'a Cell<usize>,
}

impl Write for Count<'_> {
    fn write(&mut self, buf: &[u8]) -> io::Result<usize> {
        self.written = self.written.saturating_add(buf.len());
        Ok(buf.len())
    }

    fn flush(&mut self) -> io::Result<()> {
        self.flushed.set(self.written);
        Ok(())
    }
}

// The reply to the put has 22 bytes, that to the opening 19, and each of the six others 14. The last read finds the
// end.
#[test]
fn flushes_each_reply_before_the_next_read(rt: HostRuntime) -> Result<(), Fail> {
    let flushed = Cell::new(0usize);
    let mut reader = Lines {
        script: DEMO,
        flushed: &flushed,
        before: Vec::new(rt.alloc()),
    };
    let mut writer = Count {
        written: 0,
        flushed: &flushed,
    };
    run_script(rt.alloc(), Format::Line, &mut reader, &mut writer)?;
    let want = [0usize, 0, 0, 22, 41, 55, 69, 83, 97, 111, 125];
    assert_eq!(rt; reader.before.as_slice(), want.as_slice());
    Ok(())
}
