//! What is written for readers that give little or fail, and for writers that take little or fail.

mod at_once;
mod limits;

use scrib_cli::check::{Core, check_module};
use scrib_cli::explain_script::explain_script;
use scrib_cli::next_script::next_script;
use scrib_cli::run_script::{Format, ScriptFault, run_script};
use scrib_labelled::explain_labelled_script::explain_labelled_script;
use scrib_labelled::label_options::{LabelOptions, LabelledStyle};
use scrib_labelled::next_labelled_script::next_labelled_script;
use scrib_labelled::run_labelled_script::run_labelled_script;
use scrib_labelled::session_key::SessionKey;
use scrib_script_reader::limits::Limits;
use std::alloc::Global;
use std::io;
use std::io::{ErrorKind, Read, Write};
use std::process::Abort;
use std::test::Fail;

// Gives the text in pieces, and fails at one call.
#[derive(Drop)]
struct Pieces<'a> {
    text: &'a [u8],
    size: usize,
    calls: u32,
    fails_at: u32,
}

impl Read for Pieces<'_> {
    fn read(&mut self, buf: &mut [u8]) -> io::Result<usize> {
        self.calls = self.calls.wrapping_add(1);
        if self.calls == self.fails_at {
            return Err(io::Error::from(ErrorKind::Other));
        }
        let n = self.size.min(buf.len()).min(self.text.len());
        let (now, later) = self.text.split_at(n);
        buf[..n].copy_from_slice(now);
        self.text = later;
        Ok(n)
    }
}

// Takes the output in pieces, and fails at one call of a write or a flush.
#[derive(Drop)]
struct Page {
    output: Vec<u8>,
    size: usize,
    calls: u32,
    fails_at: u32,
}

impl Write for Page {
    fn write(&mut self, buf: &[u8]) -> io::Result<usize> {
        self.calls = self.calls.wrapping_add(1);
        if self.calls == self.fails_at {
            return Err(io::Error::from(ErrorKind::Other));
        }
        let n = self.size.min(buf.len());
        self.output.extend_from_slice(&buf[..n])?;
        Ok(n)
    }

    fn flush(&mut self) -> io::Result<()> {
        self.calls = self.calls.wrapping_add(1);
        if self.calls == self.fails_at {
            return Err(io::Error::from(ErrorKind::Other));
        }
        Ok(())
    }
}

// What is done with a text.
#[derive(Clone, Copy)]
enum Command {
    // It is a script.
    Watch,
    // It is a script with names and tags.
    Labelled,
    // It is a script with names and tags, whose complete conversations are closed.
    Closing,
    // It is a script of objects with names and tags, whose complete conversations are closed.
    Objects,
    // It is a script of objects with names and tags, of whose conversation `a.b:c` the messages in flight are listed.
    ExplainNamed,
    // It is the same, behind which each role of conversation `a.b:c` has a line.
    NextNamed,
    // It is a script, of whose conversation 1 the messages in flight are told.
    Explain,
    // It is a script, behind which each role of conversation 1 has a line.
    Next,
    // It is a module.
    Check,
}

// What a command came to: its answer, what it wrote, and how many reads, and how many writes and flushes, there were.
#[derive(Drop)]
struct Outcome {
    answer: Result<(), ScriptFault>,
    output: Vec<u8>,
    reads: u32,
    writes: u32,
}

const NAMES_AND_TAGS: LabelOptions = LabelOptions {
    tags: true,
    names: true,
    objects: false,
};

const OBJECTS: LabelOptions = LabelOptions {
    tags: true,
    names: true,
    objects: true,
};

// The style of a script with these labels.
fn style_of(labels: LabelOptions, closes: bool) -> LabelledStyle {
    LabelledStyle {
        labels,
        closes,
        format: Format::Line,
        lines: false,
    }
}

fn obey<R: Read, W: Write>(
    alloc: Global,
    command: Command,
    reader: &mut R,
    writer: &mut W,
) -> Result<(), ScriptFault> {
    match command {
        Command::Watch => run_script(alloc, Format::Line, reader, writer)?,
        Command::Labelled => {
            let style = style_of(NAMES_AND_TAGS, false);
            run_labelled_script(alloc, style, Limits::of_scripts(), reader, writer)?
        }
        Command::Closing => {
            let style = style_of(NAMES_AND_TAGS, true);
            run_labelled_script(alloc, style, Limits::of_scripts(), reader, writer)?
        }
        Command::Objects => {
            let style = style_of(OBJECTS, true);
            run_labelled_script(alloc, style, Limits::of_scripts(), reader, writer)?
        }
        Command::ExplainNamed => {
            explain_labelled_script(alloc, OBJECTS, reader, SessionKey::Name("a.b:c"), writer)?;
        }
        Command::NextNamed => {
            next_labelled_script(alloc, OBJECTS, reader, SessionKey::Name("a.b:c"), writer)?;
        }
        Command::Explain => {
            explain_script(alloc, reader, 1, writer)?;
        }
        Command::Next => {
            next_script(alloc, reader, 1, writer)?;
        }
        Command::Check => {
            check_module(alloc, &mut Core::new(alloc), reader, writer)?;
        }
    }
    Ok(())
}

// Obeys the command over the text by pieces of this size, with a read and a write or flush that fail, and none at 0.
fn outcome_of(
    alloc: Global,
    command: Command,
    text: &[u8],
    size: usize,
    (read, write): (u32, u32),
) -> Outcome {
    let mut reader = Pieces {
        text,
        size,
        calls: 0,
        fails_at: read,
    };
    let mut page = Page {
        output: Vec::new(alloc),
        size,
        calls: 0,
        fails_at: write,
    };
    let answer = obey(alloc, command, &mut reader, &mut page);
    let Page { output, calls, .. } = page;
    Outcome {
        answer,
        output,
        reads: reader.calls,
        writes: calls,
    }
}

const DEMO: &[u8] =
    b"put\nmodule demo; global protocol Hello(role A, role B) { hello() from A to B; bye() from B to A; }\n%%\nopen 1 demo.Hello\njoin 1 A\njoin 1 B\nsend 1 A B hello()\nrecv 1 A B hello()\nsend 1 B A bye()\nrecv 1 B A bye()\n";

const DEMO_OUTPUT: &[u8] =
    b"put demo: +demo.Hello\nopen 1: demo.Hello\n1.1 permitted\n1.2 permitted\n1.3 permitted\n1.4 permitted\n1.5 permitted\n1.6 permitted\n";

// A protocol that another module's calls, and that changes.
const CALLED: &[u8] =
    b"put\nmodule lib; global protocol P(role A, role B) { a() from A to B; }\n%%\nput\nmodule use; import lib; global protocol Q(role A, role B) { do lib.P(A, B); }\n%%\nput\nmodule demo; global protocol Hello(role A, role B) { hello() from A to B; bye() from B to A; }\n%%\nopen 1 use.Q\nopen 2 demo.Hello\nput\nmodule lib; global protocol P(role A, role B) { a(Int) from A to B; }\n%%\nask 1\nask 2\nturn 1\n";

const CALLED_OUTPUT: &[u8] =
    b"put lib: +lib.P\nput use: +use.Q\nput demo: +demo.Hello\nopen 1: use.Q\nopen 2: demo.Hello\nput lib: ~lib.P ~use.Q\n1 stale\n2 permitted\n1 permitted\n";

// A script that ends inside a module.
const CUT: &[u8] = b"put\nmodule demo; global protocol Hello(role A, role B) { hello() from\n";

const CUT_OUTPUT: &[u8] = b"refused EndOfText\n";

// The demonstration with names and tags. A name is given anew, a tag is no tag, and a line has a tab behind its tag. A put
// has its tag at its end, and another one at the end of the script.
const NAMED: &[u8] =
    b"@p put\nmodule demo; global protocol Hello(role A, role B) { hello() from A to B; }\n%%\n@1 open a.b:c demo.Hello\njoin a.b:c A\n@2 join a.b:c B\n@3\tsend a.b:c A B hello()\n@ ask a.b:c\n@4 close a.b:c\n@5 recv a.b:c A B hello()\n@6 json open a.b:c demo.Hello\n@7 recv a.b:c A B hello()\n@8 put\nmodule";

const NAMED_OUTPUT: &[u8] =
    b"@p put demo: +demo.Hello\n@1 open a.b:c: demo.Hello\na.b:c.1 permitted\n@2 a.b:c.2 permitted\n@3 a.b:c.3 permitted\nrefused BadLine 8\n@4 close a.b:c: permitted\n@5 refused NoConversation\n{\"conversation\":\"a.b:c\",\"opened\":\"demo.Hello\",\"tag\":\"6\"}\n@7 a.b:c.1 offence at 1 by B, allowed: join\n@8 refused EndOfText\n";

// A conversation with a name that is complete, and another one of this name.
const CLOSED: &[u8] =
    b"put\nmodule demo; global protocol Hello(role A, role B) { hello() from A to B; }\n%%\nopen a demo.Hello\njoin a A\njoin a B\nsend a A B hello()\n@5 recv a A B hello()\n@6 ask a\nopen a demo.Hello\n@7 json ask a\n";

const CLOSED_OUTPUT: &[u8] =
    b"put demo: +demo.Hello\nopen a: demo.Hello\na.1 permitted\na.2 permitted\na.3 permitted\n@5 a.4 permitted\n@5 close a: complete\n@6 refused NoConversation\nopen a: demo.Hello\n{\"conversation\":\"a\",\"events\":0,\"protocol\":\"demo.Hello\",\"tag\":\"7\",\"verdict\":\"permitted\"}\n";

// The same of objects: exchanges as the program prints objects, with blanks, in another order and with escapes.
const OBJECT_LINES: &[u8] =
    b"{\"do\":\"put\",\"tag\":\"p\",\"text\":\"module demo;\\nglobal protocol Hello(role A, role B) { hello() from A to B; }\"}\n{\"do\":\"open\",\"id\":\"a.b:c\",\"protocol\":\"demo.Hello\"}\n{\"do\":\"join\",\"id\":\"a.b:c\",\"role\":\"A\"}\n{\"role\":\"\\u0042\", \"do\":\"join\", \"id\":\"a.b:c\", \"tag\":\"1\"}\n{\"do\":\"send\",\"from\":\"A\",\"id\":\"a.b:c\",\"message\":\"hello()\",\"tag\":\"2\",\"to\":\"B\"}\n{\"do\":\"recv\",\"from\":\"A\",\"id\":\"a.b:c\",\"message\":\"hello()\",\"tag\":\"3 4\",\"to\":\"B\"}\nask a.b:c\n{\"do\":\"ask\",\"id\":7,\"tag\":\"5\"}";

const OBJECT_OUTPUT: &[u8] =
    b"@p put demo: +demo.Hello\nopen a.b:c: demo.Hello\na.b:c.1 permitted\n@1 a.b:c.2 permitted\n@2 a.b:c.3 permitted\nrefused BadLine 6\nrefused BadLine 7\n@5 refused NoConversation\n";

// The demonstration, up to the first message.
const SENT: &[u8] =
    b"put\nmodule demo; global protocol Hello(role A, role B) { hello() from A to B; bye() from B to A; }\n%%\nopen 1 demo.Hello\njoin 1 A\njoin 1 B\nsend 1 A B hello()\n";

const MODULE: &[u8] =
    b"module demo; global protocol Hello(role A, role B) { hello() from A to B; bye() from B to A; }";

// Commands, the texts that they are given, and what they write where no call fails.
const ROWS: [(Command, &[u8], &[u8]); 17] = [
    (Command::Watch, DEMO, DEMO_OUTPUT),
    (Command::Watch, CALLED, CALLED_OUTPUT),
    (Command::Watch, CUT, CUT_OUTPUT),
    (Command::Labelled, NAMED, NAMED_OUTPUT),
    (Command::Closing, CLOSED, CLOSED_OUTPUT),
    (Command::Objects, OBJECT_LINES, OBJECT_OUTPUT),
    (Command::ExplainNamed, OBJECT_LINES, b"A B hello()\n"),
    (
        Command::NextNamed,
        OBJECT_LINES,
        b"A: done\nB: may A?hello()\n",
    ),
    (Command::NextNamed, b"{", b"refused NoConversation\n"),
    (Command::Explain, SENT, b"A B hello()\n"),
    (Command::Explain, DEMO, b""),
    (Command::Explain, CUT, b"refused NoConversation\n"),
    (
        Command::Next,
        SENT,
        b"A: waits for B?bye()\nB: may A?hello()\n",
    ),
    (Command::Next, DEMO, b"A: done\nB: done\ncomplete\n"),
    (Command::Next, CUT, b"refused NoConversation\n"),
    (Command::Check, MODULE, b"put demo: +demo.Hello\n"),
    (Command::Check, b"module demo", b"refused EndOfText\n"),
];

#[test]
fn obeys_by_pieces(rt: HostRuntime) -> Result<(), Fail> {
    for size in [1usize, 2, 7, 8192] {
        for (command, text, want) in ROWS {
            let found = outcome_of(rt.alloc(), command, text, size, (0, 0));
            found.answer?;
            assert_eq!(rt; found.output.as_slice(), want);
            assert!(rt;
                want.is_empty() || found.writes >= 2,
                "a line is written and flushed"
            );
        }
    }
    Ok(())
}

// Whether the command writes each reply out before it reads on.
fn writes_early(command: Command) -> bool {
    matches!(
        command,
        Command::Watch | Command::Labelled | Command::Closing | Command::Objects
    )
}

// Fails each read in turn. It is told, and a beginning of the output was written until then; nothing, if the text is
// read to its end before anything is written.
fn fail_reads(
    rt: &impl Abort,
    alloc: Global,
    (command, text, want): (Command, &[u8], &[u8]),
    size: usize,
) {
    let reads = outcome_of(alloc, command, text, size, (0, 0)).reads;
    for at in 1..reads.saturating_add(1) {
        let Outcome { answer, output, .. } = outcome_of(alloc, command, text, size, (at, 0));
        assert!(rt;
            matches!(answer, Err(ScriptFault::Read)),
            "read {at} of {size} bytes"
        );
        assert!(rt;
            want.starts_with(output.as_slice()),
            "read {at} of {size} bytes"
        );
        assert!(rt;
            writes_early(command) || output.is_empty(),
            "read {at} of {size} bytes"
        );
    }
}

// Fails each write and flush in turn. It is told, and a beginning of the output was written until then.
fn fail_writes(
    rt: &impl Abort,
    alloc: Global,
    (command, text, want): (Command, &[u8], &[u8]),
    size: usize,
) {
    let writes = outcome_of(alloc, command, text, size, (0, 0)).writes;
    for at in 1..writes.saturating_add(1) {
        let Outcome { answer, output, .. } = outcome_of(alloc, command, text, size, (0, at));
        assert!(rt;
            matches!(answer, Err(ScriptFault::Write)),
            "write {at} of {size} bytes"
        );
        assert!(rt;
            want.starts_with(output.as_slice()),
            "write {at} of {size} bytes"
        );
    }
}

#[test]
fn each_failing_read_is_told(rt: HostRuntime) {
    for size in [1usize, 2, 7, 8192] {
        for row in ROWS {
            fail_reads(&rt, rt.alloc(), row, size);
        }
    }
}

#[test]
fn each_failing_write_is_told(rt: HostRuntime) {
    for size in [1usize, 2, 7, 8192] {
        for row in ROWS {
            fail_writes(&rt, rt.alloc(), row, size);
        }
    }
}

// Interrupts each read and each write once before it is made.
#[derive(Drop)]
struct Interrupted<T> {
    inner: T,
    is_next: bool,
}

impl<T> Interrupted<T> {
    // Whether this call is interrupted: every other one, from the first.
    fn interrupts(&mut self) -> bool {
        self.is_next = !self.is_next;
        !self.is_next
    }
}

impl<T: Read> Read for Interrupted<T> {
    fn read(&mut self, buf: &mut [u8]) -> io::Result<usize> {
        if self.interrupts() {
            return Err(io::Error::from(ErrorKind::Interrupted));
        }
        self.inner.read(buf)
    }
}

impl<T: Write> Write for Interrupted<T> {
    fn write(&mut self, buf: &[u8]) -> io::Result<usize> {
        if self.interrupts() {
            return Err(io::Error::from(ErrorKind::Interrupted));
        }
        self.inner.write(buf)
    }

    fn flush(&mut self) -> io::Result<()> {
        self.inner.flush()
    }
}

#[test]
fn interrupted_calls_are_made_again(rt: HostRuntime) -> Result<(), Fail> {
    let alloc = rt.alloc();
    for (command, text, want) in ROWS {
        let mut reader = Interrupted {
            inner: Pieces {
                text,
                size: 7,
                calls: 0,
                fails_at: 0,
            },
            is_next: true,
        };
        let mut writer = Interrupted {
            inner: Page {
                output: Vec::new(alloc),
                size: 7,
                calls: 0,
                fails_at: 0,
            },
            is_next: true,
        };
        obey(alloc, command, &mut reader, &mut writer)?;
        assert_eq!(rt; writer.inner.output.as_slice(), want);
    }
    Ok(())
}

// Asks, and then gives so many empty lines.
#[derive(Drop)]
struct Asking {
    asks: &'static [u8],
    blanks: usize,
}

impl Read for Asking {
    fn read(&mut self, buf: &mut [u8]) -> io::Result<usize> {
        if !self.asks.is_empty() {
            return self.asks.read(buf);
        }
        let n = self.blanks.min(buf.len());
        buf[..n].fill(b'\n');
        self.blanks -= n;
        Ok(n)
    }
}

#[test]
fn refuses_one_line_too_many(rt: HostRuntime) -> Result<(), Fail> {
    for (blanks, is_refused) in [(16_777_215, false), (16_777_216, true)] {
        let mut reader = Asking {
            asks: b"ask 1\n",
            blanks,
        };
        let mut written = Vec::new(rt.alloc());
        let result = run_script(rt.alloc(), Format::Line, &mut reader, &mut written);
        assert_eq!(rt; matches!(result, Err(ScriptFault::Read)), is_refused);
        assert_eq!(rt; result.is_ok(), !is_refused);
        assert_eq!(rt; written.as_slice(), b"refused NoConversation\n".as_slice());
    }
    Ok(())
}
