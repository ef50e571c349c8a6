//! Command lines as a user types them, over files and an example's own standard input.

ghost use Rattle.std.specs.Prelude.{◌≡◌, ◌+◌, IfOk, None, string_len};

use crate::fault::RowsFault;
use scrib_command_line::run_command_line::{PipeOutput, Streams, run_command_line};
use std::alloc::{Allocator, Global};
use std::fmt::Display;
use std::io;
use std::io::{BufRead, ErrorKind, Input, IsTerminal, Lines, Write};
use std::marker::Send;
use std::rt::Files;
use std::sync::Wait;
use std::thread::Threads;

// Standard input that is the text of an example.
#[derive(Clone, Copy)]
struct ExampleInput<'a> {
    text: &'a [u8],
    // Whether it is said to be a terminal.
    is_terminal: bool,
}

impl<'a> Input for ExampleInput<'a> {
    type Reader = &'a [u8];

    fn read_line<A: Allocator + Clone>(&self, buf: &mut String<A>) -> io::Result<usize> {
        self.reader().read_line(buf)
    }

    fn lines<A: Allocator>(&self, alloc: A) -> Lines<&'a [u8], A> {
        self.reader().lines(alloc)
    }

    fn reader(&self) -> &'a [u8] {
        self.text
    }
}

impl IsTerminal for ExampleInput<'_> {
    fn is_terminal(&self) -> bool {
        self.is_terminal
    }
}

// An output whose reader has gone.
#[derive(Drop)]
struct UnreadOutput;

impl Write for UnreadOutput {
    ghost contents = { λ _. None };

    fn write(&mut self, _buf: &[u8]) -> io::Result<usize> {
        Err(io::Error::from(ErrorKind::BrokenPipe))
    }

    fn flush(&mut self) -> io::Result<()> {
        Ok(())
    }
}

// Both standard streams in one: what goes to standard error is printed among the rest.
#[derive(Clone, Copy)]
struct OneStream<'a, R>(&'a R);

impl<R: Print> Print for OneStream<'_, R> {
    fn print<D: Display + Drop>(&self, value: D) -> io::Result<()> {
        self.0.print(value)
    }

    fn println<D: Display + Drop>(&self, value: D) -> io::Result<()> {
        self.0.println(value)
    }

    fn write_all(&self, bytes: &[u8]) -> io::Result<()> {
        self.0.write_all(bytes)
    }
}

impl<R: Print> Eprint for OneStream<'_, R> {
    fn eprint<D: Display + Drop>(&self, value: D) -> io::Result<()> {
        self.0.print(value)
    }

    fn eprintln<D: Display + Drop>(&self, value: D) -> io::Result<()> {
        self.0.println(value)
    }
}

// Runs the program's command line of these words over these streams, and returns the status that it ends with.
fn run_words<R, I, E, W>(rt: &R, input: &I, messages: &E, writer: W, words: &[String]) -> u8
where
    R: Files + Threads + Wait + AllocGlobal + Sync,
    I: Input + IsTerminal + Sync,
    E: Print + Eprint + Sync,
    W: Write + Drop,
    R::File: Send,
    I::Reader: Send,
{
    let mut output = PipeOutput::new(writer);
    let mut streams = Streams {
        input,
        input_is_terminal: input.is_terminal(),
        output: &mut output,
        messages,
    };
    run_command_line(rt, &mut streams, words)
}

/// The standard streams of a command line.
#[derive(Clone, Copy, PartialEq, Eq)]
pub(crate) enum Ends {
    /// Both are read and written as files are.
    Files,
    /// Standard input is a terminal.
    Terminal,
    /// The reader of standard output has gone.
    Unread,
}

// The words of the command line, the program's name first.
fn words_of(alloc: Global, command: &str) -> Result<Vec<String>, RowsFault> {
    let mut words = Vec::new(alloc);
    words.push(String::from_str(alloc, "scribmon")?)?;
    for word in command.split_whitespace() {
        words.push(String::from_str(alloc, word)?)?;
    }
    Ok(words)
}

/// Runs the program's command line of these words, and writes the status that it ends with.
pub(crate) fn obey_files<R: Print + Files + Threads + Wait + AllocGlobal + Sync, W: Write>(
    rt: &R,
    ends: Ends,
    command: &str,
    input: &str,
    writer: &mut W,
) -> Result<(), RowsFault>
where
    R::File: Send,
{
    let words = words_of(rt.alloc(), command)?;
    let input = ExampleInput {
        text: input.as_bytes(),
        is_terminal: ends == Ends::Terminal,
    };
    let messages = OneStream(rt);
    writer.flush()?;
    let status = if ends == Ends::Unread {
        run_words(rt, &input, &messages, UnreadOutput, words.as_slice())
    } else {
        run_words(rt, &input, &messages, &mut *writer, words.as_slice())
    };
    writeln!(writer, "status {status}")?;
    Ok(())
}
