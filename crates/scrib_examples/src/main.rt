//! Runs worked examples. Each has a title line that begins with `== `, a line with a command, and the text that the
//! command is for. The output is each title with what the command prints. The commands are:
//!
//! - one of `scribmon` and its words (`watch`, `explain 1`, `project demo.Hello A`, `machine demo.Hello A`), or
//!   `judge`, which compares the verdicts of a script with the judgement of whole logs; the script or the module texts
//!   follow. What such a command prints where receptions merge is printed too, where it is something else;
//! - `files` and a command as the program takes it, with files of the folder that this is run in; standard input
//!   follows. What goes to standard error, and the exit status, are printed too;
//! - `terminal` or `unread` and a command, as behind `files`, but standard input is a terminal, or the reader of standard
//!   output has gone;
//! - `repeated`; a script of `watch` follows whose blocks `[COUNT:TEXT]` are repeated so often, with a number from 0 in
//!   place of each `@` and the next one in place of `@+`. Of lines that follow one another and differ in digits alone
//!   the first, the last and the number of the others are printed;
//! - `edits beside notes`, and `one line too many`, which are runs over a service;
//! - `service` with one of the words that `service` knows, and a number;
//! - `memory` and a name of `memory`, or `all`.
//!
//! Where the program's command line has words, it does what they ask for and reads nothing: `memory` and a name, or a
//! command of `service`. It ends with status 1 where an example isn't answered as stored, and with 3 where memory
//! was refused.
#![tactic(auto)]

mod fault;
mod files;
mod making;
mod memory;
mod service;
mod texts;

use crate::fault::{RowsFault, second};
use crate::files::{Ends, obey_files};
use crate::memory::run_refused;
use crate::service::printed_service;
use crate::texts::{printed_beside, printed_past, printed_repeated, printed_texts};
use std::io::{BufWriter, Write};
use std::marker::Send;
use std::process::ExitCode;
use std::rt::{Env, Files};
use std::sync::Wait;
use std::thread::Threads;
use std::{env, io};

// Runs one example, from its title on.
fn run_example<R: Print + Files + Threads + Wait + AllocGlobal + Sync, W: Write>(
    rt: &R,
    example: &str,
    writer: &mut W,
) -> Result<(), RowsFault>
where
    R::File: Send,
{
    let alloc = rt.alloc();
    let (title, rest) = example.split_once('\n').ok_or(RowsFault::BadRow)?;
    let (command, body) = rest.split_once('\n').ok_or(RowsFault::BadRow)?;
    writeln!(writer, "== {title}")?;
    let printed = match (command, command.split_once(' ')) {
        ("edits beside notes", _) => printed_beside(rt, alloc)?,
        ("one line too many", _) => printed_past(rt, alloc, body)?,
        ("repeated", _) => printed_repeated(alloc, body)?,
        (_, Some(("files", command))) => {
            return obey_files(rt, Ends::Files, command, body, writer);
        }
        (_, Some(("terminal", command))) => {
            return obey_files(rt, Ends::Terminal, command, body, writer);
        }
        (_, Some(("unread", command))) => {
            return obey_files(rt, Ends::Unread, command, body, writer);
        }
        (_, Some(("memory", name))) => return run_refused(rt, alloc, name, writer),
        (_, Some(("service", command))) => printed_service(rt, alloc, command, body)?,
        _ => printed_texts(alloc, command, body)?,
    };
    writer.write_all(printed.as_slice())?;
    Ok(())
}

// Runs the examples of the input.
fn run_examples<R: Print + Input + Files + Threads + Wait + AllocGlobal + Sync>(
    rt: &R,
) -> Result<(), RowsFault>
where
    R::File: Send,
{
    let alloc = rt.alloc();
    let text = io::read_to_string(alloc, rt.reader())?;
    let mut writer = BufWriter::new(alloc, io::writer(rt))?;
    for example in text.as_str().split("== ").skip(1) {
        run_example(rt, example, &mut writer)?;
    }
    writer.flush()?;
    Ok(())
}

// The words of the command line behind the program's name, with blanks between them.
fn command_line(rt: &(impl Env + AllocGlobal)) -> Result<String, RowsFault> {
    let mut line = String::new(rt.alloc());
    for word in env::args(rt)?.skip(1) {
        if !line.is_empty() {
            line.push_str(" ")?;
        }
        line.push_str(&word)?;
    }
    Ok(line)
}

// Does what the words of the command line ask for; runs the examples of the input where there are none.
fn run<R: Print + Input + Files + Threads + Wait + AllocGlobal + Sync + Env>(
    rt: &R,
) -> Result<(), RowsFault>
where
    R::File: Send,
{
    let line = match command_line(rt) {
        Err(RowsFault::Memory) => second(command_line(rt))?,
        line => line?,
    };
    if line.is_empty() {
        return run_examples(rt);
    }
    let mut writer = io::writer(rt);
    match line.split_once(' ') {
        Some(("memory", name)) => run_refused(rt, rt.alloc(), name, &mut writer),
        _ => {
            let printed = printed_service(rt, rt.alloc(), line.as_str(), "")?;
            writer.write_all(printed.as_slice())?;
            Ok(())
        }
    }
}

fn main(rt: HostRuntime) -> ExitCode {
    match run(&rt) {
        Ok(()) => ExitCode::SUCCESS,
        Err(RowsFault::Memory | RowsFault::Again) => ExitCode::from(3),
        Err(_) => ExitCode::from(1),
    }
}
