//! Runs a command line.

use crate::held_scripts::hold;
use crate::outcomes::{
    REFUSED_STATUS, flush_and_print_fault, print_fault, print_terminal_hint, print_usage,
};
pub use crate::pipe_output::PipeOutput;
use crate::show::show;
use crate::subcommands::{Report, report_by_id, run_over_service, run_simple_command, run_watch};
use crate::why::write_why;
use clap::ArgMatches;
use scrib_arguments::arguments::command;
use scrib_cli::commands::fault::CommandFault;
use scrib_cli::commands::status::fault_text;
use std::io;
use std::io::{Input, Write};
use std::marker::Send;
use std::rt::Files;
use std::sync::Wait;
use std::thread::Threads;

/// The streams of a process: standard input, the writer of the output, and the printer of help and of faults.
#[derive(Drop)]
pub struct Streams<'a, I, W, E> {
    pub input: &'a I,
    /// Whether standard input is a terminal. A command that reads a script from it then prints how the script ends.
    pub input_is_terminal: bool,
    pub output: &'a mut PipeOutput<W>,
    pub messages: &'a E,
}

/// Runs the command line of these words, and returns the exit status. The first word is the program's name.
///
/// The status is that of `status_of`, 2 where the command line is refused, and 0 where it asks for help or the version.
/// A fault is printed to standard error as its fixed line, followed by a line with the file and the cause. Where the
/// reader of the output has gone, nothing is printed, and the status is 141, as of a program that the broken pipe ends.
pub fn run_command_line<
    R: Files + Threads + Wait + AllocGlobal + Sync,
    I: Input + Sync,
    W: Write,
    E: Print + Eprint + Sync,
>(system: &R, streams: &mut Streams<'_, I, W, E>, words: &[String]) -> u8
where
    R::File: Send,
    I::Reader: Send,
{
    let Ok(line) = command(system.alloc()) else {
        return print_fault(streams, &Err(CommandFault::OutOfMemory));
    };
    match line.try_get_matches_from(words) {
        Ok(matches) => dispatch(system, streams, &matches),
        Err(error) => print_usage(streams, &error),
    }
}

// Runs the command, and returns the exit status.
fn dispatch<
    R: Files + Threads + Wait + AllocGlobal + Sync,
    I: Input + Sync,
    W: Write,
    E: Print + Eprint + Sync,
>(system: &R, streams: &mut Streams<'_, I, W, E>, matches: &ArgMatches) -> u8
where
    R::File: Send,
    I::Reader: Send,
{
    match matches.subcommand() {
        Some(("run", matches)) => run_over_service(system, streams, matches),
        Some(("why", matches)) => {
            let outcome = write_why(system.alloc(), matches.get_str("KIND"), streams.output);
            flush_and_print_fault(streams, &outcome)
        }
        Some((name @ ("check" | "list" | "project" | "machine"), matches)) => {
            let outcome = run_simple_command(system, streams, name, matches);
            flush_and_print_fault(streams, &outcome)
        }
        Some((name, matches)) => read_script(system, streams, name, matches),
        None => REFUSED_STATUS,
    }
}

// Runs a command that reads a script, and returns the exit status.
fn read_script<R: Files + AllocGlobal, I: Input, W: Write, E: Print + Eprint>(
    system: &R,
    streams: &mut Streams<'_, I, W, E>,
    name: &str,
    matches: &ArgMatches<'_>,
) -> u8 {
    print_terminal_hint(streams, matches.get_str("FILE"));
    match name {
        "explain" => report_by_id(system, streams, Report::Flights, matches),
        "hold" => hold(system, streams, matches),
        "next" => report_by_id(system, streams, Report::Next, matches),
        "show" => show(system, streams, matches),
        _ => run_watch(system, streams, matches),
    }
}

/// Prints why the command line or the output could not be prepared, and returns the exit status.
///
/// The status is 1 where memory is refused, and 2 where a word is not UTF-8.
pub fn print_start_fault<E: Eprint>(messages: &E, kind: io::ErrorKind) -> u8 {
    if kind == io::ErrorKind::OutOfMemory {
        let _ = messages.eprintln(fault_text(&CommandFault::OutOfMemory));
        return 1;
    }
    let _ = messages.eprintln("error: a word of the command line is not UTF-8");
    REFUSED_STATUS
}
