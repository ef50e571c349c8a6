//! Prints faults and usage at the end of a command line, and returns its exit status.

use crate::run_command_line::Streams;
use clap::Error;
use clap::error::ErrorKind;
use scrib_arguments::arguments::command;
use scrib_cli::commands::fault::CommandFault;
use scrib_cli::commands::status::{fault_text, status_of};
use std::alloc::{AllocError, Global};
use std::io::Write;

// The exit status of a refused command line.
pub(crate) const REFUSED_STATUS: u8 = 2;

// The exit status where the reader of the output has gone: that of a program which the signal of a broken pipe ends.
const BROKEN_PIPE_STATUS: u8 = 141;

// The error of a bad value on the command line.
fn refused_value(alloc: Global, message: &str) -> Result<Error, AllocError> {
    command(alloc)?.error(ErrorKind::ValueValidation, message)
}

// Prints the error of a bad value, and returns the exit status.
pub(crate) fn refuse_value<I, W, E: Print + Eprint>(
    alloc: Global,
    streams: &Streams<'_, I, W, E>,
    message: &str,
) -> u8 {
    match refused_value(alloc, message) {
        Ok(error) => print_usage(streams, &error),
        Err(AllocError) => print_fault(streams, &Err(CommandFault::OutOfMemory)),
    }
}

// Prints help, the version, or why the command line is refused. Returns the exit status.
pub(crate) fn print_usage<I, W, E: Print + Eprint>(
    streams: &Streams<'_, I, W, E>,
    error: &Error,
) -> u8 {
    if error.kind() == ErrorKind::OutOfMemory {
        return print_fault(streams, &Err(CommandFault::OutOfMemory));
    }
    let _ = error.print(streams.messages);
    if error.use_stderr() {
        REFUSED_STATUS
    } else {
        0
    }
}

// Flushes the output, prints the command's fault if it has one, and returns the exit status. Prints nothing where the
// reader of the output has gone.
pub(crate) fn flush_and_print_fault<I, W: Write, E: Print + Eprint>(
    streams: &mut Streams<'_, I, W, E>,
    outcome: &Result<bool, CommandFault<'_>>,
) -> u8 {
    let _ = streams.output.flush();
    if streams.output.has_lost_reader() {
        return BROKEN_PIPE_STATUS;
    }
    print_fault(streams, outcome)
}

// Prints how a script ends that is read from a terminal, where this is its path.
pub(crate) fn print_terminal_hint<I, W, E: Eprint>(
    streams: &Streams<'_, I, W, E>,
    path: Option<&str>,
) {
    if streams.input_is_terminal && path.unwrap_or("-") == "-" {
        let _ = streams.messages.eprintln(
            "scribmon: reading a script from the terminal; Ctrl-D at the start of a line ends it, `scribmon watch --help` has its lines",
        );
    }
}

// Prints the command's fault, if it has one, and returns the exit status.
pub(crate) fn print_fault<I, W, E: Print + Eprint>(
    streams: &Streams<'_, I, W, E>,
    outcome: &Result<bool, CommandFault<'_>>,
) -> u8 {
    if let Err(fault) = outcome {
        let _ = streams.messages.eprintln(fault_text(fault));
        if *fault != CommandFault::OutOfMemory {
            let _ = streams.messages.eprintln(format_args!("scribmon: {fault}"));
        }
    }
    status_of(outcome)
}
