//! The command `watch --close-complete`.

ghost use Rattle.std.specs.Prelude.{◌<◌, ◌+◌, ◌^◌};

use crate::held_scripts::open;
use crate::outcomes::flush_and_print_fault;
use crate::request::{format_of, limits_of};
use crate::run_command_line::Streams;
use clap::ArgMatches;
use scrib_cli::commands::fault::CommandFault;
use scrib_cli::commands::folder::SystemFiles;
use scrib_cli::commands::opened::Opened;
use scrib_closing::run_closing_script::run_closing_script;
use scrib_core::format::Format;
use scrib_script_reader::limits::Limits;
use std::alloc::Global;
use std::io::{Input, Read, Write};
use std::rt::Files;

// Runs `watch --close-complete`, and returns the exit status.
pub(crate) fn watch_closing<R: Files + AllocGlobal, I: Input, W: Write, E: Print + Eprint>(
    system: &R,
    streams: &mut Streams<'_, I, W, E>,
    matches: &ArgMatches<'_>,
) -> u8 {
    let files = SystemFiles {
        files: system,
        input: streams.input,
    };
    let script = open(&files, matches.get_str("FILE").unwrap_or("-"));
    let written = write_closing(
        system.alloc(),
        format_of(matches),
        limits_of(matches),
        script,
        streams.output,
    );
    flush_and_print_fault(streams, &written)
}

// Reads the script and writes the output. Returns true: its refusals are replies to steps.
fn write_closing<'a, R: Read + Drop, W: Write>(
    alloc: Global,
    format: Format,
    limits: Limits,
    script: Result<Opened<'a, R>, CommandFault<'a>>,
    writer: &mut W,
) -> Result<bool, CommandFault<'a>>
    requires { limits.lines + 1 < 2 ^ 64 }
{
    let mut script = script?;
    match run_closing_script(alloc, format, limits, &mut script.reader, writer) {
        Ok(()) => Ok(true),
        Err(fault) => Err(script.fault(&fault)),
    }
}
