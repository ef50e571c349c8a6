//! The commands over scripts whose lines have tags or names, or are JSON objects.

ghost use Rattle.std.specs.Prelude.{◌<◌, ◌+◌, ◌^◌};

use crate::held_scripts::open;
use crate::outcomes::{flush_and_print_fault, refuse_value};
use crate::request::{limits_of, session_key_of};
use crate::run_command_line::Streams;
use crate::subcommands::Report;
use clap::ArgMatches;
use scrib_cli::commands::fault::CommandFault;
use scrib_cli::commands::folder::SystemFiles;
use scrib_cli::commands::opened::Opened;
use scrib_cli::explanation::Explained;
use scrib_labelled::explain_labelled_script::explain_labelled_script;
use scrib_labelled::label_options::{LabelOptions, LabelledStyle};
use scrib_labelled::next_labelled_script::next_labelled_script;
use scrib_labelled::run_labelled_script::run_labelled_script;
use scrib_labelled::session_key::SessionKey;
use scrib_script_reader::limits::Limits;
use std::alloc::Global;
use std::io::{Input, Read, Write};
use std::rt::Files;

// Runs `watch` over a script with labels in this style, and returns the exit status.
pub(crate) fn watch_labelled<R: Files + AllocGlobal, I: Input, W: Write, E: Print + Eprint>(
    system: &R,
    streams: &mut Streams<'_, I, W, E>,
    matches: &ArgMatches<'_>,
    style: LabelledStyle,
) -> u8 {
    let files = SystemFiles {
        files: system,
        input: streams.input,
    };
    let script = open(&files, matches.get_str("FILE").unwrap_or("-"));
    let written = write_labelled(
        system.alloc(),
        style,
        limits_of(matches),
        script,
        streams.output,
    );
    flush_and_print_fault(streams, &written)
}

// Reads the script and writes the output. Returns true: its refusals are replies to steps.
fn write_labelled<'a, R: Read + Drop, W: Write>(
    alloc: Global,
    style: LabelledStyle,
    limits: Limits,
    script: Result<Opened<'a, R>, CommandFault<'a>>,
    writer: &mut W,
) -> Result<bool, CommandFault<'a>>
    requires { limits.lines + 1 < 2 ^ 64 }
{
    let mut script = script?;
    match run_labelled_script(alloc, style, limits, &mut script.reader, writer) {
        Ok(()) => Ok(true),
        Err(fault) => Err(script.fault(&fault)),
    }
}

// Runs `explain` or `next` over a script with these labels, and returns the exit status.
pub(crate) fn report_labelled<R: Files + AllocGlobal, I: Input, W: Write, E: Print + Eprint>(
    system: &R,
    streams: &mut Streams<'_, I, W, E>,
    report: Report,
    matches: &ArgMatches<'_>,
    labels: LabelOptions,
) -> u8 {
    let alloc = system.alloc();
    let key = match session_key_of(matches, labels.names) {
        Ok(key) => key,
        Err(message) => return refuse_value(alloc, streams, message),
    };
    let files = SystemFiles {
        files: system,
        input: streams.input,
    };
    let script = open(&files, matches.get_str("FILE").unwrap_or("-"));
    let query = LabelledQuery {
        report,
        labels,
        key,
    };
    let written = write_report(alloc, &query, script, streams.output);
    flush_and_print_fault(streams, &written)
}

// What a command reports of which conversation of a script with labels.
#[derive(Clone, Copy)]
struct LabelledQuery<'a> {
    report: Report,
    labels: LabelOptions,
    key: SessionKey<'a>,
}

// Reads the script and writes the report. Returns whether it is no refusal line.
fn write_report<'a, R: Read + Drop, W: Write>(
    alloc: Global,
    query: &LabelledQuery<'_>,
    script: Result<Opened<'a, R>, CommandFault<'a>>,
    writer: &mut W,
) -> Result<bool, CommandFault<'a>> {
    let mut script = script?;
    let reader = &mut script.reader;
    let written = match query.report {
        Report::Flights => explain_labelled_script(
            alloc,
            query.labels,
            reader,
            query.key,
            writer,
        ).map(|explained| explained == Explained::Flights),
        Report::Next => next_labelled_script(alloc, query.labels, reader, query.key, writer),
    };
    match written {
        Ok(reported) => Ok(reported),
        Err(fault) => Err(script.fault(&fault)),
    }
}
