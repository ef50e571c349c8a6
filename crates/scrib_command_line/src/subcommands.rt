//! Runs the commands of the program.

use crate::closing_scripts::watch_closing;
use crate::held_scripts::watch_held;
use crate::labelled_scripts::{report_labelled, watch_labelled};
use crate::list_files::list_files;
use crate::outcomes::{flush_and_print_fault, refuse_value};
use crate::reported_scripts::watch_reported;
use crate::request::{
    format_of, labelled_style_of, labels_of, limits_of, number_of, profile_of, query_of, shape_of,
};
use crate::run_command_line::Streams;
use crate::run_files::{RunScripts, run_files};
use crate::sweeping_scripts::watch_sweeping;
use clap::ArgMatches;
use scrib_cli::commands::check::check_files;
use scrib_cli::commands::explain::explain;
use scrib_cli::commands::fault::CommandFault;
use scrib_cli::commands::folder::SystemFiles;
use scrib_cli::commands::next::next;
use scrib_cli::commands::role_query::query_files;
use scrib_cli::commands::script_input::ScriptInput;
use scrib_cli::commands::watch::watch;
use scrib_cli::role_query::Form;
use scrib_run_service::options::Options;
use scrib_run_service::progress::StandardError;
use std::io::{Input, Write};
use std::marker::Send;
use std::rt::Files;
use std::sync::Wait;
use std::thread::Threads;

// Runs `check`, `list`, `project`, `machine` or `watch`, whose words need no checks. Returns whether no refusal was printed.
pub(crate) fn run_simple_command<'a, R: Files + AllocGlobal, I: Input, W: Write, E>(
    system: &R,
    streams: &mut Streams<'_, I, W, E>,
    name: &str,
    matches: &ArgMatches<'a>,
) -> Result<bool, CommandFault<'a>> {
    let alloc = system.alloc();
    let files = SystemFiles {
        files: system,
        input: streams.input,
    };
    let paths = matches.get_strs("FILE").unwrap_or(&[]);
    match name {
        "check" => check_files(alloc, profile_of(matches), &files, paths, streams.output),
        "list" => list_files(alloc, format_of(matches), &files, paths, streams.output),
        "project" => {
            let query = query_of(matches, Form::Text);
            query_files(alloc, &query, &files, paths, streams.output)
        }
        "machine" => {
            let query = query_of(matches, Form::Graph);
            query_files(alloc, &query, &files, paths, streams.output)
        }
        _ => {
            let input = ScriptInput {
                folder: &files,
                path: matches.get_str("FILE"),
                reader: streams.input.reader(),
            };
            watch(
                alloc,
                format_of(matches),
                limits_of(matches),
                input,
                streams.output,
            )
        }
    }
}

// Runs `watch`, and returns the exit status.
pub(crate) fn run_watch<R: Files + AllocGlobal, I: Input, W: Write, E: Print + Eprint>(
    system: &R,
    streams: &mut Streams<'_, I, W, E>,
    matches: &ArgMatches<'_>,
) -> u8 {
    if let Some(bound) = matches.get_str("hold") {
        return watch_held(system, streams, matches, bound);
    }
    if matches.get_flag("report") {
        return watch_reported(system, streams, matches);
    }
    if matches.get_flag("sweep") {
        return watch_sweeping(system, streams, matches);
    }
    if let Some(style) = labelled_style_of(matches) {
        return watch_labelled(system, streams, matches, style);
    }
    if matches.get_flag("close-complete") {
        return watch_closing(system, streams, matches);
    }
    let watched = run_simple_command(system, streams, "watch", matches);
    flush_and_print_fault(streams, &watched)
}

// What a command reports of a conversation.
#[derive(Clone, Copy)]
pub(crate) enum Report {
    // Its messages in flight.
    Flights,
    // What each of its roles may do next.
    Next,
}

// Runs `explain` or `next`, and returns the exit status.
pub(crate) fn report_by_id<R: Files + AllocGlobal, I: Input, W: Write, E: Print + Eprint>(
    system: &R,
    streams: &mut Streams<'_, I, W, E>,
    report: Report,
    matches: &ArgMatches<'_>,
) -> u8 {
    if let Some(labels) = labels_of(matches) {
        return report_labelled(system, streams, report, matches, labels);
    }
    let alloc = system.alloc();
    let id = match number_of(matches) {
        Ok(id) => id,
        Err(message) => return refuse_value(alloc, streams, message),
    };
    let files = SystemFiles {
        files: system,
        input: streams.input,
    };
    let input = ScriptInput {
        folder: &files,
        path: matches.get_str("FILE"),
        reader: streams.input.reader(),
    };
    let reported = match report {
        Report::Flights => explain(alloc, id, input, streams.output),
        Report::Next => next(alloc, id, input, streams.output),
    };
    flush_and_print_fault(streams, &reported)
}

// Runs `run`, and returns the exit status.
pub(crate) fn run_over_service<
    R: Files + Threads + Wait + AllocGlobal + Sync,
    I: Input + Sync,
    W: Write,
    E: Print + Eprint + Sync,
>(system: &R, streams: &mut Streams<'_, I, W, E>, matches: &ArgMatches<'_>) -> u8
where
    R::File: Send,
    I::Reader: Send,
{
    let alloc = system.alloc();
    let shape = match shape_of(matches) {
        Ok(shape) => shape,
        Err(message) => return refuse_value(alloc, streams, message),
    };
    let has_progress = matches.get_flag("progress");
    let options = Options {
        shape,
        format: format_of(matches),
        progress: has_progress.then_some(StandardError(streams.messages)),
    };
    let files = SystemFiles {
        files: system,
        input: streams.input,
    };
    let scripts = RunScripts {
        folder: &files,
        setup: matches.get_str("SETUP").unwrap_or(""),
        connections: matches.get_strs("CONNECTION").unwrap_or(&[]),
    };
    let ran = run_files(system, alloc, &options, &scripts, streams.output);
    flush_and_print_fault(streams, &ran)
}
