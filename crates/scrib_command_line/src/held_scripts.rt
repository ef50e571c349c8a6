//! The commands that hold the events of a script back: `watch --hold` and `hold`.

ghost use Rattle.std.specs.Prelude.{◌<◌, ◌+◌, ◌^◌};

use crate::outcomes::{flush_and_print_fault, refuse_value};
use crate::request::{bound_of, format_of, labelled_style_of, labels_of, limits_of};
use crate::run_command_line::Streams;
use clap::ArgMatches;
use scrib_cli::commands::fault::CommandFault;
use scrib_cli::commands::folder::{Folder, SystemFiles};
use scrib_cli::commands::opened::Opened;
use scrib_cli::commands::source::Source;
use scrib_core::format::Format;
use scrib_held_labels::run_held_labelled_script::run_held_labelled_script;
use scrib_hold::hold_limits::HoldLimits;
use scrib_hold::run_held_script::{Counts, run_held_script};
use scrib_hold_labelled::hold_labelled_script::hold_labelled_script;
use scrib_hold_lines::hold_script::hold_script;
use scrib_labelled::label_options::{LabelOptions, LabelledStyle};
use std::alloc::Global;
use std::io::{Input, Read, Write};
use std::rt::Files;

// What a command does with a script whose events it holds back.
#[derive(Clone, Copy)]
enum HeldOutput {
    // It writes the replies to its steps in this format.
    Replies(Format),
    // It writes the replies with the labels of its lines, in this style.
    LabelledReplies(LabelledStyle),
    // It writes the script anew.
    Script,
    // It writes the script anew, with the labels of its lines.
    LabelledScript(LabelOptions),
}

// Runs `watch` with this value of `--hold`, and returns the exit status.
pub(crate) fn watch_held<R: Files + AllocGlobal, I: Input, W: Write, E: Print + Eprint>(
    system: &R,
    streams: &mut Streams<'_, I, W, E>,
    matches: &ArgMatches<'_>,
    bound: &str,
) -> u8 {
    run_held(system, streams, matches, bound, replies_of(matches))
}

// The replies that `watch --hold` writes.
fn replies_of(matches: &ArgMatches<'_>) -> HeldOutput {
    match labelled_style_of(matches) {
        Some(style) => HeldOutput::LabelledReplies(style),
        None => HeldOutput::Replies(format_of(matches)),
    }
}

// Runs `hold`, and returns the exit status.
pub(crate) fn hold<R: Files + AllocGlobal, I: Input, W: Write, E: Print + Eprint>(
    system: &R,
    streams: &mut Streams<'_, I, W, E>,
    matches: &ArgMatches<'_>,
) -> u8 {
    let bound = matches.get_str("lines").unwrap_or("");
    run_held(system, streams, matches, bound, script_of(matches))
}

// The script that `hold` writes.
fn script_of(matches: &ArgMatches<'_>) -> HeldOutput {
    match labels_of(matches) {
        Some(labels) => HeldOutput::LabelledScript(labels),
        None => HeldOutput::Script,
    }
}

// Runs the command whose output this is, and returns the exit status.
fn run_held<R: Files + AllocGlobal, I: Input, W: Write, E: Print + Eprint>(
    system: &R,
    streams: &mut Streams<'_, I, W, E>,
    matches: &ArgMatches<'_>,
    bound: &str,
    output: HeldOutput,
) -> u8 {
    let alloc = system.alloc();
    let bound = match bound_of(bound) {
        Ok(bound) => bound,
        Err(message) => return refuse_value(alloc, streams, message),
    };
    let files = SystemFiles {
        files: system,
        input: streams.input,
    };
    let limits = HoldLimits {
        script: limits_of(matches),
        bound,
    };
    let path = matches.get_str("FILE").unwrap_or("-");
    match write_held(alloc, output, limits, open(&files, path), streams.output) {
        Ok(counts) => print_counts(streams, &counts),
        Err(fault) => flush_and_print_fault(streams, &Err(fault)),
    }
}

// The script of this path, opened.
pub(crate) fn open<'a, F: Folder>(
    folder: &F,
    path: &'a str,
) -> Result<Opened<'a, F::File>, CommandFault<'a>> {
    let file = folder.open(path)?;
    Ok(Opened::new(Source::named(path), file))
}

// Reads the script and writes the output. Returns the counts of the events.
fn write_held<'a, R: Read + Drop, W: Write>(
    alloc: Global,
    output: HeldOutput,
    limits: HoldLimits,
    script: Result<Opened<'a, R>, CommandFault<'a>>,
    writer: &mut W,
) -> Result<Counts, CommandFault<'a>>
    requires { limits.script.lines + 1 < 2 ^ 64 }
{
    let mut script = script?;
    let written = match output {
        HeldOutput::Replies(format) => {
            run_held_script(alloc, format, limits, &mut script.reader, writer)
        }
        HeldOutput::LabelledReplies(style) => {
            run_held_labelled_script(alloc, style, limits, &mut script.reader, writer)
        }
        HeldOutput::Script => hold_script(alloc, limits, &mut script.reader, writer),
        HeldOutput::LabelledScript(labels) => {
            hold_labelled_script(alloc, labels, limits, &mut script.reader, writer)
        }
    };
    match written {
        Ok(counts) => Ok(counts),
        Err(fault) => Err(script.fault(&fault)),
    }
}

// Prints the counts of the events, and returns the exit status.
fn print_counts<I, W, E: Eprint>(streams: &Streams<'_, I, W, E>, counts: &Counts) -> u8 {
    let Counts {
        events,
        waited,
        at_once,
        expired,
    } = *counts;
    let _ = streams.messages.eprintln(format_args!(
        "scribmon: {events} events, {waited} waited, at most {at_once} at once, {expired} released by the limit"
    ));
    0
}
