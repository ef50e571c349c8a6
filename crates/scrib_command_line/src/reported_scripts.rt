//! The command `watch --report`.

ghost use Rattle.std.specs.Prelude.{◌<◌, ◌+◌, ◌^◌};

use crate::held_scripts::open;
use crate::outcomes::flush_and_print_fault;
use crate::request::{limits_of, style_of};
use crate::run_command_line::Streams;
use clap::ArgMatches;
use scrib_cli::commands::fault::CommandFault;
use scrib_cli::commands::folder::SystemFiles;
use scrib_cli::commands::opened::Opened;
use scrib_labelled::label_options::LabelledStyle;
use scrib_reported::run_reported_script::run_reported_script;
use scrib_script_reader::limits::Limits;
use scrib_summary::summary::Summary;
use scrib_summary::verdict_counts::VerdictCounts;
use std::alloc::Global;
use std::io::{Input, Read, Write};
use std::rt::Files;

// The exit status with `--fail` where the summary has an offence, a refusal or a stale conversation.
const FAILED_STATUS: u8 = 3;

// Runs `watch --report`, and returns the exit status.
pub(crate) fn watch_reported<R: Files + AllocGlobal, I: Input, W: Write, E: Print + Eprint>(
    system: &R,
    streams: &mut Streams<'_, I, W, E>,
    matches: &ArgMatches<'_>,
) -> u8 {
    let files = SystemFiles {
        files: system,
        input: streams.input,
    };
    let script = open(&files, matches.get_str("FILE").unwrap_or("-"));
    let written = write_findings(
        system.alloc(),
        style_of(matches),
        limits_of(matches),
        script,
        streams.output,
    );
    match written {
        Ok(summary) => end_report(streams, &summary, matches.get_flag("fail")),
        Err(fault) => flush_and_print_fault(streams, &Err(fault)),
    }
}

// Flushes the output, prints the summary where its reader is still there, and returns the exit status.
fn end_report<I, W: Write, E: Print + Eprint>(
    streams: &mut Streams<'_, I, W, E>,
    summary: &Summary,
    fails: bool,
) -> u8 {
    let status = flush_and_print_fault(streams, &Ok(true));
    if status != 0 {
        return status;
    }
    print_summary(streams, summary);
    if fails && has_failed(summary) {
        FAILED_STATUS
    } else {
        0
    }
}

// Returns whether there was an offence or a refusal, or a conversation is stale.
fn has_failed(summary: &Summary) -> bool {
    summary.offended || summary.refused > 0 || summary.verdicts.stale > 0
}

// Prints the summary on standard error.
fn print_summary<I, W, E: Eprint>(streams: &Streams<'_, I, W, E>, summary: &Summary) {
    let Summary {
        opened,
        events,
        refused,
        verdicts,
        ..
    } = *summary;
    let VerdictCounts {
        permitted,
        complete,
        offences,
        stale,
        withdrawn,
    } = verdicts;
    let conversations = counted(opened, "conversation", "conversations");
    let noted = counted(events, "event", "events");
    let found = counted(offences, "offence", "offences");
    let lines = counted(refused, "line", "lines");
    let _ = streams.messages.eprintln(format_args!(
        "scribmon: {opened} {conversations}, {events} {noted}: {permitted} permitted ({complete} complete), {offences} {found}, {stale} stale, {withdrawn} withdrawn; {refused} {lines} refused"
    ));
}

// The word for so many of a thing.
pub(crate) fn counted(count: u64, one: &'static str, more: &'static str) -> &'static str {
    if count == 1 { one } else { more }
}

// Reads the script and writes the findings. Returns what the script comes to.
fn write_findings<'a, R: Read + Drop, W: Write>(
    alloc: Global,
    style: LabelledStyle,
    limits: Limits,
    script: Result<Opened<'a, R>, CommandFault<'a>>,
    writer: &mut W,
) -> Result<Summary, CommandFault<'a>>
    requires { limits.lines + 1 < 2 ^ 64 }
{
    let mut script = script?;
    match run_reported_script(alloc, style, limits, &mut script.reader, writer) {
        Ok(summary) => Ok(summary),
        Err(fault) => Err(script.fault(&fault)),
    }
}
