//! The command `watch --sweep`.

ghost use Rattle.std.specs.Prelude.{◌<◌, ◌+◌, ◌^◌};

use crate::held_scripts::open;
use crate::outcomes::flush_and_print_fault;
use crate::reported_scripts::counted;
use crate::request::{limits_of, style_of};
use crate::run_command_line::Streams;
use clap::ArgMatches;
use scrib_cli::commands::fault::CommandFault;
use scrib_cli::commands::folder::SystemFiles;
use scrib_cli::commands::opened::Opened;
use scrib_labelled::label_options::LabelledStyle;
use scrib_script_reader::limits::Limits;
use scrib_sweeping::run_sweeping_script::run_sweeping_script;
use scrib_sweeping::sweep_counts::SweepCounts;
use std::alloc::Global;
use std::io::{Input, Read, Write};
use std::rt::Files;

// Runs `watch --sweep`, and returns the exit status.
pub(crate) fn watch_sweeping<R: Files + AllocGlobal, I: Input, W: Write, E: Print + Eprint>(
    system: &R,
    streams: &mut Streams<'_, I, W, E>,
    matches: &ArgMatches<'_>,
) -> u8 {
    let files = SystemFiles {
        files: system,
        input: streams.input,
    };
    let script = open(&files, matches.get_str("FILE").unwrap_or("-"));
    let written = write_sweeping(
        system.alloc(),
        style_of(matches),
        limits_of(matches),
        script,
        streams.output,
    );
    match written {
        Ok(counts) => end_sweeping(streams, counts),
        Err(fault) => flush_and_print_fault(streams, &Err(fault)),
    }
}

// Flushes the output, prints the counts where its reader is still there, and returns the exit status.
fn end_sweeping<I, W: Write, E: Print + Eprint>(
    streams: &mut Streams<'_, I, W, E>,
    counts: SweepCounts,
) -> u8 {
    let status = flush_and_print_fault(streams, &Ok(true));
    if status == 0 {
        print_counts(streams, counts);
    }
    status
}

// Prints the counts of the sweeps on standard error.
fn print_counts<I, W, E: Eprint>(streams: &Streams<'_, I, W, E>, counts: SweepCounts) {
    let SweepCounts { judged, refused } = counts;
    let conversations = counted(judged, "conversation", "conversations");
    let sweeps = counted(refused, "sweep", "sweeps");
    let _ = streams.messages.eprintln(format_args!(
        "scribmon: {judged} {conversations} judged again, {refused} {sweeps} refused memory"
    ));
}

// Reads the script and writes the output. Returns what the sweeps came to.
fn write_sweeping<'a, R: Read + Drop, W: Write>(
    alloc: Global,
    style: LabelledStyle,
    limits: Limits,
    script: Result<Opened<'a, R>, CommandFault<'a>>,
    writer: &mut W,
) -> Result<SweepCounts, CommandFault<'a>>
    requires { limits.lines + 1 < 2 ^ 64 }
{
    let mut script = script?;
    match run_sweeping_script(alloc, style, limits, &mut script.reader, writer) {
        Ok(counts) => Ok(counts),
        Err(fault) => Err(script.fault(&fault)),
    }
}
