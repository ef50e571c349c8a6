//! The command `show`.

use crate::held_scripts::open;
use crate::outcomes::{flush_and_print_fault, refuse_value};
use crate::request::number_of;
use crate::run_command_line::Streams;
use clap::ArgMatches;
use scrib_cli::commands::fault::CommandFault;
use scrib_cli::commands::folder::SystemFiles;
use scrib_cli::commands::opened::Opened;
use scrib_show::show_script::{ShowForm, show_script};
use std::alloc::Global;
use std::io::{Input, Read, Write};
use std::rt::Files;

// Runs `show`, and returns the exit status.
pub(crate) fn show<R: Files + AllocGlobal, I: Input, W: Write, E: Print + Eprint>(
    system: &R,
    streams: &mut Streams<'_, I, W, E>,
    matches: &ArgMatches<'_>,
) -> u8 {
    let alloc = system.alloc();
    let id = match number_of(matches) {
        Ok(id) => id,
        Err(message) => return refuse_value(alloc, streams, message),
    };
    let form = if matches.get_flag("chart") {
        ShowForm::Chart
    } else {
        ShowForm::Text
    };
    let files = SystemFiles {
        files: system,
        input: streams.input,
    };
    let script = open(&files, matches.get_str("FILE").unwrap_or("-"));
    let written = write_shown(alloc, form, id, script, streams.output);
    flush_and_print_fault(streams, &written)
}

// Reads the script and writes what is shown. Returns whether it is no refusal line.
fn write_shown<'a, R: Read + Drop, W: Write>(
    alloc: Global,
    form: ShowForm,
    id: u32,
    script: Result<Opened<'a, R>, CommandFault<'a>>,
    writer: &mut W,
) -> Result<bool, CommandFault<'a>> {
    let mut script = script?;
    match show_script(alloc, form, &mut script.reader, id, writer) {
        Ok(shown) => Ok(shown),
        Err(fault) => Err(script.fault(&fault)),
    }
}
