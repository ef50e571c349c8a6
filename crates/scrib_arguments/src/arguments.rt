//! The commands and options of the command line.

use crate::help;
use clap::{Arg, ArgAction, Command};
use std::alloc::{AllocError, Global};

// The values of `--input`.
const INPUTS: [&str; 2] = ["script", "json"];

fn file_arg<'a>(alloc: Global) -> Arg<'a> {
    Arg::new(alloc, "FILE").help("The script; standard input where none is named, or -")
}

// A required word.
fn value_arg<'a>(alloc: Global, name: &'a str, help: &'a str) -> Arg<'a> {
    Arg::new(alloc, name).help(help).required(true)
}

// A word that is required once or more.
fn values_arg<'a>(alloc: Global, name: &'a str, help: &'a str) -> Arg<'a> {
    value_arg(alloc, name, help)
        .num_args(1..)
        .action(ArgAction::Append)
}

fn files_arg<'a>(alloc: Global) -> Arg<'a> {
    let help = "The modules' texts, in the order in which they are read; - is standard input";
    values_arg(alloc, "FILE", help)
}

// An option without a value.
fn flag_arg<'a>(alloc: Global, name: &'a str, help: &'a str) -> Arg<'a> {
    Arg::new(alloc, name)
        .long(name)
        .help(help)
        .action(ArgAction::SetTrue)
}

fn reception_arg<'a>(alloc: Global) -> Arg<'a> {
    flag_arg(
        alloc,
        "reception",
        "Let a role learn from the message that it receives which branch was chosen",
    )
}

fn json_arg<'a>(alloc: Global) -> Arg<'a> {
    flag_arg(
        alloc,
        "json",
        "Print each line of the output as one JSON object",
    )
}

fn progress_arg<'a>(alloc: Global) -> Arg<'a> {
    flag_arg(
        alloc,
        "progress",
        "Print on standard error how far the run is, after each 100,000 events",
    )
}

fn count_arg<'a>(alloc: Global, name: &'a str, help: &'a str, default_count: &'a str) -> Arg<'a> {
    Arg::new(alloc, name)
        .long(name)
        .value_name("N")
        .help(help)
        .default_value(default_count)
}

fn endless_arg<'a>(alloc: Global) -> Arg<'a> {
    flag_arg(
        alloc,
        "endless",
        "Read a script of any length, as one that a pipe feeds for months",
    )
}

fn close_complete_arg<'a>(alloc: Global) -> Arg<'a> {
    let help = "Close each conversation behind the line by which it is complete; not with --hold";
    flag_arg(alloc, "close-complete", help)
}

fn report_arg<'a>(alloc: Global) -> Arg<'a> {
    let help =
        "Print offences with their reason, their ends and refusals, in place of the replies to events; not with --hold";
    flag_arg(alloc, "report", help)
}

fn fail_arg<'a>(alloc: Global) -> Result<Arg<'a>, AllocError> {
    let help =
        "End with status 3 where there was an offence or a refusal, or a conversation is stale at the end; with --report";
    flag_arg(alloc, "fail", help).requires_arg("report")
}

fn sweep_arg<'a>(alloc: Global) -> Result<Arg<'a>, AllocError> {
    let help =
        "Judge stale conversations again in front of each line, by at most 64 turns; not with --hold or --report";
    flag_arg(alloc, "sweep", help).conflicts_with("report")
}

fn id_arg<'a>(alloc: Global) -> Arg<'a> {
    let help = "The conversation's number in the script; with --names its name";
    value_arg(alloc, "ID", help)
}

fn names_arg<'a>(alloc: Global) -> Arg<'a> {
    flag_arg(
        alloc,
        "names",
        "Let words name the conversations, as in: open order-8f3a demo.Hello",
    )
}

fn tags_arg<'a>(alloc: Global) -> Arg<'a> {
    flag_arg(
        alloc,
        "tags",
        "Let a line begin with @TAG, as its reply then does",
    )
}

fn input_arg<'a>(alloc: Global) -> Arg<'a> {
    Arg::new(alloc, "input")
        .long("input")
        .value_name("FORMAT")
        .value_parser(INPUTS.as_slice())
        .help("How lines are spelled: script, or json for one JSON object a line")
}

fn hold_arg<'a>(alloc: Global) -> Arg<'a> {
    Arg::new(alloc, "hold").long("hold").value_name("N").help(
        "Hold each event back until it may have happened, for at most N lines, 1 to 16777216",
    )
}

fn numbered_arg<'a>(alloc: Global) -> Result<Arg<'a>, AllocError> {
    let help =
        "Give each object the number of the line that it answers, and that of a refused step its conversation; with --json";
    flag_arg(alloc, "lines", help).requires_arg("json")
}

// An argument of `watch` that `--hold` refuses.
fn unheld(arg: Arg<'_>) -> Result<Arg<'_>, AllocError> {
    arg.conflicts_with("hold")
}

fn lines_arg<'a>(alloc: Global) -> Arg<'a> {
    let help = "For how many lines an event may wait, 1 to 16777216";
    count_arg(alloc, "lines", help, "10000")
}

fn shards_arg<'a>(alloc: Global) -> Arg<'a> {
    count_arg(
        alloc,
        "shards",
        "How many shards the service has, 1 to 64",
        "4",
    )
}

fn workers_arg<'a>(alloc: Global) -> Arg<'a> {
    count_arg(
        alloc,
        "workers",
        "How many threads bring verdicts up to date, 1 to 16",
        "2",
    )
}

fn connections_arg<'a>(alloc: Global) -> Arg<'a> {
    let help = "The scripts that are then carried out, each on a thread of its own";
    values_arg(alloc, "CONNECTION", help)
}

fn check_command<'a>(alloc: Global) -> Result<Command<'a>, AllocError> {
    Command::new(alloc, "check")
        .about("Puts modules into one library, and prints a line for each put")
        .after_help(help::CHECK)
        .arg(reception_arg(alloc))?
        .arg(files_arg(alloc))
}

fn list_command<'a>(alloc: Global) -> Result<Command<'a>, AllocError> {
    Command::new(alloc, "list")
        .about("Prints the protocols of modules with their roles")
        .after_help(help::LIST)
        .arg(json_arg(alloc))?
        .arg(files_arg(alloc))
}

fn why_command<'a>(alloc: Global) -> Result<Command<'a>, AllocError> {
    let kind = Arg::new(alloc, "KIND").help("The word behind `refused`, as Unmergeable");
    Command::new(alloc, "why")
        .about("Explains a kind of refusal: when it comes, an example, and its cure")
        .after_help(help::WHY)
        .arg(kind)
}

// A command on a role of a protocol of some modules.
fn role_command<'a>(
    alloc: Global,
    name: &'a str,
    about: &'a str,
    after: &'a str,
) -> Result<Command<'a>, AllocError> {
    Command::new(alloc, name)
        .about(about)
        .after_help(after)
        .arg(reception_arg(alloc))?
        .arg(value_arg(alloc, "PROTOCOL", "The protocol's full name, as demo.Hello"))?
        .arg(value_arg(alloc, "ROLE", "A role of the protocol"))?
        .arg(files_arg(alloc))
}

fn project_command<'a>(alloc: Global) -> Result<Command<'a>, AllocError> {
    let about = "Prints what a role does in a protocol of some modules";
    role_command(alloc, "project", about, help::PROJECT)
}

fn machine_command<'a>(alloc: Global) -> Result<Command<'a>, AllocError> {
    let about = "Prints the machine of a role of a protocol, as a graph in the DOT language";
    role_command(alloc, "machine", about, help::MACHINE)
}

fn watch_command<'a>(alloc: Global) -> Result<Command<'a>, AllocError> {
    Command::new(alloc, "watch")
        .about("Runs a script of edits and events, and prints a line for each reply")
        .after_help(help::WATCH)
        .arg(json_arg(alloc))?
        .arg(numbered_arg(alloc)?)?
        .arg(hold_arg(alloc))?
        .arg(unheld(report_arg(alloc))?)?
        .arg(fail_arg(alloc)?)?
        .arg(unheld(close_complete_arg(alloc))?)?
        .arg(unheld(sweep_arg(alloc)?)?)?
        .arg(names_arg(alloc))?
        .arg(tags_arg(alloc))?
        .arg(input_arg(alloc))?
        .arg(endless_arg(alloc))?
        .arg(file_arg(alloc))
}

fn hold_command<'a>(alloc: Global) -> Result<Command<'a>, AllocError> {
    Command::new(alloc, "hold")
        .about("Prints a script with its events in an order in which they may have happened")
        .after_help(help::HOLD)
        .arg(lines_arg(alloc))?
        .arg(names_arg(alloc))?
        .arg(tags_arg(alloc))?
        .arg(input_arg(alloc))?
        .arg(endless_arg(alloc))?
        .arg(file_arg(alloc))
}

// A command on a conversation of a script.
fn conversation_command<'a>(
    alloc: Global,
    name: &'a str,
    about: &'a str,
    after: &'a str,
) -> Result<Command<'a>, AllocError> {
    Command::new(alloc, name)
        .about(about)
        .after_help(after)
        .arg(names_arg(alloc))?
        .arg(tags_arg(alloc))?
        .arg(input_arg(alloc))?
        .arg(id_arg(alloc))?
        .arg(file_arg(alloc))
}

fn explain_command<'a>(alloc: Global) -> Result<Command<'a>, AllocError> {
    let about = "Runs a script in silence, and prints the messages in flight in a conversation";
    conversation_command(alloc, "explain", about, help::EXPLAIN)
}

fn next_command<'a>(alloc: Global) -> Result<Command<'a>, AllocError> {
    let about = "Runs a script in silence, and prints what each role of a conversation may do next";
    conversation_command(alloc, "next", about, help::NEXT)
}

fn show_command<'a>(alloc: Global) -> Result<Command<'a>, AllocError> {
    let chart = "Print the conversation as a sequence diagram, for Mermaid";
    Command::new(alloc, "show")
        .about(
            "Runs a script in silence, and shows a conversation: its verdict, its last events with their lines, what is in flight, what each role may do",
        )
        .after_help(help::SHOW)
        .arg(flag_arg(alloc, "chart", chart))?
        .arg(value_arg(alloc, "ID", "The conversation's number in the script"))?
        .arg(file_arg(alloc))
}

// Each argument is made where it is used: the time of a proof grows with the values that are alive at each `?`.
fn run_command<'a>(alloc: Global) -> Result<Command<'a>, AllocError> {
    Command::new(alloc, "run")
        .about(
            "Runs scripts of many connections over one service, and prints a table of the conversations",
        )
        .after_help(help::RUN)
        .arg(shards_arg(alloc))?
        .arg(workers_arg(alloc))?
        .arg(json_arg(alloc))?
        .arg(progress_arg(alloc))?
        .arg(value_arg(alloc, "SETUP", "The script that is carried out first"))?
        .arg(connections_arg(alloc))
}

// Adds a command, or returns the error of making it.
fn with_command<'a>(
    line: Command<'a>,
    command: Result<Command<'a>, AllocError>,
) -> Result<Command<'a>, AllocError> {
    line.subcommand(command?)
}

// Adds the commands that read modules.
fn with_module_commands<'a>(alloc: Global, line: Command<'a>) -> Result<Command<'a>, AllocError> {
    let line = with_command(line, check_command(alloc))?;
    let line = with_command(line, list_command(alloc))?;
    let line = with_command(line, project_command(alloc))?;
    with_command(line, machine_command(alloc))
}

// Adds the commands that read a script, and the one that explains refusals.
fn with_script_commands<'a>(alloc: Global, line: Command<'a>) -> Result<Command<'a>, AllocError> {
    let line = with_command(line, watch_command(alloc))?;
    let line = with_command(line, hold_command(alloc))?;
    let line = with_command(line, explain_command(alloc))?;
    let line = with_command(line, next_command(alloc))?;
    let line = with_command(line, show_command(alloc))?;
    let line = with_command(line, run_command(alloc))?;
    with_command(line, why_command(alloc))
}

/// Returns the command line of the program: its commands, their options and their help.
///
/// # Errors
/// `AllocError` where memory is refused.
pub fn command<'a>(alloc: Global) -> Result<Command<'a>, AllocError> {
    let line = Command::new(alloc, "scribmon")
        .version("0.1.0")
        .about("Judges running conversations against Scribble protocols")
        .after_help(help::PROGRAM)
        .subcommand_required(true)
        .arg_required_else_help(true);
    let line = with_module_commands(alloc, line)?;
    with_script_commands(alloc, line)
}
