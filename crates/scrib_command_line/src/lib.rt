//! Runs the commands of the command line.
#![tactic(auto)]

mod closing_scripts;
mod held_scripts;
mod labelled_scripts;
mod list_files;
mod outcomes;
pub mod pipe_output;
mod reported_scripts;
mod request;
pub mod run_command_line;
mod run_files;
mod show;
mod subcommands;
mod sweeping_scripts;
mod why;
