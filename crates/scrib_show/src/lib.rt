//! Shows one conversation of a script: how its log is judged, the last events with their lines, the messages in flight,
//! and what each role may do next. Or shows it as a sequence diagram.
#![tactic(auto)]

mod after;
mod arrows;
mod chart;
mod chart_page;
pub mod events;
mod flights;
pub mod head;
mod kept_lines;
mod line_monitor;
mod notes;
mod offence;
mod page;
mod participants;
mod show_form;
mod show_run;
pub mod show_script;
mod shown;
