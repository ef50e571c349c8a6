//! The printed text of replies, verdicts, messages in flight and settled conversations, as lines and as JSON.
#![tactic(auto)]

mod edit;
pub mod event_line;
mod fault;
pub mod flight;
pub mod json;
mod json_output;
mod json_table;
pub mod label;
pub mod labelled;
pub mod labelled_event;
pub mod line;
mod line_output;
pub mod numbered;
pub mod opened_line;
pub mod part;
pub mod printing;
pub mod put_back;
pub mod reply_head;
pub mod table;
pub mod verdict;
