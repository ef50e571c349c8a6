//! Versions of protocols, and records of conversations, which judge their logs under them.
#![tactic(auto)]

pub mod answer;
mod choices;
pub mod comparison;
pub mod compilation;
pub mod configuration;
mod copies;
mod exchanges;
pub mod fault;
mod flat;
mod judge_whole;
mod judging;
pub mod law;
mod long_bytes;
mod machines;
mod numbered_edge;
mod numberer;
pub mod numbering;
pub mod record;
pub mod refused_event;
mod role_hints;
pub mod role_state;
pub mod version;
pub mod whole_verdict;
