//! The vocabulary of the monitor: names, messages, global and local types, protocols, events and verdicts.
#![tactic(auto)]

pub mod allowed;
pub mod bytes;
pub mod event;
pub mod flat;
pub mod global;
pub mod hashing;
pub mod local;
pub mod message;
pub mod name;
pub mod one_or_many;
pub mod profile;
pub mod protocol;
pub mod shared_event;
pub mod shared_message;
pub mod spot;
pub mod text;

pub use sqlite_items as containers;
