//! Reads scripts: the step of a line, and the items of a script that arrives in pieces of any size.
#![tactic(auto)]

mod direction;
pub mod entry;
mod event_cache;
mod exchange;
pub mod fault;
mod fields;
pub mod head;
pub mod item;
mod join_cache;
pub mod kept_bytes;
pub mod limits;
pub mod line;
mod name_cache;
mod plain_line;
pub mod reader;
pub mod script;
pub mod short_line;
mod spelling;
mod step;
mod text;
mod text_cache;
mod text_hash;
