//! Tags of lines and names of conversations: what is taken from a script's lines, and put back into the replies.
#![tactic(auto)]

pub mod field;
mod name_slot;
pub mod session_line;
pub mod session_name;
pub mod session_names;
pub mod tag;
mod visible;
