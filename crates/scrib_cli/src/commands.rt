//! The commands of the program, over files and standard input.

pub mod check;
pub mod explain;
pub mod fault;
pub mod folder;
pub mod next;
pub mod observed;
pub mod opened;
mod reading;
pub mod role_query;
pub mod script_input;
pub mod source;
pub mod status;
pub mod watch;
