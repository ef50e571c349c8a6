//! The library: the accepted modules and the protocols that they define.
#![tactic(auto)]

mod affected;
mod calls;
pub mod changes;
mod declared;
mod draft;
pub mod fault;
mod hints;
pub mod library;
mod meanings;
mod module_store;
mod name_filter;
mod names;
mod numberings;
mod plan;
mod profiles;
mod reaching;
mod read;
mod removal;
mod room;
mod same;
mod summaries;
mod versions;
