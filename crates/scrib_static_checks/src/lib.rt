//! The checks before elaboration: the protocols that modules declare, the rules of their statements, and the sizes of
//! their types.
#![tactic(auto)]

pub mod block_effects;
pub mod checking;
pub mod declared;
pub mod effect;
pub mod fault;
mod index_entries;
pub mod modules;
pub mod names;
mod own_names;
pub mod protocol_index;
pub mod size;
pub mod size_bound;
mod statements;
pub mod walk;
