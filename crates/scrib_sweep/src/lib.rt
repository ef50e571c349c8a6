//! Sweeps of a monitor: turns of its stale conversations, until none is stale.
#![tactic(auto)]

mod conversation_turns;
pub mod stale;
pub mod sweep;
