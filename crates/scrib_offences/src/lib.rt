//! Offences with their reason, and with what the role might do in their place.
#![tactic(auto)]

pub mod explain_refused;
pub mod explained_offence;
mod next_actions;
mod oldest;
mod participant;
mod refusal;
