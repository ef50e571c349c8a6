//! The projections of an elaborated protocol on its roles.
#![tactic(auto)]

pub mod fault;
pub mod project;
pub mod projected;
pub mod protocol;
