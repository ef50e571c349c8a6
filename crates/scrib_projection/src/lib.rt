//! The projection of a global type on a role, and the printed text of local types.
#![tactic(auto)]

mod alternatives;
mod merge;
pub mod project_role;
pub mod projection;
pub mod survey;
pub mod text;
