//! Tokens of module texts.
#![tactic(auto)]

pub mod fault;
pub mod lex;
pub mod token;
