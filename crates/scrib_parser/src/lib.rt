//! The parser, which reads module trees from tokens.
#![tactic(auto)]

mod cursor;
pub mod fault;
pub mod interner;
mod messages;
mod names;
pub mod parse;
mod sorts;
mod word;
