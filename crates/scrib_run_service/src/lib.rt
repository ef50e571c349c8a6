//! Runs scripts of many connections over one service.
#![tactic(auto)]

mod common;
mod connection;
mod connections;
mod notices;
pub mod options;
pub mod progress;
mod reading;
pub mod run_service;
pub mod shape;
