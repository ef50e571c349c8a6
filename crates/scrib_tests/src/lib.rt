//! Tests that need code: what is written for readers that give little or fail, and for writers that take little or fail,
//! where a script is too long by smaller limits than its own, what is held back of short logs, what may come next, why an
//! event may not follow, which tags and names are taken and put back, what JSON objects stand for, and what sweeps judge.
#![tactic(auto)]

#[cfg(test)]
mod holding;
#[cfg(test)]
mod labels;
#[cfg(test)]
mod next;
#[cfg(test)]
mod objects;
#[cfg(test)]
mod reasons;
#[cfg(test)]
mod running;
#[cfg(test)]
mod short_logs;
#[cfg(test)]
mod sweeps;
