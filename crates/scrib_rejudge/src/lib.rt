//! Sweeps, which renew stale verdicts: by workers, by one thread that has the service alone, and on notices.
#![tactic(auto)]

pub mod alone;
pub mod notices;
pub mod turns;
pub mod workers;

pub use scrib_locked_steps::sweep::Swept;
