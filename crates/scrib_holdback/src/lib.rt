//! Holding arrivals back until they may have happened. The order of arrival alone then makes no offence.
#![tactic(auto)]

pub mod arrival;
mod flights;
pub mod holdback;
mod lane_hints;
mod lanes;
pub mod law;
mod pair_hints;
mod waiting;
