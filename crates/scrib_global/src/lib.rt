//! Conversations as a whole: the judgement of a log by the definitions, and the messages in flight after it. By its
//! laws a protocol permits exactly the runs of its global type over first-in-first-out queues. It cannot get stuck, and
//! each message in flight can be received.
#![tactic(auto)]

mod allowed;
pub mod explain;
pub mod fault;
pub mod judge;
pub mod law;
pub mod logs;
pub mod next;
mod permitted;
mod queues;
mod sorted;
mod trace;
mod unfold;
