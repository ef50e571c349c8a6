//! What reading scripts and writing outputs share: the faults that end a script, reads of pieces, and writes of whole
//! byte strings.
#![tactic(auto)]

pub mod fault;
pub mod reading;
pub mod writing;
