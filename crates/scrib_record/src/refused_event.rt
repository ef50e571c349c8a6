//! The event of an offence.

use crate::configuration::Configuration;
use crate::version::Version;
use scrib_types::shared_event::SharedEvent;

/// The event of an offence: the first of a log that may not follow the events before it.
#[derive(Clone, Copy)]
pub struct RefusedEvent<'a> {
    /// The version under which the log is judged.
    pub version: &'a Version,
    /// The configuration that the events before it lead to.
    pub configuration: &'a Configuration,
    /// The place of the event in the log, from 1.
    pub place: usize,
    /// The event.
    pub event: &'a SharedEvent,
}
