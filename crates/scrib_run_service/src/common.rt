//! What the connections of a run share.

use crate::progress::Tally;
use scrib_core::format::Format;
use scrib_shards::service::Service;
use std::alloc::Global;

/// What the connections of a run share: the service, the format of the replies, and the count of noted events.
#[derive(Drop)]
pub(crate) struct Common<'a, P> {
    pub(crate) alloc: Global,
    pub(crate) service: &'a Service,
    pub(crate) format: Format,
    pub(crate) tally: &'a Tally<'a, P>,
}
