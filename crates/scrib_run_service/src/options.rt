//! How scripts are run over a service.

use crate::shape::Shape;
use scrib_core::format::Format;

/// How scripts are run over a service: its shape, the format of the output, and the receiver of progress reports, if
/// any. A reply whose line asks for JSON is in JSON in either format.
#[derive(Drop)]
pub struct Options<P> {
    pub shape: Shape,
    pub format: Format,
    pub progress: Option<P>,
}
