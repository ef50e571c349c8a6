//! Whether a message is sent or received.

// Whether a message is sent or received.
#[derive(Clone, Copy)]
pub(crate) enum Direction {
    Send,
    Receive,
}
