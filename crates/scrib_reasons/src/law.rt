//! The law of the reasons.

ghost use Rattle.scrib_types.specs.Meaning.{agreement_of};
ghost use Rattle.scrib_reasons.specs.Reasons.{DeterminesReason};

use scrib_types::protocol::Protocol;

/// A law: an event may follow a permitted log and no reason against it holds, or it may not and exactly one reason
/// holds.
pub fn determines_reason(protocol: &Protocol)
    ensures { DeterminesReason (agreement_of protocol.now) }
{}
