//! The findings: offences, conversations without an offence any more, and refusals.

use scrib_core::reply::Refusal;
use scrib_offences::explained_offence::ExplainedOffence;
use scrib_types::allowed::Allowed;
use scrib_types::name::Dotted;

/// A conversation, as findings name it.
#[derive(Clone, Copy)]
pub struct ConversationId<'a> {
    /// Its number.
    pub number: u32,
    /// Its name, which is printed in place of the number. It is UTF-8.
    pub name: Option<&'a [u8]>,
}

/// An offence, beside the line of its event.
#[derive(Drop)]
pub struct ReportedOffence {
    /// The event with its place, why it may not follow, and what its role may do in its place.
    pub explained: ExplainedOffence,
    /// The actions that the verdict allows its role there.
    pub allowed: Allowed,
    /// The number of the line that reported the event.
    pub line: u64,
}

/// A verdict that is no offence.
#[derive(Clone, Copy, Debug, PartialEq, Eq)]
pub enum CleanVerdict {
    /// The protocol permits the log.
    Permitted,
    /// The library has no such protocol.
    Withdrawn,
}

/// An offence of a conversation, and the step that found it.
#[derive(Clone, Copy)]
pub struct FoundOffence<'a> {
    pub conversation: ConversationId<'a>,
    /// The full name of its protocol.
    pub protocol: &'a Dotted,
    pub offence: &'a ReportedOffence,
    /// The number of the line of the step that found the offence.
    pub found: u64,
}

/// The end of an offence of a conversation, and the step that found it.
#[derive(Clone, Copy)]
pub struct OffenceEnd<'a> {
    pub conversation: ConversationId<'a>,
    /// The full name of its protocol.
    pub protocol: &'a Dotted,
    /// The offence that was reported before.
    pub was: &'a ReportedOffence,
    /// The verdict now.
    pub verdict: CleanVerdict,
    /// The number of the line of the step that found the end.
    pub found: u64,
}

/// A step that was refused.
#[derive(Drop)]
pub struct RefusedStep<'a> {
    /// The number of its line.
    pub line: u64,
    /// The conversation that it concerns, if it concerns one.
    pub conversation: Option<ConversationId<'a>>,
    /// Why it was refused.
    pub refusal: Refusal,
}

/// What is reported at once.
#[derive(Drop)]
pub enum Finding<'a> {
    /// A conversation has an offence, or another one than before.
    Offence(FoundOffence<'a>),
    /// A conversation has no offence any more.
    OffenceEnd(OffenceEnd<'a>),
    /// A step was refused.
    Refusal(RefusedStep<'a>),
}
