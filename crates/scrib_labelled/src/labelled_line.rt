//! The label of a line, and the line without it.

ghost use Rattle.std.specs.Prelude.{◌≡◌};
ghost use Rattle.scrib_report.specs.PutBack.{bytes_of};
ghost use Rattle.scrib_labelled.specs.LabelledLines.{IsUntagged, behind_first};
ghost use Rattle.scrib_labelled.specs.NamedLines.{IsNamed};

use scrib_labels::session_line::{SessionLine, session_line};
use scrib_labels::session_name::is_session_name;
use scrib_labels::tag::{TagCut, tag_cut};

/// A line without its tag.
#[derive(Clone, Copy)]
pub(crate) struct Untagged<'a> {
    pub(crate) tag: Option<&'a [u8]>,
    pub(crate) rest: &'a [u8],
}

/// What a line says of its conversation, where conversations have names.
#[derive(Clone, Copy)]
pub(crate) enum Named<'a> {
    /// The line is about no conversation, or conversations have numbers.
    Whole,
    /// The field in the place of a conversation's number is no name.
    Bad,
    /// The line names its conversation.
    Session(SessionLine<'a>),
}

// Returns the bytes behind the first.
fn behind_first(bytes: &[u8]) -> &[u8]
    ensures { result.now ≡ behind_first bytes.now }
{
    match bytes.split_first() {
        Some((_, behind)) => behind,
        None => bytes,
    }
}

/// Returns the tag of a line and the line without it, where lines may have tags.
pub(crate) fn without_tag(tags: bool, line: &[u8]) -> Untagged<'_>
    ensures { IsUntagged tags line.now (bytes_of result.tag) result.rest.now }
{
    if !tags {
        return Untagged {
            tag: None,
            rest: line,
        };
    }
    match tag_cut(line) {
        TagCut::Tagged { tag, rest } => Untagged {
            tag: Some(tag),
            rest: behind_first(rest),
        },
        TagCut::Untagged | TagCut::Bad => Untagged {
            tag: None,
            rest: line,
        },
    }
}

/// Returns what the line says of its conversation, where conversations may have names.
pub(crate) fn conversation_in(names: bool, rest: &[u8]) -> Named<'_>
    ensures { IsNamed names rest.now result }
{
    if !names {
        return Named::Whole;
    }
    let Some(line) = session_line(rest) else {
        return Named::Whole;
    };
    if is_session_name(line.name) {
        Named::Session(line)
    } else {
        Named::Bad
    }
}
