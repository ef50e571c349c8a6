//! The text of a finding, as a line of text or as a JSON object.

ghost use Rattle.std.specs.Prelude.{◌≡◌, ◌++◌, OnOk};
ghost use Rattle.scrib_report.specs.PutBack.{bytes_of, tag_text};
ghost use Rattle.scrib_findings.specs.FindingLines.{finding_line};
ghost use Rattle.scrib_findings.specs.FindingTexts.{finding_text};

use crate::finding::Finding;
use crate::finding_line::push_finding_line;
use crate::finding_object::push_finding_object;
use scrib_core::format::Format;
use scrib_report::label::Label;
use scrib_report::put_back::push_labelled_line;
use std::alloc::AllocError;

/// Appends the text of the finding in this format, with this tag: one line with its LF.
///
/// As a line of text, behind `@17 ` where the tag is `17`, it is one of these:
/// - `offence in conversation 7 at event 11, line 35: recv Orders Payment charge(Int): NotSent; Payment waits for ..`;
/// - `no offence any more in conversation 7, line 90: permitted`;
/// - `refused in line 12, conversation 9: NoConversation`, or `refused in line 12: UnknownModule` where the step
///   concerns no conversation.
///
/// A JSON object has its keys in the order of their bytes, among them `tag`.
///
/// # Errors
/// `AllocError` where memory is refused, and for a JSON object where the tag or a name is not UTF-8. A part of the text
/// may be appended then.
pub fn push_finding(
    out: &mut Vec<u8>,
    finding: Finding<'_>,
    format: Format,
    tag: Option<&[u8]>,
) -> Result<(), AllocError>
    ensures { OnOk result
        (out.new.items ≡ out.old.items ++ finding_text format (bytes_of tag.entry) finding.entry) }
{
    match format {
        Format::Line => push_tagged_line(out, finding, tag),
        Format::Json => push_finding_object(out, finding, tag),
    }
}

// Appends the line of the finding behind the text of the tag. It fails where memory is refused, as does the function
// below.
fn push_tagged_line(
    out: &mut Vec<u8>,
    finding: Finding<'_>,
    tag: Option<&[u8]>,
) -> Result<(), AllocError>
    ensures { OnOk result (out.new.items
        ≡ out.old.items ++ (tag_text (bytes_of tag.entry) ++ finding_line finding.entry)) }
{
    push_tag(out, tag)?;
    push_finding_line(out, finding)
}

// Appends the text of the tag, as the line of a reply has it in front.
fn push_tag(out: &mut Vec<u8>, tag: Option<&[u8]>) -> Result<(), AllocError>
    ensures { OnOk result (out.new.items ≡ out.old.items ++ tag_text (bytes_of tag.entry)) }
{
    let label = Label {
        tag,
        name: None,
        line: None,
        conversation: None,
    };
    push_labelled_line(out, b"", label)
}
