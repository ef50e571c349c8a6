//! The labels of entries whose items wait.

ghost use Rattle.std.specs.Prelude.{◌≡◌, IfOk, Some, None};
ghost use Rattle.scrib_labelled.specs.NamedLines.{label_of};
ghost use Rattle.scrib_labelled.specs.LabelledRuns.{put_back, session_name};
ghost use Rattle.scrib_report.specs.PutBack.{put_back_by};
ghost use Rattle.scrib_held_labels.specs.WaitingLabels as spec;

use indexmap::IndexMap;
use scrib_labelled::labelled_monitor::LabelledMonitor;
use scrib_labelled::line_parts::{LineParts, Session};
use scrib_report::label::Label;
use std::alloc::{AllocError, Global};

/// The name of a conversation, and the number that stands for it.
#[derive(Drop)]
pub(crate) struct KeptSession {
    pub(crate) name: String,
    pub(crate) number: u32,
}

/// The label of an entry, without the bytes of its line.
#[derive(Drop)]
pub(crate) struct KeptLabel {
    line: u64,
    tag: Option<Vec<u8>>,
    pub(crate) session: Option<KeptSession>,
}

impl KeptLabel {
    /// Copies the label of a line.
    ///
    /// # Errors
    /// `AllocError` where memory is refused.
    pub(crate) fn new(alloc: Global, parts: LineParts<'_>) -> Result<KeptLabel, AllocError>
        ensures { IfOk result (λ kept. spec.label_kept kept ≡ spec.without_text (label_of parts.entry)) }
    {
        Ok(KeptLabel {
            line: parts.line,
            tag: kept_tag(alloc, parts.tag)?,
            session: kept_session(alloc, parts.session)?,
        })
    }

    /// The label that this monitor puts back into replies.
    pub(crate) fn label(&self, monitor: &LabelledMonitor) -> Label<'_>
        ensures { put_back_by result ≡ put_back monitor.now.style (spec.label_kept self.now) }
    {
        Label {
            tag: bytes_in(&self.tag),
            name: name_in(&self.session),
            line: monitor.printed(self.line),
            conversation: None,
        }
    }
}

// Copies the tag, if there is one.
fn kept_tag(alloc: Global, tag: Option<&[u8]>) -> Result<Option<Vec<u8>>, AllocError>
    ensures { IfOk result (λ kept. spec.bytes_kept kept ≡ spec.bytes_of tag.entry) }
{
    match tag {
        Some(tag) => Ok(Some(Vec::from_slice(alloc, tag)?)),
        None => Ok(None),
    }
}

// Copies the name and its number, if there is a name.
fn kept_session(
    alloc: Global,
    session: Option<Session<'_>>,
) -> Result<Option<KeptSession>, AllocError>
    ensures { IfOk result (λ kept. spec.session_kept kept ≡ spec.session_of session.entry) }
{
    match session {
        Some(session) => Ok(Some(KeptSession {
            name: String::from_str(alloc, session.name)?,
            number: session.number,
        })),
        None => Ok(None),
    }
}

// The bytes of the tag, if there is one.
fn bytes_in(tag: &Option<Vec<u8>>) -> Option<&[u8]>
    ensures { spec.bytes_of result ≡ spec.bytes_kept tag.now }
{
    match tag {
        Some(tag) => Some(tag.as_slice()),
        None => None,
    }
}

// The bytes of the name, if there is one.
fn name_in(session: &Option<KeptSession>) -> Option<&[u8]>
    ensures { spec.bytes_of result ≡ session_name (spec.session_kept session.now) }
{
    match session {
        Some(session) => Some(session.name.as_bytes()),
        None => None,
    }
}

/// The labels of entries whose items wait, by the numbers of the entries.
#[derive(Drop)]
pub(crate) struct WaitingLabels {
    kept: IndexMap<u64, KeptLabel>,
}

impl WaitingLabels {
    ghost use Rattle.std.specs.Prelude.{◌≡◌, ℕ, None, Some, OnOk, OnErr, nat_eq};
    ghost use Rattle.std.specs.Map.{update};
    ghost use Rattle.scrib_held_labels.specs.WaitingLabels.{kept_at};

    /// Returns no labels.
    pub(crate) fn new(alloc: Global) -> WaitingLabels
        ensures { (n : ℕ) → kept_at result n ≡ None }
    {
        WaitingLabels {
            kept: IndexMap::new(alloc),
        }
    }

    /// Keeps the label of the entry of this number.
    ///
    /// # Errors
    /// `AllocError` where memory is refused. The labels are then as they were.
    pub(crate) fn put(&mut self, number: u64, label: KeptLabel) -> Result<(), AllocError>
        ensures ok { OnOk result ((n : ℕ)
            → kept_at self.new n ≡ update nat_eq (kept_at self.old) number (Some label) n) }
        ensures err { OnErr result ((n : ℕ) → kept_at self.new n ≡ kept_at self.old n) }
    {
        self.kept.insert(number, label)?;
        Ok(())
    }

    /// Takes the label of the entry of this number away, and returns it, if it is kept.
    pub(crate) fn take(&mut self, number: u64) -> Option<KeptLabel>
        ensures found { result ≡ kept_at self.old number }
        ensures rest { (n : ℕ) → kept_at self.new n ≡ update nat_eq (kept_at self.old) number None n }
    {
        self.kept.swap_remove(&number)
    }
}
