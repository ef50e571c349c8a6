//! Tags at the heads of lines.

ghost use Rattle.std.specs.Prelude.{◌≡◌, ◌≤◌, ◌∷◌, true, false, take, length, IfSome, MatchOption};
ghost use Rattle.scrib_labels.specs.Tags as spec;

use crate::field::field_len;
use crate::visible::{short_visible_run, visible_run};

/// The most bytes of a tag.
pub const MAX_TAG_BYTES: usize = 64;

/// What the head of a line says of a tag.
#[derive(Clone, Copy)]
pub enum TagCut<'a> {
    /// The line does not begin with `@`.
    Untagged,
    /// The line begins with `@` and this tag. The rest is empty or begins with a blank or a tab.
    Tagged { tag: &'a [u8], rest: &'a [u8] },
    /// The line begins with `@`, and no tag is behind it.
    Bad,
}

/// A tag at the head of a line, with one blank behind it.
#[derive(Clone, Copy)]
pub struct TagHead<'a> {
    pub tag: &'a [u8],
    /// The bytes in front of the rest: `@`, the tag and a blank.
    pub head: &'a [u8],
    pub rest: &'a [u8],
}

/// Returns the tag that a line begins with, and the rest behind one blank. None where there is no tag, or where a tab or
/// the end of the line is behind it.
pub fn tag_head(line: &[u8]) -> Option<TagHead<'_>>
    ensures { IfSome result (spec.IsTagHead line.now) }
{
    let after = after_at(line)?;
    let len = visible_len(after);
    if len == 0 || after.get(len).copied() != Some(b' ') {
        return None;
    }
    Some(TagHead {
        tag: &after[..len],
        head: &line[..len + 2],
        rest: &after[len + 1..],
    })
}

// The number of visible bytes that the bytes begin with, up to 64.
fn visible_len(bytes: &[u8]) -> usize
    ensures visible { spec.all_visible (take result bytes.now) ≡ true }
    ensures within { result ≤ length bytes.now }
    ensures few { result ≤ 64 }
{
    match short_visible_run(bytes) {
        Some(len) => len,
        None => visible_run(&bytes[..bytes.len().min(MAX_TAG_BYTES)]),
    }
}

/// Returns the tag that a line begins with, and the rest of the line.
///
/// A tag is 1 to 64 visible ASCII bytes behind `@`, up to a blank, a tab or the end of the line.
pub fn tag_cut(line: &[u8]) -> TagCut<'_>
    ensures { spec.IsTagCut line.now result }
{
    let Some(after) = after_at(line) else {
        return TagCut::Untagged;
    };
    let (tag, rest) = after.split_at(field_len(after));
    if is_tag(tag) {
        TagCut::Tagged { tag, rest }
    } else {
        TagCut::Bad
    }
}

/// Returns whether the line begins with `@`, as each line with a tag does.
pub fn begins_tag(line: &[u8]) -> bool
    ensures { result ≡ spec.begins_tag line.now }
{
    after_at(line).is_some()
}

// The bytes after `@`, where the line begins with it.
fn after_at(line: &[u8]) -> Option<&[u8]>
    ensures { MatchOption result (spec.begins_tag line.now ≡ false) (λ rest. line.now ≡ 64 ∷ rest.now) }
{
    match line {
        [b'@', rest @ ..] => Some(rest),
        _ => None,
    }
}

/// Returns whether the bytes are a tag.
pub fn is_tag(bytes: &[u8]) -> bool
    ensures { result ≡ spec.is_tag bytes.now }
{
    !bytes.is_empty() && bytes.len() <= MAX_TAG_BYTES && all_visible(bytes)
}

fn all_visible(bytes: &[u8]) -> bool
    ensures { result ≡ spec.all_visible bytes.now }
{
    for byte in bytes {
        if *byte < b'!' || *byte > b'~' {
            return false;
        }
    }
    true
}
