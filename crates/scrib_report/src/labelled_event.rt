//! Lines of permitted events with a tag and a name, that are appended whole or not at all.

ghost use Rattle.std.specs.Prelude.{◌≡◌, ◌++◌, ℕ, List, OnOk, OnErr, codes};
ghost use Rattle.std.specs.Fmt.{decimal};
ghost use Rattle.scrib_report.specs.HeadedEvents.{headed_permitted};

use crate::event_line::push_permitted;
use crate::reply_head::ReplyHead;
use itoa::write_digits;
use std::alloc::AllocError;

// The end of the line of a permitted event. The blanks before it are room for a dot and a place.
const PERMITTED: [u8; 32] = *b"                      permitted\n";

// The offset in it at which the digits of the place end.
const PERMITTED_END: usize = 21;

/// Appends the line of the permitted event at this place of the conversation `id`, with this head, and a line feed.
///
/// # Errors
/// `AllocError` where memory for the longer text is refused; the text is then as it was.
#[inline(always)]
pub fn push_headed_permitted(
    out: &mut Vec<u8>,
    id: u32,
    place: u64,
    head: ReplyHead<'_>,
) -> Result<(), AllocError>
    ensures ok { OnOk result (out.new.items ≡ out.old.items ++ headed_permitted head.entry id place) }
    ensures err { OnErr result (out.new.items ≡ out.old.items) }
{
    let before = out.len();
    let pushed = push_pieces(out, id, place, head);
    if pushed.is_err() {
        out.truncate(before);
    }
    pushed
}

// Appends the same piece by piece. After an error, some pieces may be there.
#[inline(always)]
fn push_pieces(
    out: &mut Vec<u8>,
    id: u32,
    place: u64,
    head: ReplyHead<'_>,
) -> Result<(), AllocError>
    ensures ok { OnOk result (out.new.items ≡ out.old.items ++ headed_permitted head.entry id place) }
    ensures kept { (more : List ℕ) × (out.new.items ≡ out.old.items ++ more) }
{
    push_tag_text(out, head.tag_text)?;
    match head.name {
        Some(name) => push_named(out, name, place),
        None => push_permitted(out, id, place),
    }
}

// Appends the text of the tag, which is often empty.
#[inline(always)]
fn push_tag_text(out: &mut Vec<u8>, tag_text: &[u8]) -> Result<(), AllocError>
    ensures ok { OnOk result (out.new.items ≡ out.old.items ++ tag_text.now) }
    ensures err { OnErr result (out.new.items ≡ out.old.items) }
{
    if tag_text.is_empty() {
        return Ok(());
    }
    out.extend_from_slice(tag_text)
}

// Appends the name, a dot, the place, and ` permitted` with a line feed. After an error, the name may be there.
#[inline(never)]
fn push_named(out: &mut Vec<u8>, name: &[u8], place: u64) -> Result<(), AllocError>
    ensures ok { OnOk result
        (out.new.items ≡ out.old.items ++ name.now ++ codes "." ++ decimal place ++ codes " permitted\n") }
    ensures kept { (more : List ℕ) × (out.new.items ≡ out.old.items ++ more) }
{
    let mut line = PERMITTED;
    let place_at = write_digits(place, &mut line, PERMITTED_END);
    line[place_at - 1] = b'.';
    out.extend_from_slice(name)?;
    out.extend_from_slice(&line[place_at - 1..])
}
