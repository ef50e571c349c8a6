//! Lines with a name in the place of a conversation's number.

ghost use Rattle.std.specs.Prelude.{◌≡◌, ◌++◌, ◌∷◌, None, true, MatchOption, OnOk};
ghost use Rattle.std.specs.Fmt.{decimal};
ghost use Rattle.scrib_script_reader.specs.Fields.{fields};
ghost use Rattle.scrib_labels.specs.SessionLines as spec;

use crate::field::next_field;
use scrib_types::text::{push_bytes, push_number};
use std::alloc::AllocError;

/// A line in which a conversation is named: what is before the name and behind it.
#[derive(Clone, Copy)]
pub struct SessionLine<'a> {
    /// Whether the first field is `json`.
    pub json: bool,
    /// The word of the line, such as `send`.
    pub word: &'a [u8],
    /// The field in the place of the conversation's number.
    pub name: &'a [u8],
    /// What is behind the name.
    pub rest: &'a [u8],
}

/// Returns the parts of a line that has a field in the place of a conversation's number, or none of any other line.
///
/// It is the field behind a word: `open`, `join`, `send`, `recv`, `turn`, `ask` or `close`. This is the first field, or
/// the one behind a first field `json`.
pub fn session_line(line: &[u8]) -> Option<SessionLine<'_>>
    ensures { MatchOption result (spec.id_field (fields line.now) ≡ None) (spec.IsSessionLine line.now) }
{
    let (first, rest) = next_field(line)?;
    if first != b"json".as_slice() {
        return named_line(false, first, rest);
    }
    let (word, behind) = next_field(rest)?;
    named_line(true, word, behind)
}

// The parts of a line of this word, where it is followed by a field in the place of a conversation's number.
fn named_line<'a>(json: bool, word: &'a [u8], behind: &'a [u8]) -> Option<SessionLine<'a>>
    ensures { MatchOption result (spec.bare_id_field (word.now ∷ fields behind.now) ≡ None)
        (λ s. (s.json ≡ json) × spec.IsNamedLine (word.now ∷ fields behind.now) s) }
{
    if !is_id_word(word) {
        return None;
    }
    let (name, rest) = next_field(behind)?;
    Some(SessionLine {
        json,
        word,
        name,
        rest,
    })
}

// Whether a conversation's number is behind this word.
fn is_id_word(word: &[u8]) -> bool
    ensures { result ≡ spec.is_id_word word.now }
{
    is_event_word(word) || is_state_word(word)
}

fn is_event_word(word: &[u8]) -> bool
    ensures { result ≡ spec.is_event_word word.now }
{
    word == b"join".as_slice() || word == b"send".as_slice() || word == b"recv".as_slice()
}

fn is_state_word(word: &[u8]) -> bool
    ensures { result ≡ spec.is_state_word word.now }
{
    word == b"open".as_slice()
        || word == b"turn".as_slice()
        || word == b"ask".as_slice()
        || word == b"close".as_slice()
}

/// Appends the line with the number in the place of the name, without an end. Its other fields stay the same.
///
/// # Errors
/// `AllocError` where memory for the longer text is refused.
pub fn push_numbered_line(
    out: &mut Vec<u8>,
    line: SessionLine<'_>,
    number: u32,
) -> Result<(), AllocError>
    ensures line { OnOk result (out.new.items ≡ out.old.items ++ spec.numbered_line line.entry number) }
    ensures fields { OnOk result (spec.is_id_word line.entry.word.now ≡ true
        → fields (spec.numbered_line line.entry number)
        ≡ spec.json_field line.entry.json ++ line.entry.word.now ∷ decimal number ∷ fields line.entry.rest.now) }
{
    if line.json {
        push_bytes(out, b"json ")?;
    }
    push_bytes(out, line.word)?;
    push_bytes(out, b" ")?;
    push_number(out, u64::from(number))?;
    push_bytes(out, b" ")?;
    push_bytes(out, line.rest)
}
